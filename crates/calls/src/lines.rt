// From a line to its call.
ghost use Rattle.std.specs.Prelude.{◌≡◌, ℕ, ◌^◌, ◌<◌, ◌≤◌, List, length, decimal, MatchOption, ◌≢◌};
ghost use Rattle.calls.specs.Lines.{Name, Lendable, lengths_text, rule_then_file, verb_text, Read};
ghost use Rattle.calls.specs.Arguments.{ReadAs, followed, bare_call};
ghost use Rattle.calls.specs.declared.call.Verb.TheVariants as verb;

use crate::answer::Lengths;
use crate::call::{Call, Verb};
use crate::cuts::cut;
use decimal::number;

// A word that is a number in decimal, whole.
fn number_word(word: &[u8]) -> Option<u32>
    ensures { MatchOption result ((n : ℕ) → n < 2 ^ 32 → word.now ≢ decimal n) (λ n. word.now ≡ decimal n) }
{
    let (value, size) = number(word, 0)?;
    (size == word.len()).then_some(value)
}

// A file's name: a word that is not empty and has no space.
fn name(word: &[u8]) -> Option<&[u8]>
    ensures { MatchOption result (Name word.now → ⊥) (λ f. (f.now ≡ word.now) × Name word.now) }
{
    (!word.is_empty() && !word.contains(&b' ')).then_some(word)
}

// Three lengths that the program lends.
fn lengths(words: &[u8]) -> Option<Lengths>
    ensures { MatchOption result ((l : Lengths) → Lendable l → words.now ≢ lengths_text l) (λ l. Lendable l × (words.now ≡ lengths_text l)) }
{
    let (bytes, rest) = cut(words, b' ');
    let (literals, places) = cut(rest, b' ');
    let lengths = Lengths {
        bytes: number_word(bytes)?,
        literals: number_word(literals)?,
        places: number_word(places)?,
    };
    if lengths.bytes > 2_000_000 || lengths.literals > 2_000_000 || lengths.places > 2_000_000 {
        return None;
    }
    Some(lengths)
}

// A rule and a file.
fn rule_and_file(words: &[u8]) -> Option<(u32, &[u8])>
    ensures { MatchOption result ((rule : ℕ) (file : List ℕ) → rule < 2 ^ 32 → Name file → words.now ≢ rule_then_file rule file) (λ p. Name p.1.now × (words.now ≡ rule_then_file p.0 p.1.now)) }
{
    let (rule, file) = cut(words, b' ');
    Some((number_word(rule)?, name(file)?))
}

// The verb that a word is.
fn verb(word: &[u8]) -> Option<Verb>
    ensures { MatchOption result ((v : Verb) → word.now ≢ verb_text v) (λ v. word.now ≡ verb_text v) }
{
    match word {
        b"circuit" => Some(Verb::Circuit),
        b"table" => Some(Verb::Table),
        b"areas" => Some(Verb::Areas),
        b"replay" => Some(Verb::Replay),
        b"question" => Some(Verb::Question),
        b"refute" => Some(Verb::Refute),
        b"hand" => Some(Verb::Hand),
        b"look" => Some(Verb::Look),
        b"tally" => Some(Verb::Tally),
        b"strike" => Some(Verb::Strike),
        b"account" => Some(Verb::Account),
        _ => None,
    }
}

// A call of a rule, a file and a number.
fn question(rest: &[u8]) -> Option<Call<'_>>
    ensures { ReadAs verb.Question rest.now result }
{
    let (rule, rest) = cut(rest, b' ');
    let (file, number) = cut(rest, b' ');
    Some(Call::Question {
        rule: number_word(rule)?,
        file: name(file)?,
        number: number_word(number)?,
    })
}

// A call of two files.
fn refute(rest: &[u8]) -> Option<Call<'_>>
    ensures { ReadAs verb.Refute rest.now result }
{
    let (clauses, proof) = cut(rest, b' ');
    Some(Call::Refute {
        clauses: name(clauses)?,
        proof: name(proof)?,
    })
}

// The call of a verb that stands alone on its line.
fn bare<'a>(found: Verb) -> Option<Call<'a>>
    ensures { result ≡ bare_call found }
{
    match found {
        Verb::Tally => Some(Call::Tally),
        Verb::Account => Some(Call::Account),
        _ => None,
    }
}

// The call of a verb, a space and the rest.
fn with_rest(found: Verb, rest: &[u8]) -> Option<Call<'_>>
    ensures { Read (followed found rest.now) result }
{
    match found {
        Verb::Circuit => Some(Call::Circuit { file: name(rest)? }),
        Verb::Table => Some(Call::Table { file: name(rest)? }),
        Verb::Areas => Some(Call::Areas(lengths(rest)?)),
        Verb::Replay => {
            let (rule, file) = rule_and_file(rest)?;
            Some(Call::Replay { rule, file })
        }
        Verb::Question => question(rest),
        Verb::Refute => refute(rest),
        Verb::Hand => {
            let (rule, file) = rule_and_file(rest.strip_prefix(b"in ")?)?;
            Some(Call::HandIn { rule, file })
        }
        Verb::Look => {
            let rule = number_word(rest.strip_prefix(b"up ")?)?;
            Some(Call::LookUp { rule })
        }
        Verb::Strike => {
            let rule = number_word(rest)?;
            Some(Call::Strike { rule })
        }
        Verb::Tally | Verb::Account => None,
    }
}

// The call that a line has, or none where the line is not understood.
pub fn parse(line: &[u8]) -> Option<Call<'_>>
    ensures { Read line.now result }
{
    let (word, rest) = cut(line, b' ');
    let found = verb(word)?;
    if word.len() == line.len() {
        return bare(found);
    }
    with_rest(found, rest)
}
