// What a certificate claims, and the number of each claim.
ghost use Rattle.std.specs.Prelude.{◌≡◌, Some};
ghost use Rattle.certificate.specs.Claims.{claim_of, most, claim_text};

use refusal::CertificateFault;
use std::fmt;

// What a certificate claims of a rule.
#[derive(Clone, Copy, PartialEq, Eq, Debug)]
pub enum Claim {
    // the rule is kept: frames that close
    Trace,
    // the rule is kept: by induction
    Induction,
    // the rule is broken: a run that breaks it
    Counterexample,
}

impl TryFrom<u8> for Claim {
    type Error = CertificateFault;

    ghost try_from_gives = { λ number r. r ≡ claim_of number };

    fn try_from(number: u8) -> Result<Claim, CertificateFault> {
        match number {
            1 => Ok(Claim::Trace),
            2 => Ok(Claim::Induction),
            3 => Ok(Claim::Counterexample),
            _ => Err(CertificateFault::WrongNumber),
        }
    }
}

impl Claim {
    // The greatest size that the claim may have.
    pub fn most(self) -> u32
        ensures { result ≡ most self }
    {
        match self {
            Claim::Trace | Claim::Induction => 64,
            Claim::Counterexample => 4096,
        }
    }
}

impl fmt::Display for Claim {
    ghost output = { λ c. Some (claim_text c) };

    fn fmt<W: fmt::Write>(&self, f: &mut fmt::Formatter<W>) -> fmt::Result {
        match self {
            Claim::Trace => write!(f, "trace"),
            Claim::Induction => write!(f, "induction"),
            Claim::Counterexample => write!(f, "counterexample"),
        }
    }
}
