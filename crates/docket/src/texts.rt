// What a docket says, as text.
ghost use Rattle.std.specs.Prelude.{◌≡◌, Some};
ghost use Rattle.docket.specs.Texts.{standing_text, tally_text, account_text};

use crate::book::{Account, Standing, Tally};
use std::fmt;

impl fmt::Display for Standing {
    ghost output = { λ s. Some (standing_text s) };

    fn fmt<W: fmt::Write>(&self, f: &mut fmt::Formatter<W>) -> fmt::Result {
        match self {
            Standing::Open => write!(f, "open"),
            Standing::Kept => write!(f, "kept"),
            Standing::Broken => write!(f, "broken"),
        }
    }
}

impl fmt::Display for Tally {
    ghost output = { λ t. Some (tally_text t) };

    fn fmt<W: fmt::Write>(&self, f: &mut fmt::Formatter<W>) -> fmt::Result {
        let Tally {
            handed_in,
            accepted,
            refused,
            struck,
        } = *self;
        write!(
            f,
            "handed in {handed_in}, accepted {accepted}, refused {refused}, struck {struck}"
        )
    }
}

// Every rule with its standing, then the counts.
impl fmt::Display for Account {
    ghost output = { λ a. Some (account_text a) };

    fn fmt<W: fmt::Write>(&self, f: &mut fmt::Formatter<W>) -> fmt::Result {
        for (rule, standing) in self.standings.iter().take(self.rules).enumerate() {
            write!(f, "{rule} {standing}; ")?;
        }
        write!(f, "{}", self.tally)
    }
}
