// Why a clause file and a proof file show nothing.
ghost use Rattle.std.specs.Prelude.{◌≡◌};
ghost use Rattle.refutation_files.specs.declared.unproved.Unproved.TheVariants.{Refused as OfRefusal, NoMemory as OfMemory};

use refusal::Refusal;
use std::alloc::AllocError;

#[derive(Clone, Copy, PartialEq, Eq, Debug)]
pub enum Unproved {
    // the first file is no list of rising clauses
    NotAClauseList,
    // the second one is no whole refutation
    NotARefutation,
    // the start, a step or the finish is refused
    Refused(Refusal),
    // the files do not fit into memory
    NoMemory(AllocError),
}

impl From<Refusal> for Unproved {
    ghost from_gives = { λ e r. r ≡ OfRefusal e };

    fn from(e: Refusal) -> Unproved {
        Unproved::Refused(e)
    }
}

impl From<AllocError> for Unproved {
    ghost from_gives = { λ e r. r ≡ OfMemory e };

    fn from(e: AllocError) -> Unproved {
        Unproved::NoMemory(e)
    }
}
