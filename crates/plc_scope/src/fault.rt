// Why a list of tokens spells no unit. Syntax is judged over the whole file first; of the other
// faults the one at the least token is named, and at one token the first in the order below.
ghost use Rattle.plc_scope.specs.declared.fault.ParseFault.TheVariants.{Memory};
ghost use Rattle.std.specs.Prelude.{◌≡◌, ◌+◌};
ghost use Rattle.plc_base.specs.Limits.{most};
ghost use Rattle.plc_scope.specs.Limits.{stands_at};

use plc_base::{NoMemory, What1};
use std::alloc::{AllocError, AllocFailed};

/// Why tokens spell no unit. A place is a number of tokens before it.
#[derive(Debug, Drop)]
pub enum ParseFault {
    /// No file's tokens go on with the token at this place, or all are there and more has to come.
    Syntax { at: u32 },
    /// A name with no declaration in reach.
    Undeclared { at: u32 },
    /// A second declaration of a name.
    Duplicate { at: u32 },
    /// A name or a value that can't stand there.
    WrongSort { at: u32 },
    /// A function with an argument too many or too few, or `retire` of null; at the function's name.
    NoSuchCall { at: u32 },
    /// A limit is passed; the count is the limit plus one.
    Limit { what: What1, count: u32 },
    /// Memory ran out.
    Memory,
}

/// What a form or a name means, or why it means nothing.
pub type Resolved<T> = Result<T, ParseFault>;

impl ParseFault {
    /// The fault of one more of something than there may be.
    #[tactic(auto, using(crate::proofs::Limits::most_few))]
    pub fn past(what: What1) -> ParseFault
        ensures { result ≡ ParseFault.Limit what (most what + 1) }
    {
        let count = what.most() + 1;
        ParseFault::Limit { what, count }
    }

    /// Whether the fault is at the token at this place. Where the first token of a form past a limit is
    /// at fault itself, that goes before the limit.
    pub fn stands_at(&self, at: u32) -> bool
        ensures { result ≡ stands_at at self.now }
    {
        match self {
            ParseFault::Undeclared { at: k }
            | ParseFault::Duplicate { at: k }
            | ParseFault::WrongSort { at: k }
            | ParseFault::NoSuchCall { at: k } => *k == at,
            ParseFault::Syntax { .. } | ParseFault::Limit { .. } | ParseFault::Memory => false,
        }
    }
}

impl From<AllocError> for ParseFault {
    ghost from_gives = { λ _ e. e ≡ Memory };

    fn from(_e: AllocError) -> ParseFault {
        ParseFault::Memory
    }
}

impl<T: Drop> From<AllocFailed<T>> for ParseFault {
    ghost from_gives = { λ _ e. e ≡ Memory };

    fn from(_e: AllocFailed<T>) -> ParseFault {
        ParseFault::Memory
    }
}

impl From<NoMemory> for ParseFault {
    ghost from_gives = { λ _ e. e ≡ Memory };

    fn from(_e: NoMemory) -> ParseFault {
        ParseFault::Memory
    }
}
