// What is suggested, or why nothing is.
ghost use Rattle.std.specs.Prelude.{◌≡◌};
ghost use Rattle.plc_suggest.specs.declared.suggestion.SuggestFault.TheVariants.{Memory};

use crate::spot::Spot;
use plc_base::{Items, NoMemory, StepId};
use plc_xfer::TypeFault;

/// The claims that a program needs.
#[derive(Drop)]
pub enum Suggestion {
    /// These make the program typable, and none of them can be left out. They stand in order of steps; of one step
    /// shared pointers stand before locals.
    Found(Items<Spot>),
    /// No claims in front of steps make it typable: the condition of this primitive fails under every pre-typing of the
    /// program that has a claim at every spot, as no earlier one does. The primitive is counted without these claims.
    Insufficient {
        step: StepId,
        prim: u16,
        fault: TypeFault,
    },
}

/// Why nothing is suggested.
#[derive(Debug, Drop)]
pub enum SuggestFault {
    /// The program has more than 4,096 spots; the count is 4,097.
    TooMany { count: u32 },
    /// Memory ran out.
    Memory,
}

impl From<NoMemory> for SuggestFault {
    ghost from_gives = { λ _ e. e ≡ Memory };

    fn from(_error: NoMemory) -> Self {
        Self::Memory
    }
}
