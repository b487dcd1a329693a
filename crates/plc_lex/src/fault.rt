// Why bytes spell no tokens. Of several reasons the one at the least place is told.
use std::alloc::{AllocError, AllocFailed};

/// Why bytes spell no tokens, with the place of the byte at which no token stands.
#[derive(Clone, Copy, Debug, PartialEq, Eq)]
pub enum LexFault {
    /// No token begins with the byte, or it only begins a symbol.
    BadByte { at: u32 },
    /// A name of more than 64 bytes begins here.
    LongName { at: u32 },
    /// A number above 4294967295, or of several digits of which the first is 0, begins here.
    BadNumber { at: u32 },
    /// Memory ran out.
    Memory,
}

impl From<AllocError> for LexFault {
    ghost use Rattle.std.specs.Prelude.{◌≡◌};
    ghost use Rattle.plc_lex.specs.declared.fault.LexFault.{LexFault};

    ghost from_gives = { λ _ fault. fault ≡ LexFault.Memory };

    fn from(_error: AllocError) -> Self {
        Self::Memory
    }
}

impl<T: Drop> From<AllocFailed<T>> for LexFault {
    ghost use Rattle.std.specs.Prelude.{◌≡◌};
    ghost use Rattle.plc_lex.specs.declared.fault.LexFault.{LexFault};

    ghost from_gives = { λ _ fault. fault ≡ LexFault.Memory };

    fn from(_error: AllocFailed<T>) -> Self {
        Self::Memory
    }
}
