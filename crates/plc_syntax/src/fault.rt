// Why tokens are refused. That memory ran out is the one answer that no contract ties to a cause.
ghost use Rattle.std.specs.Prelude.{◌≡◌};
ghost use Rattle.plc_syntax.specs.declared.fault.Fault.TheVariants.{Memory};

use std::alloc::{AllocError, AllocFailed};

/// Why no tree is read. A place counts tokens from 0.
#[derive(Clone, Copy)]
pub enum Fault {
    /// No tree's tokens begin with those up to and with this one; the number of tokens where they
    /// begin a tree's and are none's.
    Syntax { at: u32 },
    /// Memory ran out.
    Memory,
}

impl From<AllocError> for Fault {
    ghost from_gives = { λ _ e. e ≡ Memory };

    fn from(_e: AllocError) -> Fault {
        Fault::Memory
    }
}

impl<T: Drop> From<AllocFailed<T>> for Fault {
    ghost from_gives = { λ _ e. e ≡ Memory };

    fn from(_e: AllocFailed<T>) -> Fault {
        Fault::Memory
    }
}
