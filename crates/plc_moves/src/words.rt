// The words of a run, whichever meaning memory has: its moves, the places of memory that hold a number, and why a run
// may have no beginning.
ghost use Rattle.std.specs.Prelude.{◌≡◌};
ghost use Rattle.plc_moves.specs.declared.words.StartFault.TheVariants.{Memory};

use plc_base::{FieldId, Items, NoMemory, OpId};

/// A move of a run.
#[derive(Drop)]
pub enum Move {
    /// Thread `t`, which is idle, starts an operation with one number for each parameter.
    Start { t: u32, op: OpId, args: Items<u32> },
    /// Thread `t` takes the `nth` of the steps that leave its point; the address is that of its `new`.
    Step { t: u32, nth: u16, addr: Option<u32> },
    /// Thread `t`, which is at the exit of its operation, returns.
    Return { t: u32 },
    /// The reclaimer frees an address.
    Free { a: u32 },
}

/// Why there is no state in which a run starts.
#[derive(Debug, Drop)]
pub enum StartFault {
    /// The file's `init` is blocked.
    NoStart,
    /// Memory ran out.
    Memory,
}

impl From<NoMemory> for StartFault {
    ghost from_gives = { λ _ fault. fault ≡ Memory };

    fn from(_fault: NoMemory) -> Self {
        Self::Memory
    }
}

/// A place of the memory that holds a number.
#[derive(Clone, Copy)]
pub enum Place {
    /// A shared pointer.
    Shared(u16),
    /// A field of the node at an address.
    Cell { a: u32, f: FieldId },
    /// A pointer local of the operation that thread `t` is in.
    Local { t: u32, v: u16 },
}
