// Why bytes are no schedule. A file with too many lines is refused before any line is read, so that
// the work is bounded; else the first line that spells nothing is told.
ghost use Rattle.std.specs.Prelude.{◌≡◌};
ghost use Rattle.plc_sched.specs.declared.fault.SchedFault.TheVariants.{Memory};

use std::alloc::AllocError;

/// Why bytes are no schedule. Of several reasons `Limit` comes first.
#[derive(Clone, Copy, Debug, PartialEq, Eq)]
pub enum SchedFault {
    /// Memory ran out.
    Memory,
    /// Line `n`, from 1 on, is the first that spells no head or entry. The empty file lacks line 1.
    Line { n: u32 },
    /// There are more than 100,000 lines; `count` is 100,001.
    Limit { count: u32 },
}

impl From<AllocError> for SchedFault {
    ghost from_gives = { λ _ e. e ≡ Memory };

    fn from(_e: AllocError) -> SchedFault {
        SchedFault::Memory
    }
}
