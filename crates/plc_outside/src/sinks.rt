// Sinks, to which the program writes. As with a file of the system, one call takes as much of a
// piece as it likes, but never nothing of a piece that has bytes: a caller that goes on with the
// rest comes to an end. Each sink notes for proofs which bytes it took, and a fault raises a count, so that no
// sink can refuse without a cause.
ghost use Rattle.std.specs.Prelude.{◌≡◌};
ghost use Rattle.plc_outside.specs.Known.{KnownSink};
ghost use Rattle.plc_outside.specs.Outside.{Puts};
ghost use Rattle.plc_outside.specs.declared.sinks.SinkFault.TheVariants.{Memory};

use std::alloc::AllocError;
use thiserror::Error;

/// Why nothing of a piece was written.
#[derive(Clone, Copy, PartialEq, Eq)]
#[derive(Debug, Error)]
pub enum SinkFault {
    /// The write failed, or the sink takes no more.
    #[error("failed")]
    Failed,
    /// Memory ran out.
    #[error("no memory")]
    Memory,
}

/// A sink takes bytes, piece by piece.
pub trait Sink {
    /// What is known of it: the bytes that it took, how many writes failed, and how many more bytes it surely takes
    /// before a write fails. No call takes written bytes back, and the count never falls.
    ghost known: { Self → KnownSink };

    /// Writes the first bytes of the piece and answers how many they are, which is at least 1 where
    /// the piece is not empty.
    ///
    /// After `Failed` and `Memory` nothing more is written. `Failed` comes only where the count of
    /// faults rose in this call or stands at the last value of a `u64`: a sink that takes nothing of
    /// a piece with bytes counts a fault too. Of such a piece it comes only where the sink has no room for
    /// sure; each byte that is taken takes one of that room at most.
    fn put(&mut self, piece: &[u8]) -> Result<usize, SinkFault>
        ensures { Puts (known self.old) (known self.new) piece.now result };
}

impl From<AllocError> for SinkFault {
    ghost from_gives = { λ _ fault. fault ≡ Memory };

    fn from(_e: AllocError) -> SinkFault {
        SinkFault::Memory
    }
}
