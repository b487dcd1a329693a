// Files, as the program reads them. A caller knows nothing of where the bytes come from, so the
// trait speaks of four things that an object keeps for proofs alone: the content under each name,
// a count of the reads of each name that failed, how many bytes the latest read took, and which reads
// gave which bytes. A fault is tied to these, so that no implementation can refuse a file without a
// cause; and what was answered to the bytes of a read can be said where no content is told.
ghost use Rattle.std.specs.Prelude.{◌≡◌, ◌≢◌, ℕ, List};
ghost use Rattle.plc_outside.specs.Outside.{ReadHasCause, AgreesWith, NotesReading};
ghost use Rattle.plc_outside.specs.Known.{KnownFiles};
ghost use Rattle.plc_outside.specs.declared.files.FileFault.TheVariants.{Memory};

use std::alloc::AllocError;
use thiserror::Error;

/// Why a file was not read.
#[derive(Clone, Copy, Debug, PartialEq, Eq, Error)]
pub enum FileFault {
    /// There is no such file, or reading it failed.
    #[error("failed")]
    Failed,
    /// The file has more bytes than were asked for.
    #[error("too long")]
    TooLong,
    /// Memory ran out.
    #[error("no memory")]
    Memory,
}

impl From<AllocError> for FileFault {
    ghost from_gives = { λ _ fault. fault ≡ Memory };

    fn from(_e: AllocError) -> FileFault {
        FileFault::Memory
    }
}

/// Files that are read whole, each by its name.
pub trait Files {
    /// What is known of them: the bytes under each name, where they are told; how many reads of each name
    /// failed; how many bytes the latest read took; and which reads gave which bytes. No call changes the
    /// content, no count falls, and no reading that was noted is forgotten.
    ghost known: { Self → KnownFiles };

    /// The bytes of the file, which are at most `max`.
    ///
    /// `Failed` comes only where the count of this name rose in this call, and `TooLong` only where
    /// more than `max` bytes were taken. Where the content is told, `Ok` is the content, and of the
    /// answers other than `Failed` and `Memory` it is `TooLong` exactly where the content is longer
    /// than `max`. No read changes the count of another name. A read that gives bytes is noted.
    fn read(&mut self, name: &str, max: usize) -> Result<Vec<u8>, FileFault>
        ensures content { (other : List ℕ) → (known self.new).content other ≡ (known self.old).content other }
        ensures others { (other : List ℕ) → other ≢ name.now →
            (known self.new).faults other ≡ (known self.old).faults other }
        ensures cause { ReadHasCause ((known self.old).faults name.now) ((known self.new).faults name.now)
            (known self.new).taken max result }
        ensures told { AgreesWith ((known self.old).content name.now) max result }
        ensures given { NotesReading (known self.old).given (known self.new).given name.now result };
}
