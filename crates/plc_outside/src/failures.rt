// The names whose reads failed, one entry for each read that failed. The list is the count that the
// trait `Files` speaks of: a read that fails adds its name, and where the list cannot grow the read
// answers that memory ran out, since a count that does not rise would leave `Failed` without a cause.
ghost use Rattle.std.specs.Prelude.{◌≡◌, ◌≢◌, ◌≤◌, ◌<◌, ◌++◌};
ghost use Rattle.std.specs.Prelude.{◌∷◌, [], ℕ, List, OnOk, OnErr};
ghost use Rattle.plc_outside.specs.Failures.{times};

use crate::files::FileFault;
use plc_base::NoMemory;
use std::alloc::Global;
use std::marker::Model;

/// The names of the reads that failed, in the order of these reads.
#[derive(Drop)]
pub(crate) struct FailedReads {
    alloc: Global,
    names: Vec<String>,
}

impl Model for FailedReads {
    ghost use Rattle.std.specs.Prelude.{ℕ, List, map, string_bytes};

    ghost Value = { List (List ℕ) };

    ghost view = { λ s. map string_bytes s.names.items };
}

impl FailedReads {
    /// No names. It takes no memory.
    pub(crate) fn new(alloc: Global) -> FailedReads
        ensures { result ≡ [] }
    {
        FailedReads {
            alloc,
            names: Vec::new(alloc),
        }
    }

    /// One more name at the end, or an unchanged list.
    fn add(&mut self, name: &str) -> Result<(), NoMemory>
        ensures ok { OnOk result (self.new ≡ self.old ++ name.now ∷ []) }
        ensures err { OnErr result (self.new ≡ self.old) }
    {
        self.names.push(String::from_str(self.alloc, name)?)?;
        Ok(())
    }

    /// Notes that the read of a name failed, and gives the answer to that read. A name that is
    /// noted counts one more, and no other name does.
    pub(crate) fn note(&mut self, name: &str) -> FileFault
        ensures fault { result ≢ FileFault.TooLong }
        ensures noted { result ≡ FileFault.Failed → self.new ≡ self.old ++ name.now ∷ [] }
        ensures kept { result ≢ FileFault.Failed → self.new ≡ self.old }
        ensures others { (other : List ℕ) → other ≢ name.now → times self.new other ≡ times self.old other }
        ensures later { times self.old name.now ≤ times self.new name.now }
        ensures rose { result ≡ FileFault.Failed → times self.old name.now < times self.new name.now }
    {
        match self.add(name) {
            Ok(()) => FileFault::Failed,
            Err(NoMemory) => FileFault::Memory,
        }
    }
}
