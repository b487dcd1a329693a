// Files that lie in memory and never fail: over them every status of the program but those of its memory
// and of the sink goes by the bytes alone.
ghost use Rattle.std.specs.Prelude.{◌≡◌, ◌≢◌, [], ℕ, List, Some};
ghost use Rattle.plc_outside.specs.Outside.{ReadHasCause, AgreesWith, NotesReading};
ghost use Rattle.plc_outside.specs.StoredFiles.{entries_of, Answers};
ghost use Rattle.plc_outside.specs.HonestFiles.{bytes_of, no_faults, known_of, IsAfterHonestRead};

use crate::files::{FileFault, Files};
use crate::memory::find;
use crate::readings::Readings;
use std::alloc::Global;
use std::marker::Model;

/// Names with bytes. No read fails: there are no bytes under any other name.
#[derive(Drop)]
pub struct HonestFiles {
    alloc: Global,
    files: Vec<(String, Vec<u8>)>,
    taken: usize,
    given: Readings,
}

impl Model for HonestFiles {
    ghost use Rattle.plc_outside.specs.StoredFiles.{entries_of};
    ghost use Rattle.plc_outside.specs.HonestFiles.{HonestlyStored};

    ghost Value = { HonestlyStored };

    ghost view = { λ s. record {
      files = entries_of s.files.items;
      taken = s.taken;
      given = s.given;
    } };
}

impl HonestFiles {
    /// Files under these names; of two entries of one name the first counts. It takes no memory.
    pub fn new(alloc: Global, files: Vec<(String, Vec<u8>)>) -> HonestFiles
        ensures { result ≡ record { files = entries_of files.items; taken = 0; given = [] } }
    {
        HonestFiles {
            alloc,
            files,
            taken: 0,
            given: Readings::new(alloc),
        }
    }
}

/// The bytes under a name.
fn bytes_of<'a>(files: &'a [(String, Vec<u8>)], name: &str) -> &'a [u8]
    ensures { result.now ≡ bytes_of (entries_of files.now) name.now }
{
    match find(files, name) {
        Some(bytes) => bytes,
        None => &[],
    }
}

impl Files for HonestFiles {
    ghost known = { known_of };

    fn read(&mut self, name: &str, max: usize) -> Result<Vec<u8>, FileFault>
        ensures content { (other : List ℕ) →
            Some (bytes_of self.new.files other) ≡ Some (bytes_of self.old.files other) }
        ensures others { (other : List ℕ) → other ≢ name.now → no_faults other ≡ no_faults other }
        ensures cause { ReadHasCause (no_faults name.now) (no_faults name.now) self.new.taken max result }
        ensures told { AgreesWith (Some (bytes_of self.old.files name.now)) max result }
        ensures given { NotesReading self.old.given self.new.given name.now result }

        // Each answer, and the files after it.
        ensures answer { Answers (Some (bytes_of self.old.files name.now)) max result }
        ensures after { IsAfterHonestRead self.old self.new name.now result }
    {
        let bytes = bytes_of(&self.files, name);
        self.taken = bytes.len();
        if bytes.len() > max {
            return Err(FileFault::TooLong);
        }
        self.given.note(name, Vec::from_slice(self.alloc, bytes)?)
    }
}
