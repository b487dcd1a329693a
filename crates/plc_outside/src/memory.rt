// Files that lie in memory, for tests and for callers that have the bytes already. Every answer is
// pinned: which calls fail is given beforehand, so a caller's handling of a fault can be tried at
// each of its calls.
ghost use Rattle.std.specs.Prelude.{◌≡◌, ◌≢◌, [], ℕ, List, None, if◌then◌else◌, option_map};
ghost use Rattle.plc_outside.specs.Counts.{is_failing};
ghost use Rattle.plc_outside.specs.Outside.{ReadHasCause, AgreesWith, NotesReading};
ghost use Rattle.plc_outside.specs.Failures.{times};
ghost use Rattle.plc_outside.specs.StoredFiles.{entries_of, content_of, found, Answers, IsAfterRead};

use crate::failures::FailedReads;
use crate::files::{FileFault, Files};
use crate::readings::Readings;
use std::alloc::Global;
use std::marker::Model;

/// Names with bytes, of which some calls of `read` fail.
///
/// The read of a name that it lacks fails too. Each read that fails adds its name to a list, and
/// answers `Memory` where that list cannot grow.
#[derive(Drop)]
pub struct MemFiles {
    alloc: Global,
    files: Vec<(String, Vec<u8>)>,
    failing: Vec<u64>,
    calls: u64,
    failed: FailedReads,
    taken: usize,
    given: Readings,
}

impl Model for MemFiles {
    ghost use Rattle.plc_outside.specs.StoredFiles.{StoredFiles, entries_of};

    ghost Value = { StoredFiles };

    ghost view = { λ s. record {
      files = entries_of s.files.items;
      failing = s.failing.items;
      calls = s.calls;
      failed = s.failed;
      taken = s.taken;
      given = s.given;
    } };
}

impl MemFiles {
    /// Files under these names; of two entries of one name the first counts. The calls of `read`
    /// are counted from 1, and those in `failing` fail. It takes no memory.
    pub fn new(alloc: Global, files: Vec<(String, Vec<u8>)>, failing: Vec<u64>) -> MemFiles
        ensures { result ≡ record {
          files = entries_of files.items;
          failing = failing.items;
          calls = 0;
          failed = [];
          taken = 0;
          given = [];
        } }
    {
        MemFiles {
            alloc,
            files,
            failing,
            calls: 0,
            failed: FailedReads::new(alloc),
            taken: 0,
            given: Readings::new(alloc),
        }
    }
}

/// The bytes of the first entry of the name.
pub(crate) fn find<'a>(files: &'a [(String, Vec<u8>)], name: &str) -> Option<&'a Vec<u8>>
    ensures { option_map (λ v. v.now.items) result ≡ content_of (entries_of files.now) name.now }
{
    for entry in files {
        if entry.0.as_str() == name {
            return Some(&entry.1);
        }
    }
    None
}

/// The bytes that a call finds, or `None` where it is to fail or the name is absent.
fn found<'a>(
    files: &'a [(String, Vec<u8>)],
    name: &str,
    failing: &[u64],
    call: u64,
) -> Option<&'a Vec<u8>>
    ensures { option_map (λ v. v.now.items) result
        ≡ (if is_failing failing.now call then None else content_of (entries_of files.now) name.now) }
{
    if failing.contains(&call) {
        return None;
    }
    find(files, name)
}

impl Files for MemFiles {
    ghost known = { λ s. record {
      content = λ name. content_of s.files name;
      faults = λ name. times s.failed name;
      taken = s.taken;
      given = s.given;
    } };

    fn read(&mut self, name: &str, max: usize) -> Result<Vec<u8>, FileFault>
        ensures content { (other : List ℕ) → content_of self.new.files other ≡ content_of self.old.files other }
        ensures others { (other : List ℕ) → other ≢ name.now →
            times self.new.failed other ≡ times self.old.failed other }
        ensures cause { ReadHasCause (times self.old.failed name.now) (times self.new.failed name.now)
            self.new.taken max result }
        ensures told { AgreesWith (content_of self.old.files name.now) max result }
        ensures given { NotesReading self.old.given self.new.given name.now result }

        // Each answer, and the files after it.
        ensures answer { Answers (found self.old name.now) max result }
        ensures after { IsAfterRead self.old self.new name.now result }
    {
        self.taken = 0;
        self.calls = self.calls.saturating_add(1);
        match found(&self.files, name, &self.failing, self.calls) {
            None => Err(self.failed.note(name)),
            Some(bytes) => {
                self.taken = bytes.len();
                if bytes.len() > max {
                    return Err(FileFault::TooLong);
                }
                self.given.note(name, Vec::from_slice(self.alloc, bytes)?)
            }
        }
    }
}
