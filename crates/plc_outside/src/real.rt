// The edge to the system: its files, and any writer of std. No contract can say what lies in a file,
// or what becomes of the bytes that are written. What is proved is that each fault has a cause, and
// that a read takes at most one byte more than was asked for. This module alone is trusted to do what
// it says.
ghost use Rattle.std.specs.Prelude.{◌≡◌, ◌≢◌, ◌≤◌, ◌<◌, ◌+◌};
ghost use Rattle.std.specs.Prelude.{◌++◌, ℕ, Some, None, IfSome};
ghost use Rattle.std.specs.Prelude.{List, [], IfOk, IfErr, OnOk, OnErr, IsErrOf, length, take, drop};
ghost use Rattle.plc_outside.specs.Outside.{ReadHasCause, AgreesWith, NotesReading, Puts, CountsFault};
ghost use Rattle.plc_outside.specs.Failures.{times, NotesFailure};
ghost use Rattle.plc_outside.specs.Real.{known_of};

use crate::failures::FailedReads;
use crate::files::{FileFault, Files};
use crate::readings::Readings;
use crate::sinks::{Sink, SinkFault};
use crate::taken::Taken;
use std::alloc::Global;
use std::io::{Read, Write};
use std::marker::Model;
use std::{fs, rt};

/// How many bytes one call takes from the system at most.
const BUFFER: usize = 4096;

/// The files of the system, reached through the handle that `main` is given.
///
/// Proofs know no content of them. Where a file is not there, or the system answers an error, the read
/// answers `Failed` and adds the name to the list of failed reads. Where that list cannot grow, or
/// memory runs out for the bytes, it answers `Memory`. A read takes at most one byte more than was
/// asked for.
#[derive(Drop)]
pub struct RealFiles<R: rt::Files + Drop> {
    alloc: Global,
    host: R,
    failed: FailedReads,
    taken: usize,
    given: Readings,
}

impl<R: rt::Files + Drop> Model for RealFiles<R> {
    ghost use Rattle.plc_outside.specs.Real.{RealReads};

    ghost Value = { RealReads };

    ghost view = { λ s. record { failed = s.failed; taken = s.taken; given = s.given } };
}

impl<R: rt::Files + Drop> RealFiles<R> {
    /// The files that the handle reaches. It takes no memory.
    pub fn new(alloc: Global, host: R) -> RealFiles<R>
        ensures { result ≡ record { failed = []; taken = 0; given = [] } }
    {
        RealFiles {
            alloc,
            host,
            failed: FailedReads::new(alloc),
            taken: 0,
            given: Readings::new(alloc),
        }
    }
}

/// Why reading stopped before the end: an error of the system, or no memory for more bytes.
enum Stop {
    Error,
    Memory,
}

/// Reads the next piece of a file, of at most `most` bytes, and answers how many they were. Memory for
/// them is asked for first, so that no byte is read and then lost.
fn read_piece<R: Read>(file: &mut R, most: usize, bytes: &mut Vec<u8>) -> Result<usize, Stop>
    ensures bound { IfOk result (λ n. n ≤ most) }
    ensures count { IfOk result (λ n. length bytes.new.items ≡ length bytes.old.items + n) }
    ensures bytes { IfOk result (λ n. IfSome (R.remaining file.old) (λ left.
        (bytes.new.items ≡ bytes.old.items ++ take n left) × (R.remaining file.new ≡ Some (drop n left)))) }
    ensures end { IfOk result (λ n. n ≡ 0 → 0 < most → IfSome (R.remaining file.old) (λ left. left ≡ [])) }
    ensures err { OnErr result (bytes.new.items ≡ bytes.old.items) }
{
    let mut buffer = [0u8; BUFFER];
    let room = most.min(BUFFER);
    if bytes.reserve(room).is_err() {
        return Err(Stop::Memory);
    }
    match file.read(&mut buffer[..room]) {
        Ok(count) => {
            bytes.extend_from_slice(&buffer[..count]).unwrap();
            Ok(count)
        }
        Err(_) => Err(Stop::Error),
    }
}

/// Reads a file to its end, or only `max` + 1 bytes where it has more.
fn read_start<R: Read>(file: &mut R, max: usize, bytes: &mut Vec<u8>) -> Result<(), Stop>
    requires { bytes.old.items ≡ [] }
    ensures bound { length bytes.new.items ≤ max + 1 }
    ensures bytes { OnOk result (IfSome (R.remaining file.old) (λ left. bytes.new.items ≡ take (max + 1) left)) }
{
    while bytes.len() <= max {
        let most = (max - bytes.len()).saturating_add(1);
        if read_piece(file, most, bytes)? == 0 {
            return Ok(());
        }
    }
    Ok(())
}

/// Opens the file of a name and reads it to its end, or only `max` + 1 bytes where it has more.
fn read_file<R: rt::Files>(
    host: &R,
    name: &str,
    max: usize,
    bytes: &mut Vec<u8>,
) -> Result<(), Stop>
    requires { bytes.old.items ≡ [] }
    ensures { length bytes.new.items ≤ max + 1 }
{
    match fs::open(host, name) {
        Ok(mut file) => read_start(&mut file, max, bytes),
        Err(_) => Err(Stop::Error),
    }
}

/// The answer to a read of a name, which took these bytes and came to this end. A read that failed is
/// noted in `failed`, and one that gives its bytes in `given`.
fn answer(
    end: Result<(), Stop>,
    bytes: Vec<u8>,
    max: usize,
    name: &str,
    failed: &mut FailedReads,
    given: &mut Readings,
) -> Result<Vec<u8>, FileFault>
    requires { length bytes.items ≤ max + 1 }
    ensures others { (other : List ℕ) → other ≢ name.now → times failed.new other ≡ times failed.old other }
    ensures cause { ReadHasCause (times failed.old name.now) (times failed.new name.now)
        (length bytes.items) max result }
    ensures told { AgreesWith None max result }
    ensures given { NotesReading given.old given.new name.now result }
    ensures noted { NotesFailure failed.old failed.new name.now result }
    ensures whole { IfOk result (λ answered. length answered.items ≡ length bytes.items) }
    ensures long { IsErrOf result FileFault.TooLong → length bytes.items ≡ max + 1 }
{
    match end {
        Err(Stop::Error) => Err(failed.note(name)),
        Err(Stop::Memory) => Err(FileFault::Memory),
        Ok(()) if bytes.len() > max => Err(FileFault::TooLong),
        Ok(()) => given.note(name, bytes),
    }
}

impl<R: rt::Files + Drop> Files for RealFiles<R> {
    ghost known = { λ s. record {
      content = λ _. None;
      faults = λ name. times s.failed name;
      taken = s.taken;
      given = s.given;
    } };

    fn read(&mut self, name: &str, max: usize) -> Result<Vec<u8>, FileFault>
        ensures others { (other : List ℕ) → other ≢ name.now →
            times self.new.failed other ≡ times self.old.failed other }
        ensures cause { ReadHasCause (times self.old.failed name.now) (times self.new.failed name.now)
            self.new.taken max result }
        ensures told { AgreesWith None max result }
        ensures given { NotesReading self.old.given self.new.given name.now result }

        // The list of failed reads, and how much is taken.
        ensures noted { NotesFailure self.old.failed self.new.failed name.now result }
        ensures taken { self.new.taken ≤ max + 1 }
        ensures whole { IfOk result (λ bytes. length bytes.items ≡ self.new.taken) }
        ensures long { IsErrOf result FileFault.TooLong → self.new.taken ≡ max + 1 }
    {
        let mut bytes = Vec::new(self.alloc);
        let end = read_file(&self.host, name, max, &mut bytes);
        self.taken = bytes.len();
        answer(end, bytes, max, name, &mut self.failed, &mut self.given)
    }
}

/// A sink over any writer of std, such as the standard output.
///
/// Where the writer answers an error, or takes nothing of a piece that has bytes, the sink answers
/// `Failed` and counts a fault; the count stays at the last value of a `u64`. It never answers `Memory`.
#[derive(Drop)]
pub struct OutSink<W: Write + Drop> {
    out: W,
    faults: u64,
    // for proofs alone
    taken: Taken,
}

impl<W: Write + Drop> Model for OutSink<W> {
    ghost use Rattle.plc_outside.specs.Real.{RealWrites};

    ghost Value = { RealWrites };

    ghost view = { λ s. record { taken = s.taken.bytes; held = W.contents s.out; faults = s.faults } };
}

impl<W: Write + Drop> OutSink<W> {
    /// A sink that writes to this writer, which took nothing from it yet.
    pub fn new(out: W) -> OutSink<W>
        ensures { result ≡ record { taken = []; held = W.contents out; faults = 0 } }
    {
        OutSink {
            out,
            faults: 0,
            taken: Taken::none(),
        }
    }
}

impl<W: Write + Drop> Sink for OutSink<W> {
    ghost known = { known_of };

    fn put(&mut self, piece: &[u8]) -> Result<usize, SinkFault>
        ensures puts { Puts (known_of self.old) (known_of self.new) piece.now result }

        // Each fault is `Failed`, and counted.
        ensures fault { IfErr result (λ fault. fault ≡ SinkFault.Failed) }
        ensures counted { CountsFault self.old.faults self.new.faults result }
    {
        match self.out.write(piece) {
            Ok(count) if count > 0 || piece.is_empty() => {
                self.taken = self.taken.and(&&piece[..count]);
                Ok(count)
            }
            _ => {
                self.faults = self.faults.saturating_add(1);
                Err(SinkFault::Failed)
            }
        }
    }
}
