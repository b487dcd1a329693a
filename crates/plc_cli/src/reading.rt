// The files among the words are read whole before anything is judged, in the order of the words, so
// the first read that gives no bytes is the answer. What is answered to the bytes isn't known here.
ghost use Rattle.std.specs.Prelude.{◌≡◌, ◌≢◌, ℕ, List, IfOk};
ghost use Rattle.plc_cli.specs.Reads.{FilesAreKept, IsContentOf, AreContentsOf};

use crate::answer::Answer;
use crate::status::UNREAD;
use plc_answers::{read_failed_text, read_too_long_text};
use plc_base::{LARGEST_FILE, NoMemory};
use plc_outside::{FileFault, Files};
use std::alloc::Global;

/// What a read came to.
#[derive(Drop)]
pub enum Content {
    /// The bytes of the file.
    Read(Vec<u8>),
    /// The answer to a read that failed, or found too many bytes.
    Unread(Answer),
}

/// What two reads came to.
#[derive(Drop)]
pub enum Contents {
    /// The bytes of the files.
    Read(Vec<u8>, Vec<u8>),
    /// The answer to the first read that failed, or found too many bytes.
    Unread(Answer),
}

/// The bytes of a file, at most so many, or the answer where they couldn't be read. The one error is that memory runs
/// out.
pub fn read<F: Files>(
    alloc: Global,
    files: &mut F,
    name: &str,
    most: usize,
) -> Result<Content, NoMemory>
    ensures kept { FilesAreKept (F.known files.old) (F.known files.new) }
    ensures others { (other : List ℕ) → other ≢ name.now →
        (F.known files.new).faults other ≡ (F.known files.old).faults other }
    ensures read { IfOk result (IsContentOf (F.known files.old) (F.known files.new) name.now most) }
{
    match files.read(name, most) {
        Ok(bytes) => Ok(Content::Read(bytes)),
        Err(FileFault::Failed) => Ok(Content::Unread(Answer {
            status: UNREAD,
            text: read_failed_text(alloc)?,
        })),
        Err(FileFault::TooLong) => Ok(Content::Unread(Answer {
            status: UNREAD,
            text: read_too_long_text(alloc)?,
        })),
        Err(FileFault::Memory) => Err(NoMemory),
    }
}

/// The bytes of two files, the second of at most so many, or the answer where they couldn't be read. The one error is
/// that memory runs out.
pub fn read_both<F: Files>(
    alloc: Global,
    files: &mut F,
    first: &str,
    second: &str,
    most: usize,
) -> Result<Contents, NoMemory>
    ensures kept { FilesAreKept (F.known files.old) (F.known files.new) }
    ensures read { IfOk result (AreContentsOf (F.known files.old) (F.known files.new) first.now second.now most) }
{
    let bytes = match read(alloc, files, first, LARGEST_FILE)? {
        Content::Read(bytes) => bytes,
        Content::Unread(answer) => return Ok(Contents::Unread(answer)),
    };
    match read(alloc, files, second, most)? {
        Content::Read(more) => Ok(Contents::Read(bytes, more)),
        Content::Unread(answer) => Ok(Contents::Unread(answer)),
    }
}
