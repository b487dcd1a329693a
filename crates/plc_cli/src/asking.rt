// What is asked of a file, and the way from a question to its answer: the file is read, its bytes are loaded, and
// where they are refused that is the answer. So a question says no more than what is due for a file that was loaded.
// `replay` loads its file itself, since a reclaimer is lent to it meanwhile.
ghost use Rattle.std.specs.Prelude.{◌≡◌, ◌≤◌, IfOk, length};
ghost use Rattle.plc_base.specs.FileSizes.{largest_file};
ghost use Rattle.plc_vocabulary.specs.Fit.{Fits};
ghost use Rattle.plc_check.specs.Answered.{judged_of};
ghost use Rattle.plc_cli.specs.Files.{IsAnsweredFile};
ghost use Rattle.plc_cli.specs.Reads.{FilesAreKept, IsDueForFile, IsDueForPair};

use crate::answer::{Answer, refusal};
use crate::reading::{Content, Contents, read, read_both};
use plc_base::{LARGEST_FILE, NoMemory};
use plc_check::{Judged, load};
use plc_outside::Files;
use std::alloc::Global;

/// What is asked of a file.
pub(crate) trait Question: Drop {
    ghost use Rattle.std.specs.Prelude.{ℕ, List};
    ghost use Rattle.plc_check.specs.declared.judged.Judged.{Judged as AJudged};

    /// Whether a status and a text are due for a file that was loaded.
    ghost due: { Self → AJudged → ℕ → List ℕ → Type 0 };

    /// The answer to a file that was loaded.
    fn answer(&self, alloc: Global, judged: &Judged) -> Result<Answer, NoMemory>
        requires { Fits judged.now.flow judged.now.unit_outline }
        ensures { IfOk result (λ answer. due self.now judged.now answer.status answer.text.items) };
}

/// What is asked of a file and of a second one that says something of it.
pub(crate) trait PairQuestion {
    ghost use Rattle.std.specs.Prelude.{ℕ, List};
    ghost use Rattle.plc_check.specs.declared.judged.Judged.{Judged as AJudged};

    /// The most bytes that the second file may have.
    ghost limit: { Self → ℕ };

    /// Whether a status and a text are due for a file that was loaded and the bytes of the second.
    ghost due: { Self → AJudged → List ℕ → ℕ → List ℕ → Type 0 };

    /// The answer to a file that was loaded and the bytes of the second.
    fn answer(&self, alloc: Global, judged: Judged, second: &[u8]) -> Result<Answer, NoMemory>
        requires fits { Fits judged.flow judged.unit_outline }
        requires short { length second.now ≤ limit self.now }
        ensures { IfOk result (λ answer. due self.now judged second.now answer.status answer.text.items) };
}

/// The answer to a file that was loaded.
fn answer_loaded<Q: Question>(
    alloc: Global,
    judged: Judged,
    question: &Q,
) -> Result<Answer, NoMemory>
    requires { Fits judged.flow judged.unit_outline }
    ensures { IfOk result (λ answer. Q.due question.now judged answer.status answer.text.items) }
{
    let answer = question.answer(alloc, &judged);
    drop(judged);
    answer
}

/// The answer to the bytes of a file.
pub(crate) fn answer_bytes<Q: Question>(
    alloc: Global,
    bytes: &[u8],
    question: &Q,
) -> Result<Answer, NoMemory>
    requires { length bytes.now ≤ largest_file }
    ensures { IfOk result (λ answer.
        IsAnsweredFile (λ u. Q.due question.now (judged_of u)) bytes.now answer.status answer.text.items) }
{
    match load(alloc, bytes) {
        Ok(judged) => answer_loaded(alloc, judged, question),
        Err(fault) => refusal(alloc, &fault),
    }
}

/// The answer to a command with one file.
pub(crate) fn answer_file<F: Files, Q: Question>(
    alloc: Global,
    files: &mut F,
    file: &str,
    question: Q,
) -> Result<Answer, NoMemory>
    ensures kept { FilesAreKept (F.known files.old) (F.known files.new) }
    ensures due { IfOk result (λ answer. IsDueForFile (F.known files.old) (F.known files.new) file.now
        (λ bytes. IsAnsweredFile (λ u. Q.due question (judged_of u)) bytes answer.status answer.text.items)
        answer.status answer.text.items) }
{
    match read(alloc, files, file, LARGEST_FILE)? {
        Content::Read(bytes) => answer_bytes(alloc, &bytes, &question),
        Content::Unread(answer) => Ok(answer),
    }
}

/// The answer to the bytes of two files; the first file's refusals go first.
fn answer_both<Q: PairQuestion>(
    alloc: Global,
    bytes: &[u8],
    second: &[u8],
    question: &Q,
) -> Result<Answer, NoMemory>
    requires bytes { length bytes.now ≤ largest_file }
    requires second { length second.now ≤ Q.limit question.now }
    ensures { IfOk result (λ answer. IsAnsweredFile (λ u. Q.due question.now (judged_of u) second.now)
        bytes.now answer.status answer.text.items) }
{
    match load(alloc, bytes) {
        Ok(judged) => question.answer(alloc, judged, second),
        Err(fault) => refusal(alloc, &fault),
    }
}

/// The answer to a command with two files, of which the second is read up to the question's limit.
pub(crate) fn answer_pair<F: Files, Q: PairQuestion>(
    alloc: Global,
    files: &mut F,
    file: &str,
    second: &str,
    most: usize,
    question: &Q,
) -> Result<Answer, NoMemory>
    requires { most ≡ Q.limit question.now }
    ensures kept { FilesAreKept (F.known files.old) (F.known files.new) }
    ensures due { IfOk result (λ answer. IsDueForPair (F.known files.old) (F.known files.new)
        file.now second.now (Q.limit question.now)
        (λ bytes more. IsAnsweredFile (λ u. Q.due question.now (judged_of u) more)
        bytes answer.status answer.text.items) answer.status answer.text.items) }
{
    match read_both(alloc, files, file, second, most)? {
        Contents::Read(bytes, more) => answer_both(alloc, &bytes, &more, question),
        Contents::Unread(answer) => Ok(answer),
    }
}
