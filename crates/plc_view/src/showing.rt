// One way through the program: words, reads, page, write. What can't be read or asked is told as `plc` tells it, and
// goes to a sink of its own, so that a page's file never holds it. Nothing is written before the whole text is there.
ghost use Rattle.std.specs.Prelude.{◌≡◌, ◌≤◌, None, IfOk, length, map, string_bytes};
ghost use Rattle.plc_base.specs.FileSizes.{largest_file, largest_schedule};
ghost use Rattle.plc_cli.specs.Answer.{Ends};
ghost use Rattle.plc_cli.specs.Reads.{FilesAreKept, IsDueForFile, IsDueForPair};
ghost use Rattle.plc_cli.specs.Statuses.{unread};
ghost use Rattle.plc_page.specs.Pages.{HasCheckStatus, ShowsCheck};
ghost use Rattle.plc_trace.specs.Pages.{ShowsReplay};
ghost use Rattle.plc_view.specs.Requests.{request_of, title_of};
ghost use Rattle.plc_view.specs.Showing.{IsDueFor, IsPut, Shows, outputs, page};

use crate::words::{Request, request_of};
use plc_base::{LARGEST_FILE, LARGEST_SCHEDULE, NoMemory};
use plc_cli::{
    Answer, Content, Contents, Files, NO_MEMORY, REFUSED, Reclaimer, Sink, SinkFault, UNWRITTEN,
    read, read_both, words_refusal, write_text,
};
use plc_page::{Page, file_page, plain_lines};
use plc_trace::replay_page;
use std::alloc::Global;

/// The answer that a page is.
fn answer_of(page: Page) -> Answer
    ensures status { result.status ≡ page.status }
    ensures text { result.text.items ≡ page.bytes }
{
    Answer {
        status: page.status,
        text: page.bytes.into_vec(),
    }
}

/// The page of a file.
fn show_file<F: Files>(alloc: Global, files: &mut F, file: &str) -> Result<Answer, NoMemory>
    ensures kept { FilesAreKept (F.known files.old) (F.known files.new) }
    ensures due { IfOk result (λ answer. IsDueForFile (F.known files.old) (F.known files.new) file.now
        (λ bytes. ShowsCheck file.now bytes (page answer.status answer.text.items))
        answer.status answer.text.items) }
{
    match read(alloc, files, file, LARGEST_FILE)? {
        Content::Read(bytes) => file_answer(alloc, file, &bytes),
        Content::Unread(answer) => Ok(answer),
    }
}

/// The page of a file, by its bytes.
fn file_answer(alloc: Global, file: &str, bytes: &[u8]) -> Result<Answer, NoMemory>
    requires { length bytes.now ≤ largest_file }
    ensures { IfOk result (λ answer. ShowsCheck file.now bytes.now (page answer.status answer.text.items)) }
{
    Ok(answer_of(file_page(alloc, file.as_bytes(), bytes)?))
}

/// A file in lines for editors, by its bytes.
fn lines_answer(alloc: Global, file: &str, bytes: &[u8]) -> Result<Answer, NoMemory>
    requires { length bytes.now ≤ largest_file }
    ensures { IfOk result (λ answer. HasCheckStatus bytes.now answer.status) }
{
    let lines = plain_lines(alloc, file.as_bytes(), bytes)?;
    Ok(Answer {
        status: lines.status,
        text: lines.text,
    })
}

/// Lines for editors.
fn show_lines<F: Files>(alloc: Global, files: &mut F, file: &str) -> Result<Answer, NoMemory>
    ensures kept { FilesAreKept (F.known files.old) (F.known files.new) }
    ensures due { IfOk result (λ answer. IsDueForFile (F.known files.old) (F.known files.new) file.now
        (λ bytes. HasCheckStatus bytes answer.status) answer.status answer.text.items) }
{
    match read(alloc, files, file, LARGEST_FILE)? {
        Content::Read(bytes) => lines_answer(alloc, file, &bytes),
        Content::Unread(answer) => Ok(answer),
    }
}

/// The words with which a page of a run is asked for.
#[derive(Clone, Copy)]
struct Words<'a> {
    file: &'a str,
    schedule: &'a str,
    name: &'a str,
}

/// The title of the page of a run: its words.
fn title_of(alloc: Global, words: Words) -> Result<Vec<u8>, NoMemory>
    ensures { IfOk result (λ title. title.items
        ≡ title_of words.entry.file.now words.entry.schedule.now words.entry.name.now) }
{
    let mut title = Vec::from_slice(alloc, words.file.as_bytes())?;
    title.extend_from_slice(b" ")?;
    title.extend_from_slice(words.schedule.as_bytes())?;
    title.extend_from_slice(b" ")?;
    title.extend_from_slice(words.name.as_bytes())?;
    Ok(title)
}

/// The page of a run, by the bytes of its files.
fn run_answer(
    alloc: Global,
    words: Words,
    bytes: &[u8],
    second: &[u8],
    reclaimer: &mut Box<dyn Reclaimer>,
) -> Result<Answer, NoMemory>
    requires { length bytes.now ≤ largest_file }
    ensures { IfOk result (λ answer. ShowsReplay
        (title_of words.entry.file.now words.entry.schedule.now words.entry.name.now)
        (meanings reclaimer.old) bytes.now second.now (page answer.status answer.text.items)) }
{
    let title = title_of(alloc, words)?;
    let page = replay_page(alloc, &title, bytes, second, reclaimer)?;
    Ok(answer_of(page))
}

/// The page of a run under this reclaimer.
fn show_run<F: Files>(
    alloc: Global,
    files: &mut F,
    words: Words,
    reclaimer: &mut Box<dyn Reclaimer>,
) -> Result<Answer, NoMemory>
    ensures kept { FilesAreKept (F.known files.old) (F.known files.new) }
    ensures due { IfOk result (λ answer. IsDueForPair (F.known files.old) (F.known files.new)
        words.entry.file.now words.entry.schedule.now largest_schedule
        (λ bytes second. ShowsReplay (title_of words.entry.file.now words.entry.schedule.now words.entry.name.now)
        (meanings reclaimer.old) bytes second (page answer.status answer.text.items))
        answer.status answer.text.items) }
{
    match read_both(alloc, files, words.file, words.schedule, LARGEST_SCHEDULE)? {
        Contents::Read(bytes, second) => run_answer(alloc, words, &bytes, &second, reclaimer),
        Contents::Unread(answer) => Ok(answer),
    }
}

/// The answer to the words.
fn answer_to<F: Files>(
    alloc: Global,
    words: &[String],
    files: &mut F,
    reclaimers: &mut [Box<dyn Reclaimer>],
) -> Result<Answer, NoMemory>
    ensures kept { FilesAreKept (F.known files.old) (F.known files.new) }
    ensures untouched { request_of (map named reclaimers.old) (map string_bytes words.now) ≡ None
        → F.known files.new ≡ F.known files.old }
    ensures due { IfOk result (λ answer. IsDueFor (map meanings reclaimers.old)
        (request_of (map named reclaimers.old) (map string_bytes words.now))
        (F.known files.old) (F.known files.new) answer.status answer.text.items) }
{
    match request_of(reclaimers, words) {
        Some(Request::Page { file }) => show_file(alloc, files, file),
        Some(Request::Lines { file }) => show_lines(alloc, files, file),
        Some(
            Request::Run {
                file,
                schedule,
                name,
                reclaimer,
            },
        ) => {
            let words = Words {
                file,
                schedule,
                name,
            };
            show_run(alloc, files, words, &mut reclaimers[reclaimer])
        }
        None => words_refusal(alloc),
    }
}

/// The status, after an answer was written.
fn put<S: Sink>(out: &mut S, answer: &Answer) -> u8
    requires { answer.now.status ≤ unread }
    ensures ends { Ends answer.now.status answer.now.text.items (S.known out.old) (S.known out.new) result }
    ensures kept { (S.known out.old).faults ≤ (S.known out.new).faults }
{
    match write_text(out, &answer.text) {
        Ok(()) => answer.status,
        Err(SinkFault::Failed) => UNWRITTEN,
        Err(SinkFault::Memory) => NO_MEMORY,
    }
}

/// The status, after an answer was written, or what keeps from one.
fn put_apart<S: Sink, T: Sink>(out: &mut S, causes: &mut T, answer: &Answer) -> u8
    requires { answer.now.status ≤ unread }
    ensures put { IsPut answer.now.status answer.now.text.items
        (outputs (S.known out.old) (T.known causes.old)) (outputs (S.known out.new) (T.known causes.new)) result }
    ensures kept { (S.known out.old).faults ≤ (S.known out.new).faults }
    ensures causes_kept { (T.known causes.old).faults ≤ (T.known causes.new).faults }
{
    if answer.status > REFUSED {
        put(causes, answer)
    } else {
        put(out, answer)
    }
}

/// All that the program does with these reclaimers, of which those of one name the first counts: the status, after the
/// page or the lines were written.
pub(crate) fn show_under<F: Files, S: Sink, T: Sink>(
    alloc: Global,
    words: &[String],
    files: &mut F,
    out: &mut S,
    causes: &mut T,
    mut reclaimers: Vec<Box<dyn Reclaimer>>,
) -> u8
    ensures { Shows (map meanings reclaimers.items)
        (request_of (map named reclaimers.items) (map string_bytes words.now))
        (F.known files.old) (F.known files.new)
        (outputs (S.known out.old) (T.known causes.old)) (outputs (S.known out.new) (T.known causes.new)) result }
{
    match answer_to(alloc, words, files, &mut reclaimers) {
        Err(NoMemory) => NO_MEMORY,
        Ok(answer) => put_apart(out, causes, &answer),
    }
}
