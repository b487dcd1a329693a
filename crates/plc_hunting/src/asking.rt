// One way through the program: words, read, hunt, write. A reclaimer is made twice, once for the runs that are drawn
// and once for the replay of the schedule that is found; both are made in the call that hands them on, since no
// function may hand out a value of a trait.
ghost use Rattle.std.specs.Prelude.{◌≡◌, ◌≤◌, None, IfOk, length, map, string_bytes};
ghost use Rattle.plc_base.specs.FileSizes.{largest_file};
ghost use Rattle.plc_answers.specs.Refusals.{words_refused_text};
ghost use Rattle.plc_cli.specs.Answer.{Ends};
ghost use Rattle.plc_cli.specs.Reads.{FilesAreKept, IsDueForFile};
ghost use Rattle.plc_cli.specs.Statuses.{bad_words, unread};
ghost use Rattle.plc_hunting.specs.Program.{Hunts, IsDueFor, IsHunt, IsPut, outputs};
ghost use Rattle.plc_hunting.specs.Racing.{IsHuntUnder};
ghost use Rattle.plc_hunting.specs.Requests.{request_of};
ghost use Rattle.plc_hunting.specs.Views.{freeing_view};

use crate::hunting::{Hunted, NOTHING, hunt_freely, hunt_under};
use crate::words::{Freeing, Request, request_of};
use plc_base::{LARGEST_FILE, NoMemory};
use plc_cli::{
    Answer, ByList, Content, Epoch, Files, Hazard, Leak, NO_MEMORY, Reclaimer, Sink, SinkFault,
    UNWRITTEN, read, words_refusal, write_text,
};
use plc_explore::Frees;
use std::alloc::Global;

/// A hunt with these two values of a reclaimer.
fn hunt_with(
    alloc: Global,
    bytes: &[u8],
    seed: u32,
    drawing: Box<dyn Reclaimer>,
    mut judging: Box<dyn Reclaimer>,
) -> Result<Hunted, NoMemory>
    requires { length bytes.now ≤ largest_file }
    ensures { IfOk result (λ h. IsHuntUnder (meanings judging) bytes.now h.status h.text.items) }
{
    hunt_under(alloc, bytes, Frees::Picked(drawing), seed, &mut judging)
}

// The same with two new values of this reclaimer. A type parameter can't stand for it: the two become values of a
// trait, and such a value is made of a type that is known.
macro_rules! hunt_with_two {
    ($reclaimer:ident, $alloc:expr, $bytes:expr, $seed:expr) => {{
        let drawing = Box::new($alloc, $reclaimer::new($alloc))?;
        let judging = Box::new($alloc, $reclaimer::new($alloc))?;
        hunt_with($alloc, $bytes, $seed, drawing, judging)
    }};
}

/// The answer to the bytes of a file.
fn hunt_bytes(alloc: Global, bytes: &[u8], freeing: Freeing, seed: u32) -> Result<Hunted, NoMemory>
    requires { length bytes.now ≤ largest_file }
    ensures { IfOk result (λ h. IsHunt (freeing_view freeing) bytes.now h.status h.text.items) }
{
    match freeing {
        Freeing::Leak => hunt_with_two!(Leak, alloc, bytes, seed),
        Freeing::List => hunt_with_two!(ByList, alloc, bytes, seed),
        Freeing::Hazard => hunt_with_two!(Hazard, alloc, bytes, seed),
        Freeing::Epoch => hunt_with_two!(Epoch, alloc, bytes, seed),
        Freeing::Any => hunt_freely(alloc, bytes, seed),
    }
}

/// What keeps from a hunt.
fn kept_from(alloc: Global, answer: Answer) -> Hunted
    ensures status { result.status ≡ answer.status }
    ensures text { result.text.items ≡ answer.text.items }
{
    Hunted {
        status: answer.status,
        text: answer.text,
        said: Vec::new(alloc),
    }
}

/// The answer to words of no listed form.
fn wrong_words(alloc: Global) -> Result<Hunted, NoMemory>
    ensures { IfOk result (λ h. (h.status ≡ bad_words) × (h.text.items ≡ words_refused_text)) }
{
    Ok(kept_from(alloc, words_refusal(alloc)?))
}

/// The answer to a file.
fn hunt_file<F: Files>(alloc: Global, files: &mut F, request: Request) -> Result<Hunted, NoMemory>
    ensures kept { FilesAreKept (F.known files.old) (F.known files.new) }
    ensures due { IfOk result (λ h. IsDueForFile (F.known files.old) (F.known files.new) request.entry.file.now
        (λ bytes. IsHunt (freeing_view request.entry.freeing) bytes h.status h.text.items) h.status h.text.items) }
{
    match read(alloc, files, request.file, LARGEST_FILE)? {
        Content::Read(bytes) => hunt_bytes(alloc, &bytes, request.freeing, request.seed),
        Content::Unread(answer) => Ok(kept_from(alloc, answer)),
    }
}

/// The answer to the words.
fn answer_to<F: Files>(alloc: Global, words: &[String], files: &mut F) -> Result<Hunted, NoMemory>
    ensures kept { FilesAreKept (F.known files.old) (F.known files.new) }
    ensures untouched { request_of (map string_bytes words.now) ≡ None → F.known files.new ≡ F.known files.old }
    ensures due { IfOk result (λ h. IsDueFor (request_of (map string_bytes words.now))
        (F.known files.old) (F.known files.new) h.status h.text.items) }
{
    match request_of(words) {
        Some(request) => hunt_file(alloc, files, request),
        None => wrong_words(alloc),
    }
}

/// Says what is said beside an answer. What can't be said changes no status.
fn say<T: Sink>(said: &mut T, hunted: &Hunted)
    ensures { (T.known said.old).faults ≤ (T.known said.new).faults }
{
    let _ = write_text(said, &hunted.said);
}

/// The status, after the text was written.
fn put<S: Sink>(out: &mut S, hunted: &Hunted) -> u8
    requires { hunted.now.status ≤ unread }
    ensures ends { Ends hunted.now.status hunted.now.text.items (S.known out.old) (S.known out.new) result }
    ensures kept { (S.known out.old).faults ≤ (S.known out.new).faults }
{
    match write_text(out, &hunted.text) {
        Ok(()) => hunted.status,
        Err(SinkFault::Failed) => UNWRITTEN,
        Err(SinkFault::Memory) => NO_MEMORY,
    }
}

/// The status, after an answer was written, and what is said beside it, or what keeps from one.
fn put_apart<S: Sink, T: Sink>(out: &mut S, said: &mut T, hunted: &Hunted) -> u8
    requires { hunted.now.status ≤ unread }
    ensures put { IsPut hunted.now.status hunted.now.text.items
        (outputs (S.known out.old) (T.known said.old)) (outputs (S.known out.new) (T.known said.new)) result }
    ensures kept { (S.known out.old).faults ≤ (S.known out.new).faults }
    ensures said_kept { (T.known said.old).faults ≤ (T.known said.new).faults }
{
    if hunted.status > NOTHING {
        return put(said, hunted);
    }
    say(said, hunted);
    put(out, hunted)
}

/// All that the program does: the status, after the schedule or the run was written to `out`, or that no race was met.
/// `words` are those after the program's name. What is said beside such an answer goes to `said`; what can't be said
/// changes no status. Where the words are of no listed form, or the file can't be read or is refused, that is written
/// to `said`, and nothing to `out`.
pub fn hunt<F: Files, S: Sink, T: Sink>(
    alloc: Global,
    words: &[String],
    files: &mut F,
    out: &mut S,
    said: &mut T,
) -> u8
    ensures { Hunts (request_of (map string_bytes words.now)) (F.known files.old) (F.known files.new)
        (outputs (S.known out.old) (T.known said.old)) (outputs (S.known out.new) (T.known said.new)) result }
{
    match answer_to(alloc, words, files) {
        Err(NoMemory) => NO_MEMORY,
        Ok(hunted) => put_apart(out, said, &hunted),
    }
}
