// One way through the program: words, reads, answer, write. Nothing is written before the whole text
// is there, so running out of memory before that leaves the output as it was.
ghost use Rattle.std.specs.Prelude.{◌≡◌, false, IfOk, map, string_bytes};
ghost use Rattle.plc_cli.specs.Requests.{asks_for_files, request_of};
ghost use Rattle.plc_cli.specs.Reads.{FilesAreKept};
ghost use Rattle.plc_cli.specs.Answer.{IsDueFor};
ghost use Rattle.plc_cli.specs.Program.{Runs};

use crate::answer::{Answer, words_refusal};
use crate::asking::{answer_file, answer_pair};
use crate::certifying::ForCertificate;
use crate::checking::ForVerdict;
use crate::locating::ForLocations;
use crate::printing::ForText;
use crate::replaying::replay_file;
use crate::sampling::judge_sample;
use crate::status::{NO_MEMORY, UNWRITTEN};
use crate::suggesting::ForSuggestions;
use crate::verifying::ForValidity;
use crate::words::{Request, request_of};
use plc_base::{LARGEST_CERTIFICATE, LARGEST_FILE, NoMemory};
use plc_outside::{Files, Sink, SinkFault, write_text};
use plc_reclaim::Reclaimer;
use std::alloc::Global;

/// The answer to the words.
fn answer_to<F: Files>(
    alloc: Global,
    words: &[String],
    files: &mut F,
    reclaimers: &mut [Box<dyn Reclaimer>],
) -> Result<Answer, NoMemory>
    ensures kept { FilesAreKept (F.known files.old) (F.known files.new) }
    ensures untouched { asks_for_files (request_of (map named reclaimers.old) (map string_bytes words.now)) ≡ false
        → F.known files.new ≡ F.known files.old }
    ensures due { IfOk result (λ answer. IsDueFor (map meanings reclaimers.old)
        (request_of (map named reclaimers.old) (map string_bytes words.now))
        (F.known files.old) (F.known files.new) answer.status answer.text.items) }
{
    match request_of(reclaimers, words) {
        Some(Request::Check { file }) => answer_file(alloc, files, file, ForVerdict),
        Some(Request::Certify { file }) => answer_file(alloc, files, file, ForCertificate),
        Some(Request::Print { file }) => answer_file(alloc, files, file, ForText),
        Some(Request::Verify { file, certificate }) => {
            answer_pair(
                alloc,
                files,
                file,
                certificate,
                LARGEST_CERTIFICATE,
                &ForValidity,
            )
        }
        Some(
            Request::Replay {
                file,
                schedule,
                reclaimer,
            },
        ) => replay_file(alloc, files, file, schedule, &mut reclaimers[reclaimer]),
        Some(Request::Sample { copies, line }) => judge_sample(alloc, copies, line),
        Some(Request::Suggest { file }) => answer_file(alloc, files, file, ForSuggestions),
        Some(Request::Locate { file, claims }) => {
            answer_pair(alloc, files, file, claims, LARGEST_FILE, &ForLocations)
        }
        None => words_refusal(alloc),
    }
}

/// All that the program does: the status, after the text was written.
///
/// `words` are those after the program's name, and `reclaimers` those that a replay may ask for by name;
/// of those of one name the first counts, and all are dropped at the end. The statuses and the causes of
/// each are in docs/formats.md; what a 0 of `check`, of `suggest` and of `locate` means, what `replay` rules out and
/// when the contents of the files alone decide stands at the head of this crate, and in docs/runs.md.
pub fn run<F: Files, S: Sink>(
    alloc: Global,
    words: &[String],
    files: &mut F,
    out: &mut S,
    mut reclaimers: Vec<Box<dyn Reclaimer>>,
) -> u8
    ensures { Runs (map meanings reclaimers.items)
        (request_of (map named reclaimers.items) (map string_bytes words.now))
        (F.known files.old) (F.known files.new) (S.known out.old) (S.known out.new) result }
{
    match answer_to(alloc, words, files, &mut reclaimers) {
        Err(NoMemory) => NO_MEMORY,
        Ok(answer) => match write_text(out, &answer.text) {
            Ok(()) => answer.status,
            Err(SinkFault::Failed) => UNWRITTEN,
            Err(SinkFault::Memory) => NO_MEMORY,
        },
    }
}
