//! The command line: `run` does all that the program does. It takes the words, reads the files that
//! they name, and answers with a status and a text: the verdict on a file (`check`), its certificate
//! (`certify`), whether a certificate is valid for it (`verify`), its canonical text (`print`), what a
//! recorded schedule leads to (`replay`), the verdict on a file that is made (`sample`), the claims that
//! its steps lack (`suggest`), or that claims of locations are true in its runs (`locate`).
//!
//! # What a 0 of `check` means
//!
//! A file declares a struct, shared pointers and operations. A run of its program has any number of
//! threads, each in any operation, and takes their steps in any order; an allocation may take any
//! address that isn't used, and the reclaimer may free whatever the file's observer allows. A step
//! is a pointer race where it goes through a pointer that a free made invalid, compares such a
//! pointer or passes it to `retire`, and a second retire where it hands over an address that is
//! retired already.
//!
//! `run` promises, as the clause `headline` (a field of `Runs`, which has all its clauses), that where it
//! ends with 0 for the words `check` and a name, the bytes that the read of that name gave spell a
//! program, no run of which has such a step.
//! This is so of every file, whatever its program retires and whatever its steps claim: the flow has a
//! typing by the written rules, and its outline holds, so that each claim is true where it is made; from
//! these two it follows (`plc_safety`). So it is of real files too, whose content no clause can tell: the
//! bytes that a read gave are noted for proofs alone. Running out of memory and faults of the outside
//! aside, it ends so exactly where a typing exists and the outline holds.
//!
//! Where it ends with 1 the analysis has failed, which is no proof of a race. The answer says where:
//! `untyped` names the primitive whose condition no typing meets, `unproved` the first obligation of the
//! outline that isn't kept, with a model of its ground set, the state in which the step breaks the clause
//! (docs/outlines.md).
//!
//! A 0 of `verify` says the same: a certificate that is valid for a file shows that its flow has a typing and that
//! its outline holds (`plc_verify`), whoever wrote it. What it says rests on neither the inference nor the solver.
//! What `certify` writes with 0 is such a certificate: `verify` answers 0 to it (`certified_files_verify`).
//!
//! # What `replay` rules out
//!
//! `run` also promises, as the clause `served`, that a replay under a reclaimer that serves the file never
//! ends in a free that the observer forbids: under one that acts as `hazard` where the file has no
//! `use epoch`, and under one that acts as `epoch` where it has no `use hazard`. So it is of `Hazard` and
//! `Epoch`, whose `new` promises how they act; `run_with_own` is `run` with these two, `leak` and `list`.
//!
//! # What a 0 of `suggest` means
//!
//! The claims that `suggest` writes make the file's steps typable, and each of them is needed. `run` promises, as the
//! clause `suggested`, that where it ends with 0 for the words `suggest` and a name, the bytes that the read of that
//! name gave spell a program that has a typing once a claim `active` stands at each spot that was written, and none
//! where one of these is left out, whatever is done with the others. There may be a smaller set elsewhere. Where it
//! ends with 1, no claims in front of steps give the program a typing; one within an atomic block may.
//!
//! No outline is judged: a claim that is suggested need not be true, which is for `check` to say of the file that has
//! it.
//!
//! # What a 0 of `locate` means
//!
//! A claim says that at a label a pointer local that isn't null stands in certain locations of the file's observer,
//! such as those of a node that isn't retired. `run` promises, as the clause `located`, that where it ends with 0 for
//! the words `locate` and two names, the bytes that the reads gave spell a program and claims for it, that no run of
//! the program has a pointer race or a second retire, and that each claim is true in every state of every run. So no
//! run races, as after a 0 of `check`, though it is the extended outline that holds: what the types leave open is added
//! to the file's own, which alone may not hold.
//!
//! Where it ends with 1 the file has no typing, the extended outline doesn't hold, or a claim follows neither from its
//! type nor from an item that could be added (`unlocated`), which is no proof that it isn't true.
//!
//! # Where the outside has no fault
//!
//! The clause `completeness` says when nothing but the files decides. Where their contents are told and short enough,
//! and neither a count of theirs nor the sink's rises or stands at its last value, the status and the text are those
//! due to the contents, or memory ran out. Where no count of the files rises, 5 comes only where a text that may be due
//! is longer than the sink's room; then the sink took a beginning of it and has no room left. So where there is room
//! for each, the statuses 4 and 5 come only as `read too long`. So it is over `HonestFiles` and a `FixedSink` with room
//! (`honest_runs_are_answered`), and whatever its room, 5 comes only where what was written fills it
//! (`honest_runs_fill_the_room`): that asks for no bound on the text, and none is known of a certificate.
#![tactic(auto)]

mod answer;
mod asking;
mod certifying;
mod checking;
mod laws;
mod locating;
mod own;
mod printing;
mod program;
mod reading;
mod replaying;
mod sampling;
mod status;
mod suggesting;
mod verifying;
mod words;

pub use answer::{Answer, refusal, words_refusal};
pub use certifying::certified_files_verify;
pub use checking::{verdict_status, verdict_text};
pub use laws::{honest_runs_are_answered, honest_runs_fill_the_room};
pub use own::run_with_own;
pub use plc_outside::{
    FailSink, FileFault, Files, FixedSink, HonestFiles, Host, MemFiles, OutSink, RealFiles, Sink,
    SinkFault, VecSink, WordsFault, host_of, write_text,
};
pub use plc_reclaim::{ByList, Epoch, Hazard, Leak, Reclaimer};
pub use program::run;
pub use reading::{Content, Contents, read, read_both};
pub use replaying::{Recorded, answer_schedule, end_of};
pub use status::{NO_MEMORY, NOT_UTF8, REFUSED, UNWRITTEN, words_status};
