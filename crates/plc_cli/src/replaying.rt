// What a recorded schedule leads to in the program of a file, under a reclaimer.
ghost use Rattle.std.specs.Prelude.{◌≡◌, ◌≤◌, IfOk, length};
ghost use Rattle.plc_base.specs.FileSizes.{largest_file, largest_schedule};
ghost use Rattle.plc_flow.specs.WellFormed.{FlowFits};
ghost use Rattle.plc_replay.specs.Outcome.{ComesTo};
ghost use Rattle.plc_cli.specs.Answer.{IsReplayOf, IsScheduleAnswered, IsEndOf, CanBeReplayed};
ghost use Rattle.plc_cli.specs.Reads.{FilesAreKept, IsDueForPair};
ghost use Rattle.plc_cli.specs.Statuses.{end_status};

use crate::answer::{Answer, refusal, refuse};
use crate::reading::{Contents, read_both};
use crate::status::{FAILS, HOLDS};
use plc_answers::{end_text, schedule_fault_text};
use plc_base::{LARGEST_SCHEDULE, NoMemory};
use plc_check::{Judged, load};
use plc_outside::Files;
use plc_reclaim::Reclaimer;
use plc_replay::{End, replay};
use plc_sched::{SchedFault, Schedule, read_schedule};
use std::alloc::Global;

/// The status of an end: that of a failure where it isn't the end of the schedule.
fn end_status(end: &End) -> u8
    ensures { result ≡ end_status end.now }
{
    match end {
        End::Ended { .. } => HOLDS,
        End::Race { .. } | End::Impossible { .. } | End::ForbiddenFree { .. } => FAILS,
    }
}

/// A schedule that was read for a file that was loaded: what it leads to is a matter of the reclaimer alone.
#[derive(Clone, Copy)]
pub struct Recorded<'a> {
    /// The file.
    pub judged: &'a Judged,
    /// What was read of the schedule.
    pub schedule: &'a Schedule,
}

/// What a schedule leads to under a reclaimer. The one error is that memory runs out.
pub fn end_of(
    alloc: Global,
    recorded: Recorded,
    reclaimer: &mut Box<dyn Reclaimer>,
) -> Result<End, NoMemory>
    requires { CanBeReplayed recorded.judged.now recorded.schedule.now }
    ensures { IfOk result (ComesTo recorded.entry.judged.now.flow recorded.entry.judged.now.observer
        (meanings reclaimer.old) recorded.entry.judged.now.schemes recorded.entry.schedule.now) }
{
    let judged = recorded.judged;
    let schemes = judged.schemes.as_slice();
    replay(
        alloc,
        &judged.flow,
        &judged.observer,
        schemes,
        recorded.schedule,
        reclaimer,
    )
}

/// The answer of `replay` to a schedule that was read. The one error is that memory runs out.
pub fn answer_schedule(
    alloc: Global,
    recorded: Recorded,
    reclaimer: &mut Box<dyn Reclaimer>,
) -> Result<Answer, NoMemory>
    requires { CanBeReplayed recorded.judged.now recorded.schedule.now }
    ensures { IfOk result (λ answer. IsEndOf recorded.entry.judged.now (meanings reclaimer.old)
        recorded.entry.schedule.now answer.status answer.text.items) }
{
    let end = end_of(alloc, recorded, reclaimer)?;
    Ok(Answer {
        status: end_status(&end),
        text: end_text(alloc, &end)?,
    })
}

/// The answer to the bytes of a schedule.
fn answer_schedule_bytes(
    alloc: Global,
    judged: &Judged,
    bytes: &[u8],
    reclaimer: &mut Box<dyn Reclaimer>,
) -> Result<Answer, NoMemory>
    requires flow { FlowFits judged.now.flow }
    ensures { IfOk result (λ answer.
        IsScheduleAnswered judged.now (meanings reclaimer.old) bytes.now answer.status answer.text.items) }
{
    match read_schedule(alloc, bytes) {
        Ok(schedule) => {
            let recorded = Recorded {
                judged,
                schedule: &schedule,
            };
            answer_schedule(alloc, recorded, reclaimer)
        }
        Err(SchedFault::Memory) => Err(NoMemory),
        Err(fault) => Ok(refuse(schedule_fault_text(alloc, fault)?)),
    }
}

/// The answer to the bytes of a schedule for a file that was loaded.
fn answer_second(
    alloc: Global,
    judged: Judged,
    bytes: &[u8],
    reclaimer: &mut Box<dyn Reclaimer>,
) -> Result<Answer, NoMemory>
    requires flow { FlowFits judged.flow }
    ensures { IfOk result (λ answer.
        IsScheduleAnswered judged (meanings reclaimer.old) bytes.now answer.status answer.text.items) }
{
    let answer = answer_schedule_bytes(alloc, &judged, bytes, reclaimer);
    drop(judged);
    answer
}

/// The answer to the bytes of a file and of a schedule; the file's refusals go first. It is no `Question`, since the
/// reclaimer is lent to it.
fn replay_bytes(
    alloc: Global,
    bytes: &[u8],
    second: &[u8],
    reclaimer: &mut Box<dyn Reclaimer>,
) -> Result<Answer, NoMemory>
    requires { length bytes.now ≤ largest_file }
    ensures { IfOk result (λ answer.
        IsReplayOf (meanings reclaimer.old) bytes.now second.now answer.status answer.text.items) }
{
    match load(alloc, bytes) {
        Ok(judged) => answer_second(alloc, judged, second, reclaimer),
        Err(fault) => refusal(alloc, &fault),
    }
}

/// The answer to `replay FILE SCHEDULE RECLAIMER`.
pub(crate) fn replay_file<F: Files>(
    alloc: Global,
    files: &mut F,
    file: &str,
    schedule: &str,
    reclaimer: &mut Box<dyn Reclaimer>,
) -> Result<Answer, NoMemory>
    ensures kept { FilesAreKept (F.known files.old) (F.known files.new) }
    ensures due { IfOk result (λ answer. IsDueForPair (F.known files.old) (F.known files.new)
        file.now schedule.now largest_schedule
        (λ bytes second. IsReplayOf (meanings reclaimer.old) bytes second answer.status answer.text.items)
        answer.status answer.text.items) }
{
    match read_both(alloc, files, file, schedule, LARGEST_SCHEDULE)? {
        Contents::Read(bytes, second) => replay_bytes(alloc, &bytes, &second, reclaimer),
        Contents::Unread(answer) => Ok(answer),
    }
}
