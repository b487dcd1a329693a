// The page of a run: the badge, what is said of the run, which is taken once more, and the answer of `replay`. What
// stands between badge and answer is made apart, so that the page shows both whatever is said of them.
ghost use Rattle.std.specs.Prelude.{◌≤◌, IfOk, length};
ghost use Rattle.plc_base.specs.FileSizes.{largest_file};
ghost use Rattle.plc_flow.specs.WellFormed.{FlowFits};
ghost use Rattle.plc_cli.specs.Answer.{CanBeReplayed};
ghost use Rattle.plc_trace.specs.Pages.{ShowsReplay, ShowsSchedule, ShowsEnd, SaysUnscheduled};

use crate::running::trace;
use plc_answers::schedule_fault_text;
use plc_base::NoMemory;
use plc_check::{Judged, LoadFault, load};
use plc_cli::{REFUSED, Recorded, answer_schedule};
use plc_html::{Html, Subject};
use plc_page::{Page, page_of, push_file, push_numbered_lines, refused_page};
use plc_reclaim::Reclaimer;
use plc_sched::{SchedFault, read_schedule};
use std::alloc::Global;

/// The bytes of a file and those of a schedule, and the title of their page.
#[derive(Clone, Copy)]
struct Pair<'a> {
    title: &'a [u8],
    file: &'a [u8],
    schedule: &'a [u8],
}

/// The page of a schedule that was read.
fn ended_page(
    alloc: Global,
    pair: Pair,
    recorded: Recorded,
    reclaimer: &mut Box<dyn Reclaimer>,
) -> Result<Page, NoMemory>
    requires { CanBeReplayed recorded.judged.now recorded.schedule.now }
    ensures { IfOk result (ShowsEnd pair.entry.title.now recorded.entry.judged.now (meanings reclaimer.old)
        recorded.entry.schedule.now) }
{
    let answer = answer_schedule(alloc, recorded, reclaimer)?;
    let (mut rest, here) = trace(alloc, recorded, reclaimer)?;
    push_file(&mut rest, pair.file, here)?;
    let subject = Subject {
        title: pair.title,
        status: answer.status,
        answer: &answer.text,
    };
    page_of(alloc, subject, &rest)
}

/// The line at which the refusal of a schedule points; 0 where it names none.
fn line_of_refusal(fault: SchedFault) -> u32 {
    match fault {
        SchedFault::Line { n } => n,
        SchedFault::Limit { .. } | SchedFault::Memory => 0,
    }
}

/// The page of a schedule that is refused.
fn unscheduled_page(alloc: Global, pair: Pair, fault: SchedFault) -> Result<Page, NoMemory>
    ensures { IfOk result (SaysUnscheduled pair.entry.title.now fault) }
{
    let text = schedule_fault_text(alloc, fault)?;
    let mut rest = Html::new(alloc);
    rest.markup("<h2>The schedule</h2>\n")?;
    push_numbered_lines(&mut rest, pair.schedule, line_of_refusal(fault))?;
    let subject = Subject {
        title: pair.title,
        status: REFUSED,
        answer: &text,
    };
    page_of(alloc, subject, &rest)
}

/// The page of a schedule for a file that was loaded.
fn scheduled_page(
    alloc: Global,
    pair: Pair,
    judged: &Judged,
    reclaimer: &mut Box<dyn Reclaimer>,
) -> Result<Page, NoMemory>
    requires fits { FlowFits judged.now.flow }
    ensures { IfOk result (ShowsSchedule pair.entry.title.now judged.now (meanings reclaimer.old)
        pair.entry.schedule.now) }
{
    let schedule = match read_schedule(alloc, pair.schedule) {
        Ok(schedule) => schedule,
        Err(SchedFault::Memory) => return Err(NoMemory),
        Err(fault) => return unscheduled_page(alloc, pair, fault),
    };
    let recorded = Recorded {
        judged,
        schedule: &schedule,
    };
    ended_page(alloc, pair, recorded, reclaimer)
}

/// The page of a recorded run, by the bytes of a file and of a schedule: the badge and the sentence of what `replay`
/// answers under this reclaimer, what is said of the last line, a row for each line, at most the last 300, what is
/// there after it, the file, and the answer. A file or a schedule that is refused is shown with the refusal. `name` is
/// the title. The one error is that memory runs out.
pub fn replay_page(
    alloc: Global,
    name: &[u8],
    bytes: &[u8],
    second: &[u8],
    reclaimer: &mut Box<dyn Reclaimer>,
) -> Result<Page, NoMemory>
    requires { length bytes.now ≤ largest_file }
    ensures { IfOk result (ShowsReplay name.now (meanings reclaimer.old) bytes.now second.now) }
{
    let pair = Pair {
        title: name,
        file: bytes,
        schedule: second,
    };
    match load(alloc, bytes) {
        Ok(judged) => scheduled_page(alloc, pair, &judged, reclaimer),
        Err(LoadFault::Memory) => Err(NoMemory),
        Err(fault) => refused_page(alloc, name, bytes, &fault),
    }
}
