// The run of a schedule, from its start to the line that ends it, on a page: what is said of the last line, a row for
// each line, at most so many, and what is there after it.
ghost use Rattle.std.specs.Prelude.{◌≡◌, ◌+◌, ◌<◌, ◌≤◌, length};
ghost use Rattle.plc_flow.specs.WellFormed.{FlowFits};
ghost use Rattle.plc_sched.specs.Schedules.{IsWithinLimits, line_limit};
ghost use Rattle.plc_cli.specs.Answer.{CanBeReplayed};
ghost use Rattle.plc_trace.specs.Going.{GoesOnFrom};

use crate::log::Log;
use crate::walk::{Walk, take_all};
use plc_base::NoMemory;
use plc_cli::{Recorded, end_of};
use plc_flow::StepsByPoint;
use plc_html::Html;
use plc_mem::Memory;
use plc_moves::StartFault;
use plc_reclaim::Reclaimer;
use plc_replay::{End, begin_reclaimer};
use plc_rows::{Traced, Written, push_first, push_heads, push_standing};
use plc_run::Config;
use plc_sched::Entry;
use std::alloc::Global;

/// How many lines of a schedule a page shows at most.
const MOST_LINES: usize = 300;

/// How many lines were taken, with the one at which a run ends.
fn lines_of(end: &End) -> u32 {
    match *end {
        End::Ended { lines, .. } => lines,
        End::Race { line, .. } => line,
        End::Impossible { line } => line,
        End::ForbiddenFree { line, .. } => line,
    }
}

/// How many of the entries aren't shown.
fn left_out(end: &End) -> usize {
    (lines_of(end) as usize).saturating_sub(MOST_LINES.saturating_add(1))
}

/// The row of all lines that aren't shown, and the start.
fn push_begun(log: &mut Log, traced: &Traced, config: &Config, lines: u32) -> Written {
    let before = Memory::new(log.rows.alloc(), traced.flow, traced.threads)?;
    push_first(&mut log.rows, traced, &before, config, lines)
}

/// That each line was taken.
fn push_taken_all(log: &mut Log, end: &Option<End>) -> Written {
    match end {
        Some(_) => Ok(()),
        None => log
            .ending
            .markup("<p>All lines of the schedule were taken.</p>\n"),
    }
}

/// The lines that are shown, after so many others.
fn show(traced: &Traced, walk: &mut Walk, entries: &[Entry], lines: u32) -> Written
    requires fits { FlowFits traced.now.flow.now }
    requires few { lines + length entries.now ≤ line_limit }
    requires stands { GoesOnFrom traced.now lines walk.old.config }
{
    push_begun(&mut walk.log, traced, &walk.config, lines)?;
    let end = take_all(traced, walk, entries, lines, true)?;
    push_taken_all(&mut walk.log, &end)?;
    push_standing(&mut walk.log.after, traced, &walk.config)
}

/// All lines: the first ones, so many, are taken without a row.
fn follow(traced: &Traced, walk: &mut Walk, entries: &[Entry], untold: usize) -> Written
    requires fits { FlowFits traced.now.flow.now }
    requires few { length entries.now < line_limit }
    requires untold { untold ≤ length entries.now }
    requires stands { GoesOnFrom traced.now 1 walk.old.config }
{
    let first = &entries[..untold];
    let others = &entries[untold..];
    match take_all(traced, walk, first, 1, false)? {
        Some(_) => Ok(()),
        None => show(traced, walk, others, 1 + untold as u32),
    }
}

/// What is written of the run of a schedule, from its start.
fn run(
    alloc: Global,
    traced: &Traced,
    recorded: Recorded,
    reclaimer: &mut Box<dyn Reclaimer>,
    untold: usize,
) -> Result<Log, NoMemory>
    requires fits { FlowFits traced.now.flow.now }
    requires within { IsWithinLimits recorded.schedule.now }
{
    let Recorded { judged, schedule } = recorded;
    let entries = schedule.entries.as_slice();
    let untold = untold.min(entries.len());
    let mut log = Log::new(alloc);
    begin_reclaimer(reclaimer, judged.schemes.as_slice())?;
    match Config::start(alloc, traced.flow, traced.observer, schedule.threads) {
        Ok(config) => {
            let mut walk = Walk {
                log,
                config,
                reclaimer,
            };
            follow(traced, &mut walk, entries, untold)?;
            Ok(walk.log)
        }
        Err(StartFault::NoStart) => {
            log.ending.markup(
                "<p>Line 1 of the schedule is impossible: <code>init</code> is blocked, so that the program has no \
                 start.</p>\n",
            )?;
            Ok(log)
        }
        Err(StartFault::Memory) => Err(NoMemory),
    }
}

/// The sentences in front of the table.
fn push_introduction(html: &mut Html, untold: usize) -> Written {
    html.markup(
        "<h2 id=\"run\">The run</h2>\n<p>A row for each line of the schedule: what its thread did, what the reclaimer \
         did, what that changed, where the observer then stands for the address of each event, and which nodes are \
         retired and not freed.</p>\n",
    )?;
    if untold > 0 {
        html.markup("<p>Only the last lines are shown, ")?;
        html.number(MOST_LINES as u64)?;
        html.markup(" of them; the first row has what all lines before them changed.</p>\n")?;
    }
    Ok(())
}

/// What was written of a run, in the order of the page.
fn put_together(log: Log, threads: u32, untold: usize) -> Result<Html, NoMemory> {
    let mut html = log.ending;
    push_introduction(&mut html, untold)?;
    html.markup("<div class=\"wide\"><table>\n")?;
    push_heads(&mut html, threads)?;
    html.append(log.rows)?;
    html.markup("</table></div>\n")?;
    html.append(log.after)?;
    Ok(html)
}

/// What is said of the run of a schedule, and the line of the file of its last step, or 0. The one error is that memory
/// runs out.
pub(crate) fn trace(
    alloc: Global,
    recorded: Recorded,
    reclaimer: &mut Box<dyn Reclaimer>,
) -> Result<(Html, u32), NoMemory>
    requires { CanBeReplayed recorded.judged.now recorded.schedule.now }
{
    let end = end_of(alloc, recorded, reclaimer)?;
    let Recorded { judged, schedule } = recorded;
    let (flow, observer) = (&judged.flow, &judged.observer);
    let untold = left_out(&end);
    let steps = StepsByPoint::of_flow(alloc, flow)?;
    let traced = Traced {
        flow,
        observer,
        steps: &steps,
        threads: schedule.threads,
    };
    let log = run(alloc, &traced, recorded, reclaimer, untold)?;
    let here = log.here;
    let html = put_together(log, schedule.threads, untold)?;
    Ok((html, here))
}
