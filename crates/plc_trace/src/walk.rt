// The lines of a schedule, taken one by one as `replay` takes them, with a row for each that is shown. A line that
// isn't shown is taken alike, so that memory and history are those of the whole run.
ghost use Rattle.std.specs.Prelude.{◌+◌, ◌≤◌, length, IfOk};
ghost use Rattle.plc_flow.specs.WellFormed.{FlowFits};
ghost use Rattle.plc_run.specs.Position.{IsOfRun};
ghost use Rattle.plc_sched.specs.Schedules.{line_limit};
ghost use Rattle.plc_trace.specs.Going.{GoesOnFrom, MayTake, GoesOn};

use crate::ending::{Reached, push_ending, push_unknown};
use crate::log::Log;
use plc_answers::line_of;
use plc_base::NoMemory;
use plc_mem::Memory;
use plc_moves::Move;
use plc_reclaim::Reclaimer;
use plc_replay::{End, Wanted, ask, take_line, take_move};
use plc_rows::{Row, Taken, Traced, Written, note, push_row, taken_by};
use plc_run::Config;
use plc_sched::Entry;

/// A run while its lines are taken, and what is written of it.
#[derive(Drop)]
pub(crate) struct Walk<'a> {
    pub(crate) log: Log,
    pub(crate) config: Config,
    pub(crate) reclaimer: &'a mut Box<dyn Reclaimer>,
}

/// Writes the row of a move, and what is said of it where it is the last.
fn tell(log: &mut Log, traced: &Traced, row: &Row, config: &Config, m: &Move) -> Written
    requires fits { FlowFits traced.now.flow.now }
    requires of_run { IsOfRun traced.now.flow.now traced.now.observer.now config.now }
{
    push_row(&mut log.rows, traced, row, config)?;
    if let Taken::Step(id) = row.taken {
        log.here = line_of(traced.flow, id.0);
    }
    let Some(end) = &row.end else {
        return Ok(());
    };
    let reached = Reached {
        traced,
        config,
        heard: &log.heard,
    };
    push_ending(&mut log.ending, reached, m, end)
}

/// Takes a move, by a line after so many others, and writes its row.
fn take_shown(
    traced: &Traced,
    walk: &mut Walk,
    before: &Memory,
    entry: &Entry,
    m: &Move,
    lines: u32,
) -> Result<Option<End>, NoMemory>
    requires { MayTake traced.now lines walk.old.config }
    ensures { IfOk result (λ r. GoesOn traced.now (lines + 1) r walk.new.config) }
{
    let heard = walk.config.history().len();
    let taken = taken_by(traced, &walk.config, entry);
    let end = take_move(
        traced.flow,
        traced.observer,
        m,
        &mut walk.config,
        walk.reclaimer,
        lines,
    )?;
    let line = lines + 1;
    note(&mut walk.log.heard, walk.config.history().len(), line)?;
    let row = Row {
        line,
        entry,
        taken,
        before,
        heard,
        end,
    };
    tell(&mut walk.log, traced, &row, &walk.config, m)?;
    Ok(end)
}

/// The row of a line that takes no move.
fn push_still(
    log: &mut Log,
    traced: &Traced,
    config: &Config,
    entry: &Entry,
    line: u32,
    end: Option<End>,
) -> Written {
    let row = Row {
        line,
        entry,
        taken: Taken::Quiet,
        before: config.memory(),
        heard: config.history().len(),
        end,
    };
    push_row(&mut log.rows, traced, &row, config)
}

/// Takes a line after so many others, and writes its row.
fn take_told(
    traced: &Traced,
    walk: &mut Walk,
    entry: &Entry,
    lines: u32,
) -> Result<Option<End>, NoMemory>
    requires { MayTake traced.now lines walk.old.config }
    ensures { IfOk result (λ r. GoesOn traced.now (lines + 1) r walk.new.config) }
{
    let line = lines + 1;
    match ask(walk.log.rows.alloc(), traced.flow, walk.reclaimer, entry)? {
        Wanted::Move(m) => {
            let before = walk.config.memory().copy()?;
            take_shown(traced, walk, &before, entry, &m, lines)
        }
        Wanted::Quiet => {
            push_still(&mut walk.log, traced, &walk.config, entry, line, None)?;
            Ok(None)
        }
        Wanted::Unknown => {
            let end = Some(End::Impossible { line });
            push_still(&mut walk.log, traced, &walk.config, entry, line, end)?;
            push_unknown(&mut walk.log.ending, entry, line)?;
            Ok(end)
        }
    }
}

/// Takes a line after so many others. Where it isn't shown, nothing is written of it.
fn take_one(
    traced: &Traced,
    walk: &mut Walk,
    entry: &Entry,
    lines: u32,
    shown: bool,
) -> Result<Option<End>, NoMemory>
    requires { MayTake traced.now lines walk.old.config }
    ensures { IfOk result (λ r. GoesOn traced.now (lines + 1) r walk.new.config) }
{
    if shown {
        return take_told(traced, walk, entry, lines);
    }
    let end = take_line(
        traced.flow,
        traced.observer,
        &mut walk.config,
        walk.reclaimer,
        entry,
        lines,
    )?;
    note(&mut walk.log.heard, walk.config.history().len(), lines + 1)?;
    Ok(end)
}

/// Takes lines after so many others, until one of them is the last; a row is written for each where they are shown.
pub(crate) fn take_all(
    traced: &Traced,
    walk: &mut Walk,
    entries: &[Entry],
    taken: u32,
    shown: bool,
) -> Result<Option<End>, NoMemory>
    requires fits { FlowFits traced.now.flow.now }
    requires few { taken + length entries.now ≤ line_limit }
    requires stands { GoesOnFrom traced.now taken walk.old.config }
    ensures stands { IfOk result (λ r. GoesOn traced.now (taken + length entries.now) r walk.new.config) }
{
    let mut lines = taken;
    for entry in entries {
        match take_one(traced, walk, entry, lines, shown)? {
            Some(end) => return Ok(Some(end)),
            None => lines += 1,
        }
    }
    Ok(None)
}
