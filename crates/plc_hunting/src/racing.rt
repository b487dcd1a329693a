// That what was found is a race is found out here, by following it once more: nothing of how it was found is trusted.
ghost use Rattle.std.specs.Prelude.{◌≡◌, ◌<◌, false, IfOk, IsTrue};
ghost use Rattle.plc_flow.specs.WellFormed.{FlowFits};
ghost use Rattle.plc_run.specs.Position.{IsOfRun, threads_of};
ghost use Rattle.plc_hunting.specs.Ends.{is_race};
ghost use Rattle.plc_explore.specs.Racing.{LeadsToRace, IsRacingRun};
ghost use Rattle.plc_hunting.specs.Racing.{IsRacingSchedule};

use plc_auto::Observer;
use plc_base::NoMemory;
use plc_check::Judged;
use plc_cli::{Recorded, end_of};
use plc_flow::Flow;
use plc_moves::{Move, StartFault};
use plc_reclaim::Reclaimer;
use plc_replay::{End, schedules_come_to_one_end};
use plc_run::{Config, Moved};
use plc_sched::{SchedFault, Schedule, read_schedule};
use std::alloc::Global;

/// Whether an end is a race.
fn is_race(end: End) -> bool
    ensures { result ≡ is_race end }
{
    match end {
        End::Race { .. } => true,
        End::Ended { .. } | End::Impossible { .. } | End::ForbiddenFree { .. } => false,
    }
}

/// Whether the bytes spell a schedule that comes to a race under a reclaimer. The one error is that memory runs out.
pub fn schedule_races(
    alloc: Global,
    judged: &Judged,
    bytes: &[u8],
    reclaimer: &mut Box<dyn Reclaimer>,
) -> Result<bool, NoMemory>
    requires flow { FlowFits judged.now.flow }
    ensures races { IfOk result (λ races. IsTrue races
        → IsRacingSchedule judged.now (meanings reclaimer.old) bytes.now) }
    ensures exactly { IfOk result (λ races. IsRacingSchedule judged.now (meanings reclaimer.old) bytes.now
        → IsTrue races) }
{
    let schedule = match read_schedule(alloc, bytes) {
        Ok(schedule) => schedule,
        Err(SchedFault::Memory) => return Err(NoMemory),
        Err(_) => return Ok(false),
    };
    let recorded = Recorded {
        judged,
        schedule: &schedule,
    };
    schedules_come_to_one_end();
    let end = end_of(alloc, recorded, reclaimer)?;
    Ok(is_race(end))
}

/// Whether moves lead from here to a race, which is the last of them.
fn leads_to_race(
    flow: &Flow,
    observer: &Observer,
    config: &mut Config,
    moves: &[Move],
) -> Result<bool, NoMemory>
    requires fits { FlowFits flow.now }
    requires some { 0 < threads_of config.old }
    requires of_run { IsOfRun flow.now observer.now config.old }
    requires goes { config.old.ended ≡ false }
    ensures races { IfOk result (λ races. IsTrue races
        → LeadsToRace flow.now observer.now (threads_of config.old) config.old.here moves.now) }
    ensures exactly { IfOk result (λ races.
        LeadsToRace flow.now observer.now (threads_of config.old) config.old.here moves.now → IsTrue races) }
{
    for k in 0..moves.len() {
        match config.step(flow, observer, &moves[k])? {
            Moved::Done => {}
            Moved::Race { .. } => return Ok(k + 1 == moves.len()),
            Moved::Blocked | Moved::Forbidden { .. } => return Ok(false),
        }
    }
    Ok(false)
}

/// Whether moves among so many threads, from where runs begin, lead to a race, which is the last of them. Each free is
/// one that the observer allows. The one error is that memory runs out.
pub fn run_races(
    alloc: Global,
    flow: &Flow,
    observer: &Observer,
    threads: u32,
    moves: &[Move],
) -> Result<bool, NoMemory>
    requires fits { FlowFits flow.now }
    requires some { 0 < threads }
    ensures races { IfOk result (λ races. IsTrue races → IsRacingRun flow.now observer.now threads moves.now) }
    ensures exactly { IfOk result (λ races. IsRacingRun flow.now observer.now threads moves.now → IsTrue races) }
{
    match Config::start(alloc, flow, observer, threads) {
        Ok(mut config) => leads_to_race(flow, observer, &mut config, moves),
        Err(StartFault::NoStart) => Ok(false),
        Err(StartFault::Memory) => Err(NoMemory),
    }
}
