// What schedules come to under reclaimers, each as the whole end of its replay.
ghost use Rattle.plc_flow.specs.WellFormed.{FlowFits};

use crate::tests::moves::numbers;
use crate::tests::reclaimers::Listed;
use crate::tests::schedules::read;
use crate::tests::texts::{row_is, text_is};
use plc_base::{MOST_THREADS, NoMemory, What1};
use plc_check::Judged;
use plc_reclaim::{ByList, Leak, Reclaimer};
use plc_replay::replay;
use plc_sched::Schedule;
use plc_testing::loaded;
use std::alloc::Global;

// What a schedule comes to under a reclaimer.
fn end_text(
    alloc: Global,
    reclaimer: &mut Box<dyn Reclaimer>,
    schedule: &Schedule,
    judged: &Judged,
) -> Result<String, NoMemory>
    requires { FlowFits judged.now.flow }
{
    if schedule.threads == 0 || schedule.threads > MOST_THREADS {
        return Err(NoMemory);
    }
    if schedule.entries.len() >= What1::Lines.most() as usize {
        return Err(NoMemory);
    }
    let end = replay(
        alloc,
        &judged.flow,
        &judged.observer,
        &[],
        schedule,
        reclaimer,
    )?;
    Ok(format!(in alloc; "{end:?}")?)
}

fn replayed_in(
    alloc: Global,
    text: &str,
    judged: &Judged,
    reclaimer: &mut Box<dyn Reclaimer>,
) -> Result<String, NoMemory>
    requires { FlowFits judged.now.flow }
{
    match read(alloc, text) {
        Ok(schedule) => end_text(alloc, reclaimer, &schedule, judged),
        Err(_) => Err(NoMemory),
    }
}

fn replayed(
    alloc: Global,
    text: &str,
    reclaimer: &mut Box<dyn Reclaimer>,
) -> Result<String, NoMemory> {
    let judged = loaded(alloc, DROPS)?;
    let end = replayed_in(alloc, text, &judged, reclaimer);
    drop(judged);
    end
}

fn list_end(alloc: Global, text: &str) -> Result<String, NoMemory> {
    let mut reclaimer: Box<dyn Reclaimer> = Box::new(alloc, ByList::new(alloc))?;
    replayed(alloc, text, &mut reclaimer)
}

fn leak_end(alloc: Global, text: &str) -> Result<String, NoMemory> {
    let mut reclaimer: Box<dyn Reclaimer> = Box::new(alloc, Leak::new(alloc))?;
    replayed(alloc, text, &mut reclaimer)
}

fn listed_end(alloc: Global, text: &str, list: &str) -> Result<String, NoMemory> {
    let next = Vec::new(alloc);
    let list = numbers(alloc, list)?;
    let mut reclaimer: Box<dyn Reclaimer> = Box::new(alloc, Listed { alloc, list, next })?;
    replayed(alloc, text, &mut reclaimer)
}

const DROPS: &str = "struct N { } shared Top; op drop() { Top := new; retire(Top); }";

// Thread 0 publishes address 1 and retires it, and the reclaimer is asked once.
const DROPPED: &str =
    "threads 2\nstart 0 drop\nstep 0 0 1\nstep 0 0\nstep 0 0\nstep 0 0\nreturn 0\ntick\n";

#[test]
fn the_reclaimer_decides(rt: HostRuntime) -> Result<(), NoMemory> {
    let alloc = rt.alloc();
    text_is(
        &rt,
        list_end(alloc, DROPPED),
        "Ended { lines: 8, events: 3, freed: 1 }",
    )?;
    text_is(
        &rt,
        leak_end(alloc, DROPPED),
        "Ended { lines: 8, events: 2, freed: 0 }",
    )?;
    for row in &[
        ("1", "Ended { lines: 8, events: 3, freed: 1 }"),
        ("2", "ForbiddenFree { a: 2, line: 8 }"),
        ("0", "Impossible { line: 8 }"),
        ("", "Ended { lines: 8, events: 2, freed: 0 }"),
    ] {
        let (list, want) = *row;
        row_is(&rt, list, listed_end(alloc, DROPPED, list), want)?;
    }
    Ok(())
}

// Both threads publish, and thread 0 retires what thread 1 published; then two lines.
const BOTH: &str = "threads 2\nstart 0 drop\nstart 1 drop\nstep 0 0 1\nstep 1 0 2\nstep 0 0\n";

#[test]
fn the_first_bad_line_is_named(rt: HostRuntime) -> Result<(), NoMemory> {
    let alloc = rt.alloc();
    for row in &[
        (
            "step 1 0\ntick\n",
            "Race { kind: Double, line: 7, prim: 0 }",
        ),
        ("tick\nstep 1 0\n", "Race { kind: Pass, line: 8, prim: 0 }"),
        ("tick\nstart 0 drop\n", "Impossible { line: 8 }"),
        ("return 1\ntick\n", "Impossible { line: 7 }"),
        ("step 1 0 3\ntick\n", "Impossible { line: 7 }"),
        ("start 1 retire\ntick\n", "Impossible { line: 7 }"),
    ] {
        let (lines, want) = *row;
        let text = format!(in alloc; "{BOTH}{lines}")?;
        row_is(&rt, lines, list_end(alloc, text.as_str()), want)?;
    }
    Ok(())
}
