// Schedules with their entries, or the first line that is none.
use crate::tests::texts::{row_is, text_is};
use plc_base::LARGEST_SCHEDULE;
use plc_sched::{Entry, SchedFault, Schedule, read_schedule};
use plc_testing::put;
use std::alloc::{AllocError, Global};

// An entry, as its line would be written.
fn entry_text(alloc: Global, entry: &Entry) -> Result<String, AllocError> {
    match entry {
        Entry::Start { t, op, args } => {
            let op = str::from_utf8(op.as_slice()).unwrap_or("?");
            let mut text = format!(in alloc; "start {t} {op}")?;
            for arg in args.as_slice() {
                write!(text, " {arg}")?;
            }
            Ok(text)
        }
        Entry::Step { t, nth, addr: None } => format!(in alloc; "step {t} {nth}"),
        Entry::Step {
            t,
            nth,
            addr: Some(addr),
        } => format!(in alloc; "step {t} {nth} {addr}"),
        Entry::Return { t } => format!(in alloc; "return {t}"),
        Entry::Tick => format!(in alloc; "tick"),
    }
}

fn schedule_text(alloc: Global, schedule: &Schedule) -> Result<String, AllocError> {
    let threads = schedule.threads;
    let mut all = format!(in alloc; "threads {threads}\n")?;
    for entry in schedule.entries.as_slice() {
        put(&mut all, entry_text(alloc, entry))?;
        all.push('\n')?;
    }
    Ok(all)
}

pub(crate) fn read(alloc: Global, text: &str) -> Result<Schedule, SchedFault> {
    if text.len() > LARGEST_SCHEDULE {
        return Err(SchedFault::Memory);
    }
    read_schedule(alloc, text.as_bytes())
}

// The entries of a schedule, or its fault.
fn scheduled(alloc: Global, text: &str) -> Result<String, AllocError> {
    match read(alloc, text) {
        Ok(schedule) => schedule_text(alloc, &schedule),
        Err(SchedFault::Line { n }) => format!(in alloc; "line {n}"),
        Err(SchedFault::Limit { count }) => format!(in alloc; "limit {count}"),
        Err(SchedFault::Memory) => Err(AllocError),
    }
}

// How many entries there are, or the fault.
fn counted(alloc: Global, first: &str, lines: u32) -> Result<String, AllocError> {
    let mut text = String::from_str(alloc, first)?;
    for _ in 0..lines {
        text.push_str("tick\n")?;
    }
    let all = scheduled(alloc, text.as_str())?;
    if all.as_str() == text.as_str() {
        String::from_str(alloc, "the same")
    } else {
        Ok(all)
    }
}

// Schedules that are read as they are written.
const WRITTEN: &[&str] = &[
    "threads 1\n",
    "threads 64\nreturn 63\ntick\ntick\n",
    "threads 2\nstart 1 put\nstep 1 0 1\nstep 1 0\nstep 1 0\nreturn 1\nstart 0 look\nstep 0 0\nstart 1 take\n\
     step 1 0\nstep 1 0\nstep 1 0\ntick\nstep 1 0\nstep 1 0\nreturn 1\nstart 1 put\nstep 1 0 1\nstep 1 0\nstep 0 0\n\
     step 0 0\nstep 0 0\nstep 0 0\n",
    "threads 1\nstart 0 loop\nstart 0 _ 0 4294967295\nstart 0 X9_ 10\nstep 0 65535 4096\n",
    "threads 1\nstart 0 a123456789b123456789c123456789d123456789e123456789f123456789g123 1 2 3 4 5 6 7 8 9 10 11 12 \
     13 14 15 16 17 18 19 20 21 22 23 24 25 26 27 28 29 30 31 32\n",
];

// Schedules with another answer.
const SCHEDULES: &[(&str, &str)] = &[
    ("threads 3\nstep 2 0\ntick", "threads 3\nstep 2 0\ntick\n"),
    ("", "line 1"),
    ("\n", "line 1"),
    ("\nthreads 1\n", "line 1"),
    ("threads\n", "line 1"),
    ("threads \n", "line 1"),
    ("threads 0\n", "line 1"),
    ("threads 65\n", "line 1"),
    ("threads 01\n", "line 1"),
    ("threads +1\n", "line 1"),
    ("threads 1 \n", "line 1"),
    ("threads 1 1\n", "line 1"),
    (" threads 1\n", "line 1"),
    ("Threads 1\n", "line 1"),
    ("threads 1\r\ntick\n", "line 1"),
    ("tick\n", "line 1"),
    ("threads 1\n\n", "line 2"),
    ("threads 1\ntick\n\ntick\n", "line 3"),
    ("threads 1\ntick\n tick\n", "line 3"),
    ("threads 1\ntick \n", "line 2"),
    ("threads 1\ntick\r\n", "line 2"),
    ("threads 1\nticks\n", "line 2"),
    ("threads 2\nreturn 1\nreturn 2\n", "line 3"),
    ("threads 2\nreturn 1\nreturn\n", "line 3"),
    ("threads 2\nreturn  1\n", "line 2"),
    ("threads 2\nreturn 1 \n", "line 2"),
    ("threads 2\nstep 2 0\nstep 1 0\n", "line 2"),
    ("threads 2\nstep 1\n", "line 2"),
    ("threads 2\nstep 1 65536\n", "line 2"),
    ("threads 2\nstep 1 00\n", "line 2"),
    ("threads 2\nstep 1 0 0\n", "line 2"),
    ("threads 2\nstep 1 0 4097\n", "line 2"),
    ("threads 2\nstep 1 0 1 1\n", "line 2"),
    ("threads 2\nstart 1\n", "line 2"),
    ("threads 2\nstart 1 9op\n", "line 2"),
    ("threads 2\nstart 1  1\n", "line 2"),
    ("threads 2\nstart 1 op 4294967296\n", "line 2"),
    ("threads 2\nstart 1 op 18446744073709551617\n", "line 2"),
    (
        "threads 2\nstart 1 a123456789b123456789c123456789d123456789e123456789f123456789g1234\n",
        "line 2",
    ),
    (
        "threads 2\nstart 1 op 1 2 3 4 5 6 7 8 9 10 11 12 13 14 15 16 17 18 19 20 21 22 23 24 25 26 27 28 29 30 31 32 \
         33\n",
        "line 2",
    ),
];

#[test]
fn schedules_are_read_as_they_are_written(rt: HostRuntime) -> Result<(), AllocError> {
    let alloc = rt.alloc();
    for row in WRITTEN {
        let text = *row;
        text_is(&rt, scheduled(alloc, text), text)?;
    }
    Ok(())
}

#[test]
fn the_first_bad_line_of_a_schedule_is_named(rt: HostRuntime) -> Result<(), AllocError> {
    for row in SCHEDULES {
        let (text, want) = *row;
        row_is(&rt, text, scheduled(rt.alloc(), text), want)?;
    }
    Ok(())
}

#[test]
fn lines_are_counted_before_they_are_read(rt: HostRuntime) -> Result<(), AllocError> {
    let alloc = rt.alloc();
    text_is(&rt, counted(alloc, "threads 1\n", 99_999), "the same")?;
    text_is(&rt, counted(alloc, "threads 0\n", 100_000), "limit 100001")?;
    Ok(())
}
