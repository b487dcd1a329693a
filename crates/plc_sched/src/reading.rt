// Lines are counted first, no further than their limit, and then read one by one, so that the number of
// a bad line is known from the entries before it.
ghost use Rattle.std.specs.Prelude.{◌≡◌, ◌≢◌, ◌<◌, ◌∷◌};
ghost use Rattle.std.specs.Prelude.{length, IfOk, IfErr, IfSome, IfNone, OnOk, MatchResult};
ghost use Rattle.plc_sched.specs.declared.schedule.Schedule.{Schedule};
ghost use Rattle.plc_sched.specs.declared.fault.SchedFault.{SchedFault};
ghost use Rattle.plc_sched.specs.declared.fault.SchedFault.TheVariants.{Memory};
ghost use Rattle.plc_sched.specs.Lines.{lines_of};
ghost use Rattle.plc_sched.specs.Entries.{ThreadsFit, head_text};
ghost use Rattle.plc_sched.specs.Schedules.{line_limit, HasNoHead, IsScheduleOf, IsScheduleFault};
ghost use Rattle.plc_sched.specs.Schedules.{SchedulesAreUnique, SchedulesAreWithinLimits};
ghost use Rattle.plc_sched.specs.Reading.{IsHead, AreEntries, StopsAfter};

use crate::entries::read_entry;
use crate::fault::SchedFault;
use crate::lines::{has_too_many_lines, next_line};
use crate::numbers::last_number;
use crate::schedule::{Entry, Schedule};
use crate::words::{Words, next_word};
use plc_base::{Items, MOST_THREADS, What1};
use std::alloc::Global;

const THREADS: &[u8] = b"threads";

/// The number of threads, which the first line spells.
fn head_of(line: &[u8]) -> Option<u32>
    ensures { IsHead line.now result }
{
    let (kind, words) = next_word(Words { left: Some(line) })?;
    if kind == THREADS {
        last_number(words, 1, MOST_THREADS)
    } else {
        None
    }
}

/// The number of threads and what stands after the first line.
fn read_head<'a>(bytes: &'a [u8]) -> Option<(u32, &'a [u8])>
    ensures none { IfNone result (HasNoHead (lines_of bytes.now)) }
    ensures fits { IfSome result (λ read. ThreadsFit read.0) }
    ensures some { IfSome result (λ read. lines_of bytes.now ≡ head_text read.0 ∷ lines_of read.1.now) }
{
    let (line, after) = next_line(bytes)?;
    let threads = head_of(line)?;
    Some((threads, after))
}

/// The entries that all lines spell, or the number of the first line that spells none. The head
/// stands before them.
#[tactic(auto, using(std::proofs::lemmas::Grind::common_steps))]
fn read_entries(alloc: Global, threads: u32, bytes: &[u8]) -> Result<Items<Entry>, SchedFault>
    requires threads { ThreadsFit threads }
    requires count { length (lines_of bytes.now) < line_limit }
    ensures ok { IfOk result (AreEntries threads (lines_of bytes.now)) }
    ensures err { IfErr result (StopsAfter threads (lines_of bytes.now)) }
{
    let mut entries = Items::new(alloc);
    let mut rest = bytes;
    while let Some((line, after)) = next_line(rest) {
        let Some(entry) = read_entry(alloc, threads, line)? else {
            let n = entries.len() as u32 + 2;
            return Err(SchedFault::Line { n });
        };
        entries.push(entry)?;
        rest = after;
    }
    Ok(entries)
}

/// The schedule that a file spells, or why it spells none: more than 100,000 lines, and else the first
/// line that isn't one of a schedule. The file may be of any length.
pub fn read_schedule(alloc: Global, bytes: &[u8]) -> Result<Schedule, SchedFault>
    ensures ok { IfOk result (IsScheduleOf bytes.now) }
    ensures fault { IfErr result (IsScheduleFault bytes.now) }

    // Running out of memory aside, what is spelled is answered, and what has a fault is refused.
    ensures spelled { (s : Schedule) → IsScheduleOf bytes.now s →
        MatchResult result (λ read. read ≡ s) (λ e. e ≡ Memory) }
    ensures refuses { (fault : SchedFault) → IsScheduleFault bytes.now fault → fault ≢ Memory
        → OnOk result ⊥ }
{
    if has_too_many_lines(bytes) {
        return Err(SchedFault::Limit {
            count: What1::Lines.most() + 1,
        });
    }
    let Some((threads, after)) = read_head(bytes) else {
        return Err(SchedFault::Line { n: 1 });
    };
    let entries = read_entries(alloc, threads, after)?;
    Ok(Schedule { threads, entries })
}

/// A file spells at most one schedule, or has one fault beside running out of memory, and not both.
pub fn schedules_are_unique()
    ensures { SchedulesAreUnique }
{}

/// A schedule that a file spells has 1 to 64 threads and at most 99,999 entries.
pub fn schedules_are_within_limits()
    ensures { SchedulesAreWithinLimits }
{}
