// What can be told of a race: through which pointer it goes, where its node was retired and where it was freed, each by
// the line of the schedule and by that of the file. The run is followed once more for it; no answer rests on it.
ghost use Rattle.plc_explore.specs.Running.{IsIndexed, IsRunOf};

use crate::frees::Frees;
use crate::pointers::Seen;
use crate::program::Program;
use crate::running::{Running, mover, retired_in, step_of};
use crate::trail::Trail;
use plc_auto::Event;
use plc_base::NoMemory;
use plc_flow::Step;
use plc_lang::Var;
use plc_mem::RaceKind;
use plc_moves::Move;
use plc_run::{Config, Moved};
use std::alloc::Global;

/// A line of the schedule, and the line of the file whose step it takes, if it takes one.
#[derive(Clone, Copy)]
pub struct Lines {
    /// The line of the schedule.
    pub schedule: u32,
    /// The line of the file, where a step of it stands there.
    pub file: Option<u32>,
}

/// An event that is told: that an address was freed, or retired, and where.
#[derive(Clone, Copy)]
struct Happened {
    a: u32,
    is_free: bool,
    at: Lines,
}

/// A race of a primitive.
#[derive(Clone, Copy)]
struct Race {
    at: Lines,
    kind: RaceKind,
    prim: u16,
}

/// What is known of a race.
#[derive(Drop)]
pub struct Account {
    /// Where the race is, and of which kind.
    pub at: Lines,
    pub kind: RaceKind,
    /// The number of the operation, and its pointer, if it can be told.
    pub pointer: Option<(u16, Var)>,
    /// Where its node was retired and freed last.
    pub retired: Option<Lines>,
    pub freed: Option<Lines>,
}

/// What is noted while a run is followed.
#[derive(Drop)]
struct Notes {
    happened: Vec<Happened>,
}

/// What an event that happened here frees or retires.
fn happened_in(event: &Event, at: Lines) -> Option<Happened> {
    let (a, is_free) = match *event {
        Event::Free { a } => (Some(a), true),
        _ => (retired_in(event), false),
    };
    match a {
        Some(a) => Some(Happened { a, is_free, at }),
        None => None,
    }
}

impl Notes {
    /// Notes the events after so many, which happened at one place.
    fn note(&mut self, history: &[Event], before: usize, at: Lines) -> Result<(), NoMemory> {
        for event in history.iter().skip(before) {
            if let Some(happened) = happened_in(event, at) {
                self.happened.push(happened)?;
            }
        }
        Ok(())
    }
}

/// Where an address was freed, or retired, for the last time before a line of the schedule.
fn last_before(notes: &Notes, is_free: bool, a: u32, line: u32) -> Option<Lines> {
    let mut last = None;
    for one in &notes.happened {
        if one.is_free == is_free && one.a == a && one.at.schedule < line {
            last = Some(one.at);
        }
    }
    last
}

/// Makes a move again. Where it is a free and a reclaimer is asked, what it picks is freed.
fn make_again(program: &Program, run: &mut Running, m: &Move) -> Result<Moved, NoMemory>
    requires { IsRunOf program.now run.old.config }
    ensures { IsRunOf program.now run.new.config }
{
    if let Move::Free { a } = m {
        if let Some(picked) = run.frees.again(*a) {
            return run.free(program, picked);
        }
    }
    run.make(program, m)
}

/// Notes where the node at an address was freed last, and where it was retired before that; of one that is retired a
/// second time, where it was retired first.
fn tell_node(account: &mut Account, notes: &Notes, a: u32) {
    let mut until = account.at.schedule;
    if account.kind != RaceKind::Double {
        account.freed = last_before(notes, true, a, until);
    }
    if let Some(freed) = account.freed {
        until = freed.schedule;
    }
    account.retired = last_before(notes, false, a, until);
}

/// Notes of a pointer that is invalid before a step, or whose node is retired a second time, where its node was retired
/// and freed.
fn tell_pointer(
    account: &mut Account,
    notes: &Notes,
    seen: &Seen,
    op: u16,
    var: Option<Var>,
    is_alone: bool,
) {
    let Some(var) = var else {
        return;
    };
    match seen.value_before(var) {
        Some(cell) if !cell.valid || account.kind == RaceKind::Double => {
            account.pointer = Some((op, var));
            tell_node(account, notes, cell.number);
        }
        None if is_alone => account.pointer = Some((op, var)),
        _ => {}
    }
}

/// What is known of a race of a step, before which memory is as in `config`.
fn account_of(
    config: &Config,
    notes: &Notes,
    t: Option<u32>,
    step: Option<&Step>,
    race: Race,
) -> Account {
    let mut account = Account {
        at: race.at,
        kind: race.kind,
        pointer: None,
        retired: None,
        freed: None,
    };
    let (Some(t), Some(step)) = (t, step) else {
        return account;
    };
    let seen = Seen {
        memory: config.memory(),
        t,
        prims: step.prims.as_slice(),
        prim: race.prim,
    };
    let (first, second) = seen.racing_pointers();
    let is_alone = second.is_none();
    tell_pointer(&mut account, notes, &seen, step.op.0, first, is_alone);
    tell_pointer(&mut account, notes, &seen, step.op.0, second, false);
    account
}

/// Follows moves to their race, and says what is known of it.
fn account_from(
    program: &Program,
    moves: &[Move],
    run: &mut Running,
    notes: &mut Notes,
) -> Result<Option<Account>, NoMemory>
    requires indexed { IsIndexed program.now }
    requires of_run { IsRunOf program.now run.old.config }
{
    let mut line = 1u32;
    for m in moves {
        line = line.saturating_add(1);
        let before = run.config.history().len();
        let step = step_of(program, &run.config, m);
        let at = Lines {
            schedule: line,
            file: step.map(|step| step.line),
        };
        match make_again(program, run, m) {
            Ok(Moved::Race { kind, prim }) => {
                let race = Race { at, kind, prim };
                return Ok(Some(account_of(&run.config, notes, mover(m), step, race)));
            }
            Ok(Moved::Done) => notes.note(run.config.history(), before, at)?,
            Ok(Moved::Blocked | Moved::Forbidden { .. }) => {}
            Err(fault) => return Err(fault),
        }
    }
    Ok(None)
}

/// Follows moves from where a run begins, says what is known of their race, and ends the run.
fn follow_and_tell(
    program: &Program,
    moves: &[Move],
    mut run: Running,
    notes: &mut Notes,
) -> Result<Option<Account>, NoMemory>
    requires indexed { IsIndexed program.now }
    requires of_run { IsRunOf program.now run.config }
{
    let account = account_from(program, moves, &mut run, notes);
    drop(run);
    account
}

/// What is known of the race of a run. The one error is that memory runs out.
pub fn follow_to_race(
    alloc: Global,
    program: &Program,
    frees: &mut Frees,
    trail: &Trail,
) -> Result<Option<Account>, NoMemory>
    requires { IsIndexed program.now }
{
    let mut notes = Notes {
        happened: Vec::new(alloc),
    };
    match Running::begin(alloc, program, frees, trail.threads.max(1)) {
        Ok(Some(run)) => follow_and_tell(program, trail.moves.as_slice(), run, &mut notes),
        Ok(None) => Ok(None),
        Err(fault) => Err(fault),
    }
}
