// Moves are made again, from where runs begin, up to a race. What was made is kept beside where its threads stood, so
// that a run that is answered is always one that was made itself, move by move.
ghost use Rattle.std.specs.Prelude.{◌≡◌, ◌≤◌, ◌<◌, ◌+◌, ◌++◌, ◌∷◌, [], false, IfOk, IfSome, IsTrue, None, OnOk, length};
ghost use Rattle.plc_moves.specs.declared.words.Move.TheVariants.{Free};
ghost use Rattle.plc_run.specs.Position.{threads_of};
ghost use Rattle.plc_explore.specs.Racing.{RacesAmong};
ghost use Rattle.plc_explore.specs.Running.{IsRunOf, MayRun};
ghost use Rattle.plc_explore.specs.Walking.{IsRaceOf, IsWalked};
ghost use Rattle.plc_explore.specs.Following.{FollowsOn, IsAny, IsMet, RacesFrom};

use crate::frees::Frees;
use crate::program::Program;
use crate::running::{begin, make, mover};
use plc_base::{Items, NoMemory};
use plc_moves::Move;
use plc_run::{Config, Moved};
use std::alloc::Global;

/// Where a thread stood before a move of its own: the number of the move, the thread, and the point, if it was in an
/// operation.
#[derive(Clone, Copy)]
pub struct Stand {
    pub number: usize,
    pub t: u32,
    pub at: Option<u16>,
}

/// A run that was made, up to a race, which is its last move: each free has the address that was freed.
#[derive(Drop)]
pub struct Followed {
    /// How many threads there are.
    pub threads: u32,
    /// The moves.
    pub moves: Items<Move>,
    /// Where the threads stood before each move of theirs.
    pub stands: Vec<Stand>,
}

/// The moves that were made so far, and where their threads stood.
#[derive(Drop)]
struct Made {
    moves: Items<Move>,
    stands: Vec<Stand>,
}

/// What came of one move.
#[derive(Clone, Copy)]
pub enum Met {
    /// It leads on.
    Goes,
    /// It is a race.
    Races,
    /// There is no such move.
    None,
}

/// Where the thread of a move stands before it.
fn stand_of(config: &Config, number: usize, m: &Move) -> Option<Stand> {
    let t = mover(m)?;
    let at = match config.point(t) {
        Some(point) => Some(point.at),
        None => None,
    };
    Some(Stand { number, t, at })
}

/// The same numbers.
fn same_numbers(alloc: Global, numbers: &Items<u32>) -> Result<Items<u32>, NoMemory>
    ensures { IfOk result (λ same. same ≡ numbers.now) }
{
    let numbers = Vec::from_slice(alloc, numbers.as_slice())?;
    Ok(Items::from_vec(numbers))
}

/// The same move.
pub fn same_move(alloc: Global, m: &Move) -> Result<Move, NoMemory>
    ensures { IfOk result (λ same. same ≡ m.now) }
{
    match m {
        Move::Start { t, op, args } => {
            let args = same_numbers(alloc, args)?;
            Ok(Move::Start {
                t: *t,
                op: *op,
                args,
            })
        }
        Move::Step { t, nth, addr } => Ok(Move::Step {
            t: *t,
            nth: *nth,
            addr: *addr,
        }),
        Move::Return { t } => Ok(Move::Return { t: *t }),
        Move::Free { a } => Ok(Move::Free { a: *a }),
    }
}

impl Made {
    /// Keeps a move that was made, and where its thread stood before it.
    fn keep(&mut self, m: Move, stand: Option<Stand>) -> Result<(), NoMemory>
        ensures { OnOk result (self.new.moves ≡ self.old.moves ++ m ∷ []) }
    {
        if let Some(stand) = stand {
            self.stands.push(stand)?;
        }
        self.moves.push(m)?;
        Ok(())
    }

    /// Makes a move, if there is one now, and keeps it.
    fn make(
        &mut self,
        program: &Program,
        config: &mut Config,
        frees: &mut Frees,
        m: Move,
    ) -> Result<Met, NoMemory>
        requires of_run { IsRunOf program.now config.old }
        requires walked { IsWalked program.now self.old.moves config.old }
        ensures of_run { IsRunOf program.now config.new }
        ensures many { threads_of config.new ≡ threads_of config.old }
        ensures met { IfOk result (λ met. IsMet program.now met self.new.moves config.new) }
        ensures one_more { IfOk result (λ met. length self.new.moves ≤ length self.old.moves + 1) }
        ensures any { IsAny frees.old → IsAny frees.new }
        ensures follows { config.old.ended ≡ false → IfOk result (λ met.
            FollowsOn program.now config.old m met config.new) }
    {
        let stand = stand_of(config, self.moves.len(), &m);
        match make(config, frees, program, &m) {
            Ok(Moved::Done) => {
                self.keep(m, stand)?;
                Ok(Met::Goes)
            }
            Ok(Moved::Race { .. }) => {
                self.keep(m, stand)?;
                Ok(Met::Races)
            }
            Ok(Moved::Blocked | Moved::Forbidden { .. }) => Ok(Met::None),
            Err(fault) => Err(fault),
        }
    }

    /// Frees an address; where it may not be freed now, nothing happens.
    fn free(
        &mut self,
        program: &Program,
        config: &mut Config,
        frees: &mut Frees,
        a: u32,
    ) -> Result<Met, NoMemory>
        requires of_run { IsRunOf program.now config.old }
        requires walked { IsWalked program.now self.old.moves config.old }
        ensures of_run { IsRunOf program.now config.new }
        ensures many { threads_of config.new ≡ threads_of config.old }
        ensures met { IfOk result (λ met. IsMet program.now met self.new.moves config.new) }
        ensures one_more { IfOk result (λ met. length self.new.moves ≤ length self.old.moves + 1) }
        ensures any { IsAny frees.old → IsAny frees.new }
        ensures follows { config.old.ended ≡ false → IfOk result (λ met.
            FollowsOn program.now config.old (Free a) met config.new) }
    {
        match self.make(program, config, frees, Move::Free { a }) {
            Ok(Met::None) => Ok(Met::Goes),
            made => made,
        }
    }

    /// Makes a recorded move again. A free is that of the address that is to be freed now; where there is none, nothing
    /// happens.
    fn make_again(
        &mut self,
        alloc: Global,
        program: &Program,
        config: &mut Config,
        frees: &mut Frees,
        m: &Move,
    ) -> Result<Met, NoMemory>
        requires of_run { IsRunOf program.now config.old }
        requires walked { IsWalked program.now self.old.moves config.old }
        ensures of_run { IsRunOf program.now config.new }
        ensures many { threads_of config.new ≡ threads_of config.old }
        ensures met { IfOk result (λ met. IsMet program.now met self.new.moves config.new) }
        ensures one_more { IfOk result (λ met. length self.new.moves ≤ length self.old.moves + 1) }
        ensures any { IsAny frees.old → IsAny frees.new }
        ensures follows { IsAny frees.old → config.old.ended ≡ false → IfOk result (λ met.
            FollowsOn program.now config.old m.now met config.new) }
    {
        if let Move::Free { a } = m {
            return match frees.again(*a) {
                Some(a) => self.free(program, config, frees, a),
                None => Ok(Met::Goes),
            };
        }
        let m = same_move(alloc, m)?;
        self.make(program, config, frees, m)
    }

    /// Makes recorded moves again, up to the first race, and answers whether there is one.
    fn make_all(
        &mut self,
        alloc: Global,
        program: &Program,
        config: &mut Config,
        frees: &mut Frees,
        moves: &[Move],
    ) -> Result<bool, NoMemory>
        requires of_run { IsRunOf program.now config.old }
        requires walked { IsWalked program.now self.old.moves config.old }
        requires none { self.old.moves ≡ [] }
        ensures many { threads_of config.new ≡ threads_of config.old }
        ensures races { IfOk result (λ races. IsTrue races → IsRaceOf program.now config.new self.new.moves) }
        ensures no_longer { IfOk result (λ races. length self.new.moves ≤ length moves.now) }
        ensures any { IsAny frees.old → IsAny frees.new }
        ensures none { IsAny frees.old → config.old.ended ≡ false → IfOk result (λ races. races ≡ false
            → RacesFrom program.now config.old moves.now → ⊥) }
    {
        for m in moves {
            match self.make_again(alloc, program, config, frees, m) {
                Ok(Met::Goes) => {}
                Ok(Met::Races) => return Ok(true),
                Ok(Met::None) => return Ok(false),
                Err(fault) => return Err(fault),
            }
        }
        Ok(false)
    }
}

/// Makes recorded moves again from where a run begins, and ends the run.
fn make_and_end(
    alloc: Global,
    program: &Program,
    mut config: Config,
    frees: &mut Frees,
    moves: &[Move],
) -> Result<Option<Made>, NoMemory>
    requires of_run { IsRunOf program.now config }
    requires begins { IsWalked program.now [] config }
    ensures races { IfOk result (λ found. IfSome found (λ made.
        RacesAmong program.now (threads_of config) made.moves)) }
    ensures no_longer { IfOk result (λ found. IfSome found (λ made. length made.moves ≤ length moves.now)) }
    ensures any { IsAny frees.old → IsAny frees.new }
    ensures none { IsAny frees.old → config.ended ≡ false → IfOk result (λ found. found ≡ None
        → RacesFrom program.now config moves.now → ⊥) }
{
    let mut made = Made {
        moves: Items::new(alloc),
        stands: Vec::new(alloc),
    };
    let races = made.make_all(alloc, program, &mut config, frees, moves);
    match races {
        Ok(true) => Ok(Some(made)),
        Ok(false) => Ok(None),
        Err(fault) => Err(fault),
    }
}

/// What was made of recorded moves among so many threads, if there is a race.
fn make_from_beginning(
    alloc: Global,
    program: &Program,
    frees: &mut Frees,
    threads: u32,
    moves: &[Move],
) -> Result<Option<Made>, NoMemory>
    requires may { MayRun program.now }
    requires some { 0 < threads }
    ensures races { IfOk result (λ found. IfSome found (λ made. RacesAmong program.now threads made.moves)) }
    ensures no_longer { IfOk result (λ found. IfSome found (λ made. length made.moves ≤ length moves.now)) }
    ensures any { IsAny frees.old → IsAny frees.new }
    ensures none { IsAny frees.old → IfOk result (λ found. found ≡ None
        → RacesAmong program.now threads moves.now → ⊥) }
{
    match begin(alloc, program, frees, threads) {
        Ok(Some(config)) => make_and_end(alloc, program, config, frees, moves),
        Ok(None) => Ok(None),
        Err(fault) => Err(fault),
    }
}

/// Makes recorded moves again, from where runs begin, up to the first race. If there is one, the run that was made is
/// answered. Where a reclaimer picks what is freed, a free stands for asking it.
pub fn follow(
    alloc: Global,
    program: &Program,
    frees: &mut Frees,
    threads: u32,
    moves: &[Move],
) -> Result<Option<Followed>, NoMemory>
    requires { MayRun program.now }
    ensures races { IfOk result (λ found. IfSome found (λ run. RacesAmong program.now run.threads run.moves)) }
    ensures no_longer { IfOk result (λ found. IfSome found (λ run. length run.moves ≤ length moves.now)) }
    ensures any { IsAny frees.old → IsAny frees.new }
    ensures none { IsAny frees.old → IfOk result (λ found. found ≡ None
        → RacesAmong program.now threads moves.now → ⊥) }
{
    let threads = threads.max(1);
    match make_from_beginning(alloc, program, frees, threads, moves) {
        Ok(Some(made)) => Ok(Some(Followed {
            threads,
            moves: made.moves,
            stands: made.stands,
        })),
        Ok(None) => Ok(None),
        Err(fault) => Err(fault),
    }
}
