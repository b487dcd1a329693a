// A run that races is made short: moves are left out as long as it still races. What is left out at once are the moves
// of one thread between two moments at which it stands at the same point, or from one moment on; so a whole operation,
// a turn of a loop, and all that a thread does are among them. The longest are tried first. Each attempt is followed
// from the beginning (delta debugging, Zeller 1999), and what was made on the way, up to the race, is what is left: the
// run that is answered was made itself, and nothing rests on what was left out. Then the threads are numbered in the
// order in which they move first, and that is followed, too. At last all parts of one thread are tried, wherever it
// stands, until none can be left out. For a long run these are too many, but few for what is left by then. Of what
// can't be left out the contract says this alone.
ghost use Rattle.std.specs.Prelude.{◌≡◌, ◌⊎◌, ◌≤◌, ◌<◌, ◌+◌, ◌++◌, ℕ, IfOk, IfSome, None, OnOk, length, slice_get};
ghost use Rattle.plc_explore.specs.Following.{IsAny};
ghost use Rattle.plc_explore.specs.Leaving.{EachIsNeeded, IsNeeded, common_maker, made_by, others, without};
ghost use Rattle.plc_explore.specs.Racing.{RacesAmong};
ghost use Rattle.plc_explore.specs.Running.{MayRun};
ghost use Rattle.plc_explore.specs.Shortening.{IsLeft};

use crate::follow::{Followed, Stand, follow, same_move};
use crate::frees::Frees;
use crate::program::Program;
use crate::running::mover;
use crate::trail::Trail;
use plc_base::{Items, NoMemory};
use plc_moves::Move;
use std::alloc::Global;

/// What is left out of a run: of its moves from one number on up to another those of one thread, or the frees.
#[derive(Clone, Copy)]
struct Cut {
    by: Option<u32>,
    from: usize,
    to: usize,
}

/// Adds the same moves.
fn push_all(alloc: Global, left: &mut Items<Move>, moves: &[Move]) -> Result<(), NoMemory>
    ensures exact { OnOk result (left.new ≡ left.old ++ moves.now) }
    ensures no_more { OnOk result (length left.new ≤ length left.old + length moves.now) }
{
    for m in moves {
        left.push(same_move(alloc, m)?)?;
    }
    Ok(())
}

/// Whether a move is one of a thread, or a free.
fn is_by(m: &Move, by: Option<u32>) -> bool
    ensures { result ≡ made_by by m.now }
{
    match (mover(m), by) {
        (Some(t), Some(thread)) => t == thread,
        (None, None) => true,
        _ => false,
    }
}

/// Adds the same moves, but those of one thread, or the frees.
fn push_others(
    alloc: Global,
    left: &mut Items<Move>,
    moves: &[Move],
    by: Option<u32>,
) -> Result<(), NoMemory>
    ensures exact { OnOk result (left.new ≡ left.old ++ others by moves.now) }
    ensures no_more { OnOk result (length left.new ≤ length left.old + length moves.now) }
{
    for m in moves {
        if !is_by(m, by) {
            left.push(same_move(alloc, m)?)?;
        }
    }
    Ok(())
}

/// The moves without those that are left out.
fn without(alloc: Global, moves: &[Move], cut: Cut) -> Result<Items<Move>, NoMemory>
    ensures no_longer { IfOk result (λ left. length left ≤ length moves.now) }
    ensures exact { cut.from ≤ cut.to → cut.to ≤ length moves.now
        → IfOk result (λ left. left ≡ without cut.by cut.from cut.to moves.now) }
{
    let to = cut.to.min(moves.len());
    let from = cut.from.min(to);
    let mut left = Items::new(alloc);
    push_all(alloc, &mut left, &moves[..from])?;
    push_others(alloc, &mut left, &moves[from..to], cut.by)?;
    push_all(alloc, &mut left, &moves[to..])?;
    Ok(left)
}

/// What is left without these moves, if that races.
fn tries_without(
    alloc: Global,
    program: &Program,
    frees: &mut Frees,
    run: &Followed,
    cut: Cut,
) -> Result<Option<Followed>, NoMemory>
    requires { MayRun program.now }
    ensures left { IfOk result (IsLeft program.now (length run.now.moves)) }
    ensures any { IsAny frees.old → IsAny frees.new }
    ensures within { cut.from ≤ cut.to → cut.to ≤ length run.now.moves → IfOk result (λ left. IfSome left (λ short.
        length short.moves ≤ length (without cut.by cut.from cut.to run.now.moves))) }
    ensures none { IsAny frees.old → cut.from ≤ cut.to → cut.to ≤ length run.now.moves
        → IfOk result (λ left. left ≡ None
        → RacesAmong program.now run.now.threads (without cut.by cut.from cut.to run.now.moves) → ⊥) }
{
    let moves = without(alloc, run.moves.as_slice(), cut)?;
    follow(alloc, program, frees, run.threads, moves.as_slice())
}

/// The moves of a thread, each with where the thread stood before it.
fn moves_of(alloc: Global, run: &Followed, t: u32) -> Result<Vec<Stand>, NoMemory> {
    let mut own = Vec::new(alloc);
    for stand in &run.stands {
        if stand.t == t {
            own.push(*stand)?;
        }
    }
    Ok(own)
}

/// The moves of a thread between two of its stands at one point, so many of them, or all from one stand on.
fn round_of(own: &[Stand], from: usize, count: usize) -> Option<Cut> {
    let first = own.get(from)?;
    let to = match own.get(from.saturating_add(count)) {
        Some(next) if next.at == first.at => next.number,
        None if from.saturating_add(count) == own.len() => usize::MAX,
        _ => return None,
    };
    Some(Cut {
        by: Some(first.t),
        from: first.number,
        to,
    })
}

/// What is left without so many moves of a thread in one place, if there is one where the rest races.
fn leave_round(
    alloc: Global,
    program: &Program,
    frees: &mut Frees,
    run: &Followed,
    own: &[Stand],
    count: usize,
) -> Result<Option<Followed>, NoMemory>
    requires { MayRun program.now }
    ensures left { IfOk result (IsLeft program.now (length run.now.moves)) }
    ensures any { IsAny frees.old → IsAny frees.new }
{
    for from in 0..own.len() {
        if let Some(cut) = round_of(own, from, count) {
            match tries_without(alloc, program, frees, run, cut) {
                Ok(None) => {}
                tried => return tried,
            }
        }
    }
    Ok(None)
}

/// What is left without some of these moves of a thread, the most that go at once, if there are any.
fn leave_most(
    alloc: Global,
    program: &Program,
    frees: &mut Frees,
    run: &Followed,
    own: &[Stand],
) -> Result<Option<Followed>, NoMemory>
    requires { MayRun program.now }
    ensures left { IfOk result (IsLeft program.now (length run.now.moves)) }
    ensures any { IsAny frees.old → IsAny frees.new }
{
    for k in 0..own.len() {
        match leave_round(alloc, program, frees, run, own, own.len() - k) {
            Ok(None) => {}
            tried => return tried,
        }
    }
    Ok(None)
}

/// What is left without some moves of a thread, the most that go at once, if there are any.
fn leave_some(
    alloc: Global,
    program: &Program,
    frees: &mut Frees,
    run: &Followed,
    t: u32,
) -> Result<Option<Followed>, NoMemory>
    requires { MayRun program.now }
    ensures left { IfOk result (IsLeft program.now (length run.now.moves)) }
    ensures any { IsAny frees.old → IsAny frees.new }
{
    let own = moves_of(alloc, run, t)?;
    leave_most(alloc, program, frees, run, &own)
}

/// What is left without some moves of one thread, the first that has any that aren't needed.
fn leave_of_one(
    alloc: Global,
    program: &Program,
    frees: &mut Frees,
    run: &Followed,
) -> Result<Option<Followed>, NoMemory>
    requires { MayRun program.now }
    ensures left { IfOk result (IsLeft program.now (length run.now.moves)) }
    ensures any { IsAny frees.old → IsAny frees.new }
{
    for t in 0..run.threads {
        match leave_some(alloc, program, frees, run, t) {
            Ok(None) => {}
            tried => return tried,
        }
    }
    Ok(None)
}

/// What is left without one free, if there is one that isn't needed.
fn leave_free(
    alloc: Global,
    program: &Program,
    frees: &mut Frees,
    run: &Followed,
) -> Result<Option<Followed>, NoMemory>
    requires { MayRun program.now }
    ensures left { IfOk result (IsLeft program.now (length run.now.moves)) }
    ensures any { IsAny frees.old → IsAny frees.new }
{
    for (number, m) in run.moves.as_slice().iter().enumerate() {
        if mover(m).is_none() {
            let cut = Cut {
                by: None,
                from: number,
                to: number.saturating_add(1),
            };
            match tries_without(alloc, program, frees, run, cut) {
                Ok(None) => {}
                tried => return tried,
            }
        }
    }
    Ok(None)
}

/// What is left without some moves, if there are any that aren't needed.
fn leave_any(
    alloc: Global,
    program: &Program,
    frees: &mut Frees,
    run: &Followed,
) -> Result<Option<Followed>, NoMemory>
    requires { MayRun program.now }
    ensures left { IfOk result (IsLeft program.now (length run.now.moves)) }
    ensures any { IsAny frees.old → IsAny frees.new }
{
    match leave_of_one(alloc, program, frees, run) {
        Ok(None) => leave_free(alloc, program, frees, run),
        tried => tried,
    }
}

/// Leaves out parts between two stands at one point, and frees, until none of these can be left out.
fn leave_all(
    alloc: Global,
    program: &Program,
    frees: &mut Frees,
    mut run: Followed,
) -> Result<Followed, NoMemory>
    requires may { MayRun program.now }
    requires races { RacesAmong program.now run.threads run.moves }
    ensures races { IfOk result (λ short. RacesAmong program.now short.threads short.moves) }
    ensures no_longer { IfOk result (λ short. length short.moves ≤ length run.moves) }
    ensures any { IsAny frees.old → IsAny frees.new }
{
    for _ in 0..run.moves.len() {
        match leave_any(alloc, program, frees, &run) {
            Ok(Some(left)) => run = left,
            Ok(None) => return Ok(run),
            Err(fault) => return Err(fault),
        }
    }
    Ok(run)
}

/// The number of a thread among those that were met so far, which it joins if it is new.
fn number_among(met: &mut Vec<u32>, t: u32) -> Result<u32, NoMemory> {
    for k in 0..met.len() {
        if met[k] == t {
            return Ok(k.min(64) as u32);
        }
    }
    let k = met.len().min(64) as u32;
    met.push(t)?;
    Ok(k)
}

/// The same move by another thread.
fn by_thread(m: Move, t: u32) -> Move {
    match m {
        Move::Start { op, args, .. } => Move::Start { t, op, args },
        Move::Step { nth, addr, .. } => Move::Step { t, nth, addr },
        Move::Return { .. } => Move::Return { t },
        Move::Free { a } => Move::Free { a },
    }
}

/// The number of the thread that makes a move among those that were met so far; of a free any number.
fn mover_among(met: &mut Vec<u32>, m: &Move) -> Result<u32, NoMemory> {
    match mover(m) {
        Some(t) => number_among(met, t),
        None => Ok(0),
    }
}

/// The same moves, and how many threads make them, with threads numbered in the order in which they move first.
fn numbered(alloc: Global, moves: &[Move]) -> Result<Trail, NoMemory>
    ensures { IfOk result (λ same. length same.moves ≡ length moves.now) }
{
    let mut met = Vec::new(alloc);
    let mut same = Items::new(alloc);
    for m in moves {
        let t = mover_among(&mut met, m)?;
        let m = same_move(alloc, m)?;
        same.push(by_thread(m, t))?;
    }
    Ok(Trail {
        threads: met.len().clamp(1, 64) as u32,
        moves: same,
    })
}

/// A run with threads numbered in the order in which they move first, if it races then too; else as it is.
fn in_order(
    alloc: Global,
    program: &Program,
    frees: &mut Frees,
    run: Followed,
) -> Result<Followed, NoMemory>
    requires may { MayRun program.now }
    requires races { RacesAmong program.now run.threads run.moves }
    ensures races { IfOk result (λ short. RacesAmong program.now short.threads short.moves) }
    ensures no_longer { IfOk result (λ short. length short.moves ≤ length run.moves) }
    ensures any { IsAny frees.old → IsAny frees.new }
{
    let other = numbered(alloc, run.moves.as_slice())?;
    match follow(alloc, program, frees, other.threads, other.moves.as_slice()) {
        Ok(Some(left)) => Ok(left),
        Ok(None) => Ok(run),
        Err(fault) => Err(fault),
    }
}

/// The maker of the move with the first number, if that with the second, where there is one, is of the same.
fn maker_between(moves: &[Move], from: usize, to: usize) -> Option<Option<u32>>
    ensures { result ≡ common_maker (slice_get moves.now from) (slice_get moves.now to) }
{
    let by = mover(moves.get(from)?);
    match moves.get(to) {
        Some(next) if !is_by(next, by) => None,
        _ => Some(by),
    }
}

/// What is left without the moves of one maker from one number on up to another, if that races.
fn leave_span(
    alloc: Global,
    program: &Program,
    frees: &mut Frees,
    run: &Followed,
    from: usize,
    to: usize,
) -> Result<Option<Followed>, NoMemory>
    requires { MayRun program.now }
    ensures left { IfOk result (IsLeft program.now (length run.now.moves)) }
    ensures any { IsAny frees.old → IsAny frees.new }
    ensures shorter { from < to → to ≤ length run.now.moves
        → IfOk result (λ left. IfSome left (λ short. length short.moves < length run.now.moves)) }
    ensures none { IsAny frees.old → from < to → to ≤ length run.now.moves
        → IfOk result (λ left. left ≡ None → IsNeeded program.now run.now.threads run.now.moves from to) }
{
    let Some(by) = maker_between(run.moves.as_slice(), from, to) else {
        return Ok(None);
    };
    tries_without(alloc, program, frees, run, Cut { by, from, to })
}

/// What is left without the moves of one maker from this number on up to another, if there is one where that races.
fn leave_from(
    alloc: Global,
    program: &Program,
    frees: &mut Frees,
    run: &Followed,
    from: usize,
) -> Result<Option<Followed>, NoMemory>
    requires { MayRun program.now }
    ensures left { IfOk result (IsLeft program.now (length run.now.moves)) }
    ensures any { IsAny frees.old → IsAny frees.new }
    ensures shorter { IfOk result (λ left. IfSome left (λ short. length short.moves < length run.now.moves)) }
    ensures none { IsAny frees.old → IfOk result (λ left. left ≡ None → (to : ℕ) → from < to
        → to ≤ length run.now.moves → IsNeeded program.now run.now.threads run.now.moves from to) }
{
    for k in from..run.moves.len() {
        match leave_span(alloc, program, frees, run, from, k + 1) {
            Ok(None) => {}
            tried => return tried,
        }
    }
    Ok(None)
}

/// What is left without the moves of one maker from one of them on up to another, if there are two where that races.
fn leave_one(
    alloc: Global,
    program: &Program,
    frees: &mut Frees,
    run: &Followed,
) -> Result<Option<Followed>, NoMemory>
    requires { MayRun program.now }
    ensures left { IfOk result (IsLeft program.now (length run.now.moves)) }
    ensures any { IsAny frees.old → IsAny frees.new }
    ensures shorter { IfOk result (λ left. IfSome left (λ short. length short.moves < length run.now.moves)) }
    ensures none { IsAny frees.old → IfOk result (λ left. left ≡ None → EachIsNeeded program.now run.now.threads
        run.now.moves) }
{
    for from in 0..run.moves.len() {
        match leave_from(alloc, program, frees, run, from) {
            Ok(None) => {}
            tried => return tried,
        }
    }
    Ok(None)
}

/// Leaves out moves of one maker, from one of them on up to another or to the end, until none can be left out so.
fn leave_rest(
    alloc: Global,
    program: &Program,
    frees: &mut Frees,
    mut run: Followed,
) -> Result<Followed, NoMemory>
    requires may { MayRun program.now }
    requires races { RacesAmong program.now run.threads run.moves }
    ensures races { IfOk result (λ short. RacesAmong program.now short.threads short.moves) }
    ensures no_longer { IfOk result (λ short. length short.moves ≤ length run.moves) }
    ensures any { IsAny frees.old → IsAny frees.new }
    ensures shortest { IsAny frees.old
        → IfOk result (λ short. EachIsNeeded program.now short.threads short.moves) }
{
    for _ in 0..run.moves.len() {
        match leave_one(alloc, program, frees, &run) {
            Ok(Some(left)) => run = left,
            Ok(None) => return Ok(run),
            Err(fault) => return Err(fault),
        }
    }
    Ok(run)
}

/// The moves of a run.
fn trail_of(run: Followed) -> Trail
    ensures threads { result.threads ≡ run.threads }
    ensures moves { result.moves ≡ run.moves }
{
    Trail {
        threads: run.threads,
        moves: run.moves,
    }
}

/// Makes a run short that was followed to its race.
fn shorten_followed(
    alloc: Global,
    program: &Program,
    frees: &mut Frees,
    run: Followed,
) -> Result<Trail, NoMemory>
    requires may { MayRun program.now }
    requires races { RacesAmong program.now run.threads run.moves }
    ensures races { IfOk result (λ short. RacesAmong program.now short.threads short.moves) }
    ensures no_longer { IfOk result (λ short. length short.moves ≤ length run.moves) }
    ensures any { IsAny frees.old → IsAny frees.new }
    ensures shortest { IsAny frees.old
        → IfOk result (λ short. EachIsNeeded program.now short.threads short.moves) }
{
    let run = leave_all(alloc, program, frees, run)?;
    let run = in_order(alloc, program, frees, run)?;
    let run = leave_rest(alloc, program, frees, run)?;
    Ok(trail_of(run))
}

/// Makes a run that races short. It is followed first: where that doesn't come to a race, since a reclaimer then frees
/// other addresses, the run is answered as it was given. So what is answered races where the given run does, as each
/// does that `explore` finds. Where nobody says what is freed and the answer races, no thread's moves from one of them
/// on up to another, or to the end, can be left out so that the others still race. The one error is that memory runs
/// out.
pub fn shorten(
    alloc: Global,
    program: &Program,
    frees: &mut Frees,
    trail: Trail,
) -> Result<Trail, NoMemory>
    requires { MayRun program.now }
    ensures races { IfOk result (λ short. RacesAmong program.now trail.threads trail.moves
        → RacesAmong program.now short.threads short.moves) }
    ensures or_given { IfOk result (λ short. (RacesAmong program.now short.threads short.moves) ⊎ (short ≡ trail)) }
    ensures no_longer { IfOk result (λ short. length short.moves ≤ length trail.moves) }
    ensures shortest { IsAny frees.old → IfOk result (λ short. RacesAmong program.now short.threads short.moves
        → EachIsNeeded program.now short.threads short.moves) }
{
    match follow(alloc, program, frees, trail.threads, trail.moves.as_slice()) {
        Ok(Some(run)) => shorten_followed(alloc, program, frees, run),
        Ok(None) => Ok(trail),
        Err(fault) => Err(fault),
    }
}
