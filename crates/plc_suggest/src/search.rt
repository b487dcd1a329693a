// One spot after another is left out where the program stays typable without it. A row of spots goes at once where
// none of it is needed: a typing without the whole row is one with any part of it. While rows can go they double; a row
// that can't is halved, down to the spot that is needed, so that a needed spot costs a logarithm of trials.
ghost use Rattle.std.specs.Prelude.{◌≤◌, ◌<◌, IfOk};
ghost use Rattle.plc_flow.specs.Skeleton.{skeleton_of};
ghost use Rattle.plc_suggest.specs.Needed.{AreNeeded};
ghost use Rattle.plc_suggest.specs.Trials.{AreParts, IsReached};

use crate::parts::Parts;
use crate::spot::Spot;
use crate::trial::try_without;
use plc_base::NoMemory;
use plc_type::Env;
use std::alloc::Global;

/// The longest row of spots that is tried at once: as many as there may be, so that doubling can't overflow.
const LONGEST_ROW: usize = 4096;

/// The spots that are needed. `envs` is the strongest typing of the program with a claim at every spot.
pub(crate) fn needed_spots(
    alloc: Global,
    parts: &Parts,
    mut envs: Vec<Env>,
) -> Result<Vec<Spot>, NoMemory>
    requires parts { AreParts parts.now }
    requires reached { IsReached parts.now parts.now.spots.now envs.items }
    ensures { IfOk result (λ spots. AreNeeded parts.now.observer.now (skeleton_of parts.now.flow.now) spots.items) }
{
    let spots = parts.spots;
    let mut kept = Vec::new(alloc);
    let mut at = 0;
    let mut row = 1;
    let mut grows = true;
    while at < spots.len() {
        let count = fitting(row, spots.len() - at);
        if try_without(alloc, parts, &kept, at, at + count, &mut envs)? {
            at += count;
            row = next_row(row, grows);
        } else if count == 1 {
            kept.push(spots[at])?;
            at += 1;
            row = 1;
            grows = true;
        } else {
            row = shorter(count);
            grows = false;
        }
    }
    Ok(kept)
}

/// A row that is no longer than what is left.
fn fitting(row: usize, left: usize) -> usize
    ensures most { result ≤ left }
    ensures less { result ≤ row }
    ensures some { 1 ≤ row → 1 ≤ left → 1 ≤ result }
{
    row.min(left)
}

/// The row after one that could go: a longer one, unless a needed spot is known to be near.
fn next_row(row: usize, grows: bool) -> usize
    requires few { row ≤ 4096 }
    requires some { 1 ≤ row }
    ensures some { 1 ≤ result }
    ensures most { result ≤ 4096 }
{
    if grows { longer(row) } else { shorter(row) }
}

/// The row after one that could go, while no needed spot is known to be near.
fn longer(row: usize) -> usize
    requires few { row ≤ 4096 }
    requires some { 1 ≤ row }
    ensures some { 1 ≤ result }
    ensures most { result ≤ 4096 }
{
    (row * 2).min(LONGEST_ROW)
}

/// Half a row, but one spot at least.
fn shorter(row: usize) -> usize
    ensures some { 1 ≤ result }
    ensures less { 1 < row → result < row }
    ensures most { 1 ≤ row → result ≤ row }
    ensures one { row ≤ 1 → result ≤ 1 }
{
    (row / 2).max(1)
}
