// Which obligations there are, and in which order: the one coding of it, on which counting, finding and walking stand.
// The list is made of groups, a group of parts, and a part has a run of obligations that differ in one number. So an
// obligation is found by a part and a number, and whole runs are passed by their lengths. No list is made: there may
// be a million. How many clauses there are at each point is asked again and again, so it is counted first; the table
// of it stands in an array, since those who count or find take no memory.
ghost use Rattle.std.specs.Prelude.{◌≡◌, ◌<◌, ◌≤◌, ◌+◌, ◌*◌, length, slice_get, take, Some};
ghost use Rattle.plc_base.specs.Limits.{most};
ghost use Rattle.plc_base.specs.declared.limits.What1.TheVariants as limits;
ghost use Rattle.plc_lang.specs.WellSorted.{is_claim};
ghost use Rattle.plc_vocabulary.specs.Points.{count_at};
ghost use Rattle.plc_vocabulary.specs.Fit.{Fits};
ghost use Rattle.plc_vocabulary.specs.Parts.{step_prims};
ghost use Rattle.plc_oblig.specs.Runs.{groups, one_if, parts_of, count_in, in_part, counts_of, left_at, IsFoundFrom};
ghost use Rattle.plc_oblig.specs.Runs.{IsFirst};

use plc_base::{OpId, PointId, StepId};
use plc_flow::Flow;
use plc_lang::Prim;
use plc_logic::Outline;
use plc_vocabulary::{Obligation, count_at, executed};

/// A group of obligations, in the order of the list: there is one each of the last two kinds for each step.
#[derive(Clone, Copy)]
pub(crate) enum Group {
    /// On the invariants after `init`, all in one part.
    Starts,
    /// On the entries of operations, by operations.
    Entries,
    /// On what steps lead their own threads to, by steps.
    OwnSteps,
    /// Of one step on the clauses of another thread, by points.
    AtPoints(StepId),
    /// Of one step on its claims, by primitives.
    Claims(StepId),
}

/// An outline, with the number of clauses at each point.
#[derive(Clone, Copy)]
pub(crate) struct Counted<'a> {
    pub(crate) flow: &'a Flow,
    pub(crate) outline: &'a Outline,
    pub(crate) counts: &'a [u16],
    ghost each: { counts.now ≡ counts_of flow.now outline.now },
}

/// How many clauses there are at each point of a flow, and what else the array holds.
pub(crate) fn count_points(flow: &Flow, outline: &Outline) -> [u16; 4096]
    requires { Fits flow.now outline.now }
    ensures { take flow.now.points result ≡ counts_of flow.now outline.now }
{
    let mut counts = [0; 4096];
    for p in 0..flow.points {
        counts[p as usize] = count_at(flow, outline, p) as u16;
    }
    counts
}

/// How many clauses there are at a point.
fn count_of(o: Counted<'_>, p: PointId) -> u16
    requires point { p.0 < o.flow.now.points }
    requires fits { Fits o.flow.now o.outline.now }
    ensures count { result ≡ count_at o.entry.flow.now o.entry.outline.now p.0 }
    ensures few { result ≤ most limits.Items }
{
    o.counts[p.0 as usize]
}

/// How many groups there are.
pub(crate) fn group_count(flow: &Flow) -> usize
    requires { length flow.now.steps < 65536 }
    ensures { result ≡ 3 + 2 * length flow.now.steps }
{
    3 + 2 * flow.steps.len()
}

/// The group with a number.
pub(crate) fn group_at(flow: &Flow, g: usize) -> Group
    requires few { length flow.now.steps < 65536 }
    requires there { g < 3 + 2 * length flow.now.steps }
    ensures { slice_get (groups flow.now) g ≡ Some result }
{
    let steps = flow.steps.len();
    if g < 1 {
        return Group::Starts;
    }
    if g < 2 {
        return Group::Entries;
    }
    if g < 3 {
        return Group::OwnSteps;
    }
    if g - 3 < steps {
        return Group::AtPoints(StepId((g - 3) as u16));
    }
    Group::Claims(StepId((g - 3 - steps) as u16))
}

/// The primitives of a step.
fn prims_of(flow: &Flow, step: StepId) -> &[Prim]
    ensures { result.now ≡ step_prims flow.now step.0 }
{
    executed(flow, &Obligation::Own { step, clause: 0 })
}

/// Whether the primitive is a claim.
fn is_claim(prim: &Prim) -> bool
    ensures { result ≡ is_claim prim.now }
{
    matches!(prim, Prim::Active { .. })
}

/// One for a claim.
fn one_if(claim: bool) -> u16
    ensures { result ≡ one_if claim }
{
    if claim { 1 } else { 0 }
}

/// How many parts a group has.
pub(crate) fn parts_of(flow: &Flow, outline: &Outline, group: Group) -> u16
    requires { Fits flow.now outline.now }
    ensures { result ≡ parts_of flow.now group }
{
    match group {
        Group::Starts => 1,
        Group::Entries => flow.gates.len() as u16,
        Group::OwnSteps => flow.steps.len() as u16,
        Group::AtPoints(_) => flow.points,
        Group::Claims(step) => prims_of(flow, step).len() as u16,
    }
}

/// How many obligations a part has.
pub(crate) fn count_in(o: Counted<'_>, group: Group, k: u16) -> u16
    requires fits { Fits o.flow.now o.outline.now }
    requires part { k < parts_of o.flow.now group }
    ensures { result ≡ count_in o.entry.flow.now o.entry.outline.now group k }
{
    match group {
        Group::Starts => o.outline.invariants.len() as u16,
        Group::Entries => count_of(o, o.flow.gates.as_slice()[k as usize].entry),
        Group::OwnSteps => {
            o.outline.invariants.len() as u16 + count_of(o, o.flow.steps.as_slice()[k as usize].to)
        }
        Group::AtPoints(_) => count_of(o, PointId(k)),
        Group::Claims(step) => one_if(is_claim(&prims_of(o.flow, step)[k as usize])),
    }
}

/// The obligation of a part with a number.
fn in_part(group: Group, k: u16, number: u16) -> Obligation
    ensures { result ≡ in_part group k number }
{
    match group {
        Group::Starts => Obligation::Start { inv: number },
        Group::Entries => Obligation::Enter {
            op: OpId(k),
            clause: number,
        },
        Group::OwnSteps => Obligation::Own {
            step: StepId(k),
            clause: number,
        },
        Group::AtPoints(step) => Obligation::Other {
            step,
            point: PointId(k),
            clause: number,
        },
        Group::Claims(step) => Obligation::Claim { step, prim: k },
    }
}

/// A place in the list: so many obligations after the beginning of a part of a group.
#[derive(Clone, Copy)]
pub(crate) struct Place {
    /// The number of the group.
    pub(crate) group: usize,
    pub(crate) part: u16,
    pub(crate) number: u64,
}

impl Place {
    /// The place so many obligations after the beginning.
    pub(crate) fn at(number: u64) -> Place
        ensures { result ≡ record { group = 0; part = 0; number = number } }
    {
        Place {
            group: 0,
            part: 0,
            number,
        }
    }
}

/// The part of a group and the number in its run, so many obligations after the beginning of a part, or what is left
/// of the number after the group.
fn find_in(o: Counted<'_>, group: Group, part: u16, number: u64) -> Result<(u16, u16), u64>
    requires { Fits o.flow.now o.outline.now }
    ensures { IsFoundFrom o.entry.flow.now o.entry.outline.now group part number result }
{
    let mut left = number;
    for k in part..parts_of(o.flow, o.outline, group) {
        let count = count_in(o, group, k) as u64;
        if left < count {
            return Ok((k, left as u16));
        }
        left -= count;
    }
    Err(left)
}

/// The obligation at a place, or the first after it, and the place after that. It takes no memory.
pub(crate) fn next_from(o: Counted<'_>, at: Place) -> Option<(Obligation, Place)>
    requires { Fits o.flow.now o.outline.now }
    ensures { IsFirst o.entry.flow.now o.entry.outline.now (left_at o.entry.flow.now o.entry.outline.now at) result }
{
    let mut part = at.part;
    let mut left = at.number;
    for g in at.group..group_count(o.flow) {
        let group = group_at(o.flow, g);
        match find_in(o, group, part, left) {
            Ok(found) => {
                let after = Place {
                    group: g,
                    part: found.0,
                    number: found.1 as u64 + 1,
                };
                return Some((in_part(group, found.0, found.1), after));
            }
            Err(rest) => left = rest,
        }
        part = 0;
    }
    None
}
