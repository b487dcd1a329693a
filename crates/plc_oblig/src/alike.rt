// Obligations that are alike. While one thread takes a step, another may stand at many points of its operation at
// which the outline puts the same clauses. Nothing else of the point is in the ground set, so all these obligations
// have one set, and who goes over them needs to look at it once. The stack with hazard pointers has 2,845
// obligations, of which some 700 are left for `certify`, and some 170 for `check`, which makes none for still ones.
ghost use Rattle.std.specs.Prelude.{◌≡◌, ◌⊎◌, ℕ, [], Contains, OnOk, IfSome};
ghost use Rattle.std.specs.List.{list_all};
ghost use Rattle.plc_vocabulary.specs.declared.obligations.Obligation.{Obligation as AnObligation};
ghost use Rattle.plc_vocabulary.specs.Points.{is_labelled};
ghost use Rattle.plc_oblig.specs.Alike.{share_gate, share_item, are_points_alike, are_alike};
ghost use Rattle.plc_oblig.specs.Alike.{AlikeObligationsHaveOneSet, IsNotedAs};

use plc_base::{NoMemory, PointId, StepId, same_bool};
use plc_flow::{Flow, Gate};
use plc_logic::{Item, Outline};
use plc_vocabulary::{Obligation, has_point, is_labelled, stands_at};
use std::alloc::Global;
use std::marker::Model;

/// With how many points an obligation is compared at most, those that were noted last, before its ground set is made.
/// With this many that costs less than making the set.
const MOST_COMPARED: usize = 32;

/// Whether both points lie in the operation, or neither does.
fn share_gate(p: u16, q: u16, gate: &Gate) -> bool
    ensures { result ≡ share_gate p q gate.now }
{
    same_bool(has_point(gate, p), has_point(gate, q))
}

/// Whether the item stands at both points, or at neither; of each it is known whether any label names it.
fn share_item(flow: &Flow, p: (u16, bool), q: (u16, bool), item: &Item) -> bool
    requires first { p.1 ≡ is_labelled flow.now p.0 }
    requires second { q.1 ≡ is_labelled flow.now q.0 }
    ensures { result ≡ share_item flow.now p.0 q.0 item.now }
{
    same_bool(
        stands_at(flow, p.0, p.1, item),
        stands_at(flow, q.0, q.1, item),
    )
}

/// Whether each operation has both points or neither.
fn share_gates(gates: &[Gate], p: u16, q: u16) -> bool
    ensures { result ≡ list_all (share_gate p q) gates.now }
{
    gates.iter().all(|gate| share_gate(p, q, gate))
}

/// Whether each item stands at both points or at neither.
fn share_items(flow: &Flow, items: &[Item], p: u16, q: u16) -> bool
    ensures { result ≡ list_all (share_item flow.now p q) items.now }
{
    let first = (p, is_labelled(flow, p));
    let second = (q, is_labelled(flow, q));
    items
        .iter()
        .all(|item| share_item(flow, first, second, item))
}

/// Whether the points belong to one operation, and the outline puts the same clauses there.
fn are_points_alike(flow: &Flow, outline: &Outline, p: u16, q: u16) -> bool
    ensures { result ≡ are_points_alike flow.now outline.now p q }
{
    share_gates(flow.gates.as_slice(), p, q) && share_items(flow, outline.items.as_slice(), p, q)
}

/// Whether both say the same clause of another thread after the same step, at points that are alike.
fn are_alike(flow: &Flow, outline: &Outline, a: &Obligation, b: &Obligation) -> bool
    ensures { result ≡ are_alike flow.now outline.now a.now b.now }
{
    match (*a, *b) {
        (
            Obligation::Other {
                step,
                point,
                clause,
            },
            Obligation::Other {
                step: other,
                point: at,
                clause: number,
            },
        ) => {
            step.0 == other.0 && clause == number && are_points_alike(flow, outline, point.0, at.0)
        }
        _ => false,
    }
}

/// Obligations that are alike have one ground set.
pub fn alike_obligations_have_one_set()
    ensures { AlikeObligationsHaveOneSet }
{}

/// Obligations that were looked at, each with a number that whoever notes it gives. Those of one step alone are kept,
/// in the order in which they were noted. However many clauses a point has, an obligation is compared with one entry of
/// it: the one as many entries after the point's first as the obligation's clause has clauses before it. Where all
/// clauses of the point were noted in their order, that is the entry of this clause. Where one was left out, as a still
/// one may be, those after it stand nearer to the first, and may not be found.
#[derive(Drop)]
pub struct AlikeObligations {
    entries: Vec<(Obligation, usize)>,
    /// At which entry each point begins.
    starts: Vec<usize>,
}

impl Model for AlikeObligations {
    ghost use Rattle.std.specs.Prelude.{List, ℕ};
    ghost use Rattle.plc_vocabulary.specs.declared.obligations.Obligation.{Obligation};

    ghost Value = { List (Obligation × ℕ) };

    ghost view = { λ n. n.entries.items };
}

/// The step, the point of another thread and the number of its clause, where the obligation is of that kind.
fn place_of(o: &Obligation) -> Option<(StepId, PointId, u16)> {
    match *o {
        Obligation::Other {
            step,
            point,
            clause,
        } => Some((step, point, clause)),
        _ => None,
    }
}

/// The last places, as many as an obligation is compared with.
fn last_of(starts: &[usize]) -> &[usize] {
    if starts.len() > MOST_COMPARED {
        return &starts[starts.len() - MOST_COMPARED..];
    }
    starts
}

impl AlikeObligations {
    /// None. It takes no memory.
    pub fn new(alloc: Global) -> AlikeObligations
        ensures { result ≡ [] }
    {
        AlikeObligations {
            entries: Vec::new(alloc),
            starts: Vec::new(alloc),
        }
    }

    /// The entry so many after a place, if there are so many.
    fn entry_after(&self, start: usize, number: u16) -> Option<(Obligation, usize)>
        ensures { IfSome result (Contains self.now) }
    {
        let place = start.checked_add(number as usize)?;
        self.entries.get(place).copied()
    }

    /// The number of the entry so many after a place, if it is alike.
    fn alike_after(
        &self,
        start: usize,
        number: u16,
        flow: &Flow,
        outline: &Outline,
        o: &Obligation,
    ) -> Option<usize>
        ensures { IfSome result (IsNotedAs flow.now outline.now self.now o.now) }
    {
        let (noted, at) = self.entry_after(start, number)?;
        if are_alike(flow, outline, o, &noted) {
            return Some(at);
        }
        None
    }

    /// The number of an obligation that was noted and has the same ground set. None says only that none was found: such
    /// an obligation may be forgotten, stand elsewhere, or be of a point before the last ones that are compared.
    pub fn find(&self, flow: &Flow, outline: &Outline, o: &Obligation) -> Option<usize>
        ensures { IfSome result (IsNotedAs flow.now outline.now self.now o.now) }
    {
        let (_, _, number) = place_of(o)?;
        for start in last_of(self.starts.as_slice()) {
            let found = self.alike_after(*start, number, flow, outline, o);
            if found.is_some() {
                return found;
            }
        }
        None
    }

    /// The step and the point of the last entry.
    fn last_place(&self) -> Option<(StepId, PointId)> {
        let (noted, _) = self.entries.last()?;
        let (step, point, _) = place_of(noted)?;
        Some((step, point))
    }

    /// Notes where the entries of a point begin, if none of it is the last, and forgets what is noted of another step.
    fn begin(&mut self, step: StepId, point: PointId) -> Result<(), NoMemory>
        ensures { OnOk result ((x : AnObligation × ℕ) → Contains self.new x → Contains self.old x) }
    {
        match self.last_place() {
            Some((s, p)) if s.0 == step.0 && p.0 == point.0 => return Ok(()),
            Some((s, _)) if s.0 == step.0 => {}
            _ => {
                self.entries.clear();
                self.starts.clear();
            }
        }
        self.starts.push(self.entries.len())?;
        Ok(())
    }

    /// Notes an obligation, if others may be alike. Those of another step are forgotten. It fails only where memory
    /// runs out.
    pub fn note(&mut self, o: &Obligation, at: usize) -> Result<(), NoMemory>
        ensures { OnOk result ((x : AnObligation × ℕ) → Contains self.new x
            → Contains self.old x ⊎ (x ≡ (o.now, at))) }
    {
        let Some((step, point, _)) = place_of(o) else {
            return Ok(());
        };
        self.begin(step, point)?;
        self.entries.push((*o, at))?;
        Ok(())
    }
}
