// Which clauses an outline puts at a point: those of the items that stand there, in their order. An `at` may name as
// many labels as a file has, so before the items are gone over it is asked once whether any label names the point:
// where none does, no item's labels are looked through.
ghost use Rattle.std.specs.Prelude.{◌≡◌, ◌≤◌, length, slice_get, option_copied};
ghost use Rattle.plc_vocabulary.specs.Points.{is_over, names_point, is_labelled, stands_at, count_at, clauses_at};
ghost use Rattle.std.specs.List.{list_any};

use plc_base::PointId;
use plc_flow::{Flow, Gate};
use plc_logic::{Clause, Item, Outline, Site};

/// Whether the point is one of the operation, other than its exit.
fn is_over(gate: Option<&Gate>, p: u16) -> bool
    ensures { result ≡ is_over (option_copied gate.entry) p }
{
    match gate {
        None => false,
        Some(gate) => gate.first <= p && p < gate.after && p != gate.exit.0,
    }
}

/// Whether the label names the point.
fn names_point(labels: &[PointId], p: u16, label: u16) -> bool
    ensures { result ≡ names_point labels.now p label }
{
    match labels.get(label as usize) {
        None => false,
        Some(named) => named.0 == p,
    }
}

/// Whether one of the labels names the point.
fn is_named(labels: &[PointId], p: u16, named: &[u16]) -> bool
    ensures { result ≡ list_any (names_point labels.now p) named.now }
{
    named.iter().any(|l| names_point(labels, p, *l))
}

/// Whether any label of the flow names the point.
pub fn is_labelled(flow: &Flow, p: u16) -> bool
    ensures { result ≡ is_labelled flow.now p }
{
    flow.labels.as_slice().iter().any(|named| named.0 == p)
}

/// Whether the item puts its clause at the point. The caller says whether any label names the point, as `is_labelled`
/// finds out once for all items; where that isn't so, the answer means nothing.
pub fn stands_at(flow: &Flow, p: u16, labelled: bool, item: &Item) -> bool
    ensures { labelled ≡ is_labelled flow.now p → result ≡ stands_at flow.now p item.now }
{
    match &item.site {
        Site::Over(op) => is_over(flow.gates.get(op.0 as usize), p),
        Site::At(named) => labelled && is_named(flow.labels.as_slice(), p, named.as_slice()),
    }
}

/// How many clauses the outline puts at a point.
pub fn count_at(flow: &Flow, outline: &Outline, p: u16) -> usize
    ensures count { result ≡ count_at flow.now outline.now p }
    ensures few { result ≤ length outline.now.items }
{
    let labelled = is_labelled(flow, p);
    let mut count = 0;
    for item in outline.items.as_slice() {
        if stands_at(flow, p, labelled, item) {
            count += 1;
        }
    }
    count
}

/// The clause with a number among those at a point, if there are so many.
pub fn clause_at<'a>(flow: &Flow, outline: &'a Outline, p: u16, clause: u16) -> Option<&'a Clause>
    ensures { option_copied result ≡ slice_get (clauses_at flow.now outline.now p) clause }
{
    let labelled = is_labelled(flow, p);
    let mut left = clause;
    for item in outline.items.as_slice() {
        if stands_at(flow, p, labelled, item) {
            if left == 0 {
                return Some(&item.clause);
            }
            left -= 1;
        }
    }
    None
}
