// A walk over the obligations of an outline in their order. Going by numbers would count through all the runs before
// for each of them; a walk keeps its place, and how many clauses there are at each point.
ghost use Rattle.std.specs.Prelude.{◌≡◌, slice_get, IfOk};
ghost use Rattle.plc_vocabulary.specs.Fit.{Fits};
ghost use Rattle.plc_oblig.specs.Obligations.{obligations};
ghost use Rattle.plc_oblig.specs.Walk.{IsNextOf};

use crate::runs::{Counted, Place, count_points, next_from};
use plc_base::{Items, NoMemory};
use plc_flow::Flow;
use plc_logic::Outline;
use plc_vocabulary::Obligation;
use std::alloc::Global;
use std::marker::Model;

/// A walk over the obligations of an outline in their order, seen as the list of those that are left. All of
/// it takes time in the number of obligations and in that of steps times points. It holds one small number
/// for each point, and no list of obligations.
#[derive(Drop)]
pub struct Walk<'a> {
    flow: &'a Flow,
    outline: &'a Outline,
    counts: Items<u16>,
    at: Place,
}

impl<'a> Model for Walk<'a> {
    ghost use Rattle.std.specs.Prelude.{List};
    ghost use Rattle.plc_vocabulary.specs.declared.obligations.Obligation.{Obligation as AnObligation};

    ghost Value = { List AnObligation };

    ghost use Rattle.std.specs.Prelude.{◌≡◌};
    ghost use Rattle.plc_vocabulary.specs.Fit.{Fits};
    ghost use Rattle.plc_oblig.specs.Runs.{left_at, counts_of};

    ghost view = { λ w. left_at w.flow.now w.outline.now w.at };

    ghost invariant = { λ w. Fits w.flow.now w.outline.now × (w.counts ≡ counts_of w.flow.now w.outline.now) };
}

impl<'a> Walk<'a> {
    /// The walk from the first obligation on. It fails only where memory runs out.
    pub fn new(alloc: Global, flow: &'a Flow, outline: &'a Outline) -> Result<Walk<'a>, NoMemory>
        requires { Fits flow.now outline.now }
        ensures { IfOk result (λ walk. walk ≡ obligations flow.now outline.now) }
    {
        let counts = count_points(flow, outline);
        let counts = Vec::from_slice(alloc, &counts[..flow.points as usize])?;
        Ok(Walk {
            flow,
            outline,
            counts: Items::from_vec(counts),
            at: Place::at(0),
        })
    }

    /// The next obligation; `None` exactly where none is left. It takes no memory.
    pub fn next(&mut self) -> Option<Obligation>
        ensures { IsNextOf self.old self.new result }
    {
        let counted = Counted {
            flow: self.flow,
            outline: self.outline,
            counts: self.counts.as_slice(),
        };
        let (found, after) = next_from(counted, self.at)?;
        self.at = after;
        Some(found)
    }
}

/// The obligation with a number, counted from 0; `None` exactly where there are no more than that. It takes
/// no memory.
pub fn nth(flow: &Flow, outline: &Outline, i: u64) -> Option<Obligation>
    requires { Fits flow.now outline.now }
    ensures { result ≡ slice_get (obligations flow.now outline.now) i }
{
    let counts = count_points(flow, outline);
    let counted = Counted {
        flow,
        outline,
        counts: &counts[..flow.points as usize],
    };
    match next_from(counted, Place::at(i)) {
        None => None,
        Some(found) => Some(found.0),
    }
}
