// For each point the steps that leave it, found once: what takes many steps of one flow, as a replay or an
// inference, looks each up without a walk over all of them.
ghost use Rattle.std.specs.Prelude.{◌≡◌, ◌<◌, ◌≤◌, [], ℕ, IfOk, Some};
ghost use Rattle.std.specs.Prelude.{get_or, length, replicate, slice_get};
ghost use Rattle.std.specs.Option.{option_copied};
ghost use Rattle.plc_base.specs.declared.ids.PointId.{PointId as Point};
ghost use Rattle.plc_flow.specs.Points.{steps_from};
ghost use Rattle.plc_flow.specs.StepsByPoint.{IsIndexOf, first_points};
ghost use Rattle.plc_flow.specs.WellFormed.{IsWellFormed};

use crate::flow::{Flow, Step};
use plc_base::{Items, NoMemory, PointId};
use std::alloc::Global;

/// The numbers of the steps that leave each point, in order.
#[derive(Drop)]
pub struct StepsByPoint {
    pub rows: Items<Items<u16>>,
}

/// No step for any of so many points.
fn no_steps(alloc: Global, points: usize) -> Result<Vec<Items<u16>>, NoMemory>
    ensures { IfOk result (λ rows. rows.items ≡ replicate points []) }
{
    let mut rows = Vec::new(alloc);
    for _ in 0..points {
        rows.push(Items::new(alloc))?;
    }
    Ok(rows)
}

/// The first points of a flow's steps, in order.
fn first_points(alloc: Global, flow: &Flow) -> Result<Vec<PointId>, NoMemory>
    ensures { IfOk result (λ firsts. firsts.items ≡ first_points flow.now) }
{
    let steps = flow.steps.as_slice();
    let mut firsts = Vec::new(alloc);
    for step in steps {
        firsts.push(step.from)?;
    }
    Ok(firsts)
}

impl StepsByPoint {
    /// The index of steps with these first points, each of which is below `points`. The one error is that memory
    /// runs out.
    pub fn new(alloc: Global, points: usize, firsts: &[PointId]) -> Result<StepsByPoint, NoMemory>
        requires few { length firsts.now ≤ 65536 }
        requires within { (k : ℕ) (p : Point) → slice_get firsts.now k ≡ Some p → p.0 < points }
        ensures { IfOk result (λ index. IsIndexOf firsts.now index) }
    {
        let mut rows = no_steps(alloc, points)?;
        for k in 0..firsts.len() {
            let first = firsts[k].0 as usize;
            rows[first].push(k as u16)?;
        }
        Ok(StepsByPoint {
            rows: Items::from_vec(rows),
        })
    }

    /// The index of a flow's steps. The one error is that memory runs out.
    pub fn of_flow(alloc: Global, flow: &Flow) -> Result<StepsByPoint, NoMemory>
        requires { IsWellFormed flow.now }
        ensures { IfOk result (λ index. IsIndexOf (first_points flow.now) index) }
    {
        let firsts = first_points(alloc, flow)?;
        StepsByPoint::new(alloc, flow.points as usize, firsts.as_slice())
    }

    /// The numbers of the steps that leave a point, in order.
    pub fn leaving(&self, at: u16) -> &[u16]
        ensures { result.now ≡ get_or self.now.rows at [] }
    {
        match self.rows.get(at as usize) {
            Some(row) => row.as_slice(),
            None => &[],
        }
    }

    /// The nth of the steps that leave a point, in order of the flow's steps, if there are so many.
    pub fn nth_step<'a>(&self, flow: &'a Flow, at: u16, nth: u16) -> Option<&'a Step>
        requires { IsIndexOf (first_points flow.now) self.now }
        ensures { option_copied result ≡ slice_get (steps_from flow.now at) nth }
    {
        let k = self.leaving(at).get(nth as usize)?;
        flow.steps.get(*k as usize)
    }
}
