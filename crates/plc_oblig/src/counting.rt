// How many obligations there are, group by group. Each step has as many at the points of another thread as any other,
// so those are counted once.
ghost use Rattle.std.specs.Prelude.{◌≡◌, ◌≤◌, ◌*◌, length};
ghost use Rattle.plc_vocabulary.specs.Fit.{Fits};
ghost use Rattle.plc_oblig.specs.declared.runs.Group.TheVariants.{AtPoints};
ghost use Rattle.plc_oblig.specs.Obligations.{step_id, obligations};
ghost use Rattle.plc_oblig.specs.Runs.{runs};

use crate::runs::{Counted, Group, count_in, count_points, group_at, group_count, parts_of};
use plc_base::StepId;
use plc_flow::Flow;
use plc_logic::Outline;

/// How many obligations a group has.
fn count_group(o: Counted<'_>, group: Group) -> u64
    requires { Fits o.flow.now o.outline.now }
    ensures count { result ≡ length (runs o.entry.flow.now o.entry.outline.now group) }
    ensures few { result ≤ 65536 * 65536 }
{
    let mut total = 0;
    for k in 0..parts_of(o.flow, o.outline, group) {
        total += count_in(o, group, k) as u64;
    }
    total
}

/// How many a group has, where it is known how many each step has at the points of another thread.
fn count_knowing(o: Counted<'_>, group: Group, each: u64) -> u64
    requires fits { Fits o.flow.now o.outline.now }
    requires each { each ≡ length (runs o.flow.now o.outline.now (AtPoints (step_id 0))) }
    requires few { each ≤ 65536 * 65536 }
    ensures count { result ≡ length (runs o.entry.flow.now o.entry.outline.now group) }
    ensures few { result ≤ 65536 * 65536 }
{
    match group {
        Group::AtPoints(_) => each,
        _ => count_group(o, group),
    }
}

/// How many obligations an outline has. It takes no memory.
pub fn count(flow: &Flow, outline: &Outline) -> u64
    requires { Fits flow.now outline.now }
    ensures { result ≡ length (obligations flow.now outline.now) }
{
    let counts = count_points(flow, outline);
    let counted = Counted {
        flow,
        outline,
        counts: &counts[..flow.points as usize],
    };
    let each = count_group(counted, Group::AtPoints(StepId(0)));
    let mut total = 0;
    for g in 0..group_count(flow) {
        total += count_knowing(counted, group_at(flow, g), each);
    }
    total
}
