// The items of a ground set before the negated conclusion, in order. They are written apart from it, since obligations
// of one step share them.
ghost use Rattle.std.specs.Prelude.{◌≡◌, ◌<◌, length, OnOk, IfOk};
ghost use Rattle.plc_symbolic.specs.Numbering.{written_all};
ghost use Rattle.plc_vocabulary.specs.Fit.{Fits};
ghost use Rattle.plc_vocabulary.specs.Setting.{setting_of};
ghost use Rattle.plc_encoding.specs.Execution.{start, after_all};
ghost use Rattle.plc_encoding.specs.Items.{premises, prefix_of};

use crate::beginning::push_beginning;
use crate::execution::{Execution, push_executed};
use crate::freshness::push_freshness;
use crate::instances::{Premises, push_invariants, push_point};
use crate::marks::push_mark_values;
use crate::subject::Subject;
use crate::values::push_values;
use plc_base::NoMemory;
use plc_symbolic::Draft;
use plc_vocabulary::{acting_point, invariants_before, owner_point};

/// Writes the instances of all clauses that hold before the step.
fn push_premises(w: &Subject, out: &mut Draft) -> Result<(), NoMemory>
    requires { Fits w.now.flow.now w.now.outline.now }
    ensures { OnOk result (out.new ≡ written_all out.old
        (premises w.now.flow.now w.now.outline.now w.now.setting.now w.now.obligation.now)) }
{
    let before = Execution::new(w.alloc);
    let acting = Premises {
        alloc: w.alloc,
        ghosts: w.flow.file.ghosts.as_slice(),
        before: &before,
        setting: w.setting,
        owner: false,
    };
    let owner = Premises {
        owner: true,
        ..acting
    };
    push_invariants(&acting, invariants_before(w.outline, w.obligation), out)?;
    let point = acting_point(w.flow, w.obligation);
    push_point(&acting, w.flow, w.outline, point, out)?;
    push_point(&owner, w.flow, w.outline, owner_point(w.obligation), out)
}

/// Writes the clauses of the obligation's ground set that stand before the negated conclusion. What was executed by
/// then is what [`push_conclusion`] reads the conclusion after.
pub fn push_prefix(w: &Subject, out: &mut Draft) -> Result<Execution, NoMemory>
    requires fits { Fits w.now.flow.now w.now.outline.now }
    requires setting { w.now.setting.now ≡ setting_of w.now.flow.now w.now.outline.now w.now.obligation.now }
    ensures clauses { OnOk result (out.new ≡ written_all out.old
        (prefix_of w.now.flow.now w.now.outline.now w.now.setting.now w.now.obligation.now)) }
    ensures after { IfOk result (λ x. x ≡ after_all start w.now.setting.now.acts) }
    ensures few { IfOk result (λ x. length x.written < 65536) }
{
    let s = w.setting;
    push_values(
        w.alloc,
        w.flow.file.ghosts.as_slice(),
        s.nodes.as_slice(),
        out,
    )?;
    push_mark_values(s, out)?;
    push_beginning(w.flow, s, w.obligation, out)?;
    push_freshness(&w.flow.file, s, out)?;
    push_premises(w, out)?;
    let x = push_executed(w.alloc, s.acts.as_slice(), s.nodes.as_slice(), out)?;
    Ok(x)
}
