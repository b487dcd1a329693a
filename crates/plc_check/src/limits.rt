// The limits of an outline: how many obligations it has, and how many clauses the ground set of each. Both are
// counted, no set is made, and no memory is taken.
ghost use Rattle.std.specs.Prelude.{◌≡◌};
ghost use Rattle.plc_vocabulary.specs.Fit.{Fits};
ghost use Rattle.plc_check.specs.Refusals.{IsPassedLimit, IsWithinLimits, IsLimited};

use crate::judged::{Judged, LoadFault};
use plc_base::What1;
use plc_oblig::{annotate, count, has_large_set};

/// The first limit that the outline passes, if it passes one.
fn passed_limit(judged: &Judged) -> Option<What1>
    requires { Fits judged.now.flow judged.now.unit_outline }
    ensures { IsPassedLimit judged.now.flow judged.now.unit_outline result }
{
    let flow = &judged.flow;
    let outline = &judged.unit_outline;
    if count(flow, outline) > What1::Obligations.most() as u64 {
        return Some(What1::Obligations);
    }
    if has_large_set(&annotate(flow, outline)) {
        return Some(What1::Clauses);
    }
    None
}

/// The limit that is passed; what is judged ends here.
fn refuse(judged: Judged, what: What1) -> What1
    ensures { result ≡ what }
{
    drop(judged);
    what
}

/// What is judged, handed on where no limit is passed.
fn hand_on(judged: Judged, passed: Option<What1>) -> Result<Judged, What1>
    requires { IsPassedLimit judged.flow judged.unit_outline passed }
    ensures { IsWithinLimits judged result }
{
    match passed {
        None => Ok(judged),
        Some(what) => Err(refuse(judged, what)),
    }
}

/// What is judged, handed on where its outline is within its limits; else the first that it passes. It takes no
/// memory.
pub(crate) fn within_limits(judged: Judged) -> Result<Judged, What1>
    requires { Fits judged.flow judged.unit_outline }
    ensures { IsWithinLimits judged result }
{
    let passed = passed_limit(&judged);
    hand_on(judged, passed)
}

/// What `load` gives of what is judged.
pub(crate) fn check_limits(judged: Judged) -> Result<Judged, LoadFault>
    requires { Fits judged.flow judged.unit_outline }
    ensures { IsLimited judged result }
{
    match within_limits(judged) {
        Ok(judged) => Ok(judged),
        Err(what) => Err(LoadFault::Limit {
            what,
            count: what.most() + 1,
        }),
    }
}
