// Where a replay begins, before line 1 of the schedule: the reclaimer knows the schemes of the file and nothing else.
ghost use Rattle.std.specs.Prelude.{◌≡◌, OnOk};

use plc_auto::Scheme;
use plc_base::NoMemory;
use plc_reclaim::Reclaimer;

/// The reclaimer begins anew, with these schemes: it keeps nothing of what it was handed before. The one error is that
/// memory runs out, after which nothing is promised of what it keeps.
pub fn begin_reclaimer(
    reclaimer: &mut Box<dyn Reclaimer>,
    schemes: &[Scheme],
) -> Result<(), NoMemory>
    ensures fresh { OnOk result (held reclaimer.new ≡ (meanings reclaimer.old).begun schemes.now) }
    ensures same { (meanings reclaimer.new ≡ meanings reclaimer.old) × (named reclaimer.new ≡ named reclaimer.old) }
{
    reclaimer.begin(schemes)
}
