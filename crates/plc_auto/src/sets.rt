// Sets of live locations: where an address may stand. The tables are small enough that each set is
// either written out or found by one pass over the locations.
ghost use Rattle.std.specs.Prelude.{◌≡◌, true};
ghost use Rattle.plc_base.specs.Mask.{union, single, within};
ghost use Rattle.plc_auto.specs.Sets.{all_locations, unretired, safe, step_set, closure, IsClosureOf};

use crate::event::EvKind;
use crate::observer::Observer;
use crate::table::R_KEPT;
use plc_base::{FuncId, LocId, Mask};

/// the locations of a set, and the one in which a protected address stands after its retirement
fn with_kept(mut m: Mask) -> Mask
    ensures { result ≡ union m (single 6) }
{
    m.insert(LocId(R_KEPT));
    m
}

impl Observer {
    /// All live locations.
    #[tactic(auto, using(crate::proofs::SetLemmas::all_written))]
    pub fn all(&self) -> Mask
        ensures { result ≡ all_locations self.now }
    {
        Mask::full(self.count())
    }

    /// The locations in which the address isn't retired, whose names begin with `u`. They stand
    /// first in each table.
    pub fn unretired(&self) -> Mask
        ensures { result ≡ unretired self.now }
    {
        match self {
            Observer::Plain => Mask::full(1),
            Observer::Hazard(_) => Mask::full(3),
            Observer::Epoch(_, _) => Mask::full(3),
        }
    }

    /// The locations in which the address won't be freed, since a free leads to `bad`: those in
    /// which it isn't retired, and those in which it was retired while this thread protected it.
    pub fn safe(&self) -> Mask
        ensures { result ≡ safe self.now }
    {
        match self {
            Observer::Plain => self.unretired(),
            Observer::Hazard(_) => with_kept(self.unretired()),
            Observer::Epoch(_, _) => with_kept(self.unretired()),
        }
    }

    /// The live locations to which an event leads from those of a set, which must be below
    /// `count`. `own` and `this` are those of `step`.
    pub fn step_set(&self, m: &Mask, kind: EvKind, own: bool, this: bool) -> Mask
        requires { within m.now (all_locations self.now) ≡ true }
        ensures set { result ≡ step_set self.now m.now kind own this }
        ensures live { within result (all_locations self.now) ≡ true }
    {
        let mut reached = Mask::empty();
        for at in 0..self.count() {
            if m.has(LocId(at)) {
                if let Some(to) = self.step(LocId(at), kind, own, this) {
                    reached.insert(to);
                }
            }
        }
        reached
    }

    /// Where an address may stand after what happens between two steps of a thread, where it stands
    /// in `m` before: other threads call and return, and other addresses are freed; `with_free`,
    /// this address is freed too. The locations of `m` must be below `count`.
    ///
    /// It is the least set that holds `m` and is closed under these events. Of them only a
    /// retirement and a free of the address move it, and what they lead to they lead no further.
    pub fn closure(&self, m: &Mask, with_free: bool) -> Mask
        requires { within m.now (all_locations self.now) ≡ true }
        ensures set { result ≡ closure self.now with_free m.now }
        ensures least { IsClosureOf self.now with_free m.now result }
        ensures live { within result (all_locations self.now) ≡ true }
    {
        let retired = self.step_set(m, EvKind::Call(FuncId::RETIRE), false, true);
        let kept = m.union(&retired);
        if !with_free {
            return kept;
        }
        let freed = self.step_set(m, EvKind::Free, false, true);
        kept.union(&freed)
    }
}
