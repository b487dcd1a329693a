// What other threads and the reclaimer do between two steps of a thread. Any address may be retired
// and freed and allocated anew meanwhile, and a shared pointer may be any address. Only a local keeps
// what it has: with L no other thread reaches its node; with S it stays valid where no free of the
// address is allowed from anywhere that it may come to.
ghost use Rattle.std.specs.Prelude.{◌≡◌, length, map, replicate, true};
ghost use Rattle.plc_auto.specs.Sets.{all_locations, closure};
ghost use Rattle.plc_base.specs.Mask.{within};
ghost use Rattle.plc_type.specs.Types.{bare};
ghost use Rattle.plc_xfer.specs.Rules.{interfered, interfered_local, all_within, FitsObserver};
ghost use Rattle.plc_xfer.specs.Typings.{IsWellFormed};

use plc_auto::Observer;
use plc_base::{Items, Mask};
use plc_type::{Env, Guar, PtrType};

/// The type of a local after interference.
fn interfered_local(t: &PtrType, observer: &Observer) -> PtrType
    requires { within t.now.m (all_locations observer.now) ≡ true }
    ensures { result ≡ interfered_local observer.now t.now }
{
    let kept = observer.closure(&t.m, false);
    if t.g.is_local() {
        return PtrType {
            g: t.g,
            m: kept.meet(&observer.unretired()),
        };
    }
    if t.g.is_safe() && kept.within(&observer.safe()) {
        return PtrType {
            g: Guar::safe_only(),
            m: kept,
        };
    }
    PtrType {
        g: Guar::nothing(),
        m: observer.closure(&t.m, true),
    }
}

/// Makes the types of the locals what they are after interference.
fn interfere_locals(locals: &mut Items<PtrType>, observer: &Observer)
    requires { all_within (all_locations observer.now) locals.old ≡ true }
    ensures { locals.new ≡ map (interfered_local observer.now) locals.old }
{
    for i in 0..locals.len() {
        let t = interfered_local(&locals.as_slice()[i], observer);
        locals.set(i, t);
    }
}

/// Forgets all types but where any address may stand.
fn forget(types: &mut Items<PtrType>, w: Mask)
    ensures { types.new ≡ replicate (length types.old) (bare w) }
{
    for i in 0..types.len() {
        types.set(i, PtrType::bare(w));
    }
}

/// Makes of the environment at the end of a step the one before the next step: what other threads
/// and the reclaimer may do meanwhile is in it. The locations of the environment must be those of
/// the observer.
pub fn interfere(env: &mut Env, observer: &Observer)
    requires { FitsObserver observer.now env.old }
    ensures interfered { env.new ≡ interfered observer.now env.old }
    ensures fits { FitsObserver observer.now env.new }
    ensures well_formed { IsWellFormed observer.now env.old → IsWellFormed observer.now env.new }
{
    env.w = observer.closure(&env.w, true);
    forget(&mut env.shared, env.w);
    interfere_locals(&mut env.locals, observer);
}
