// What the thread's own calls and returns do to an environment. A call may name the address of a
// pointer, and then each other pointer may hold that address or another. Null, a call without a
// pointer and a return name none, so that they are about another address than that of each pointer.
// `retire` takes A of the pointer, and of each other one that may hold its address: with L alone a
// pointer holds another.
ghost use Rattle.std.specs.Prelude.{◌≡◌, map, true};
ghost use Rattle.plc_base.specs.Mask.{within};
ghost use Rattle.plc_auto.specs.Sets.{all_locations};
ghost use Rattle.plc_base.specs.Functions.{is_retire};
ghost use Rattle.plc_xfer.specs.Calls.{on_other, on_either, other_type, argument_type, beside_retired, beside_type};
ghost use Rattle.plc_xfer.specs.Rules.{type_of, all_within, FitsObserver};
ghost use Rattle.plc_xfer.specs.Writes.{with_type, with_each};

use crate::types::{set_type, type_of};
use plc_auto::{EvKind, Observer};
use plc_base::{FuncId, Items, Mask};
use plc_lang::Var;
use plc_type::{Env, PtrType};

/// The locations after a call on this address or on another.
fn on_either(m: &Mask, func: FuncId, observer: &Observer) -> Mask
    requires { within m.now (all_locations observer.now) ≡ true }
    ensures { result ≡ on_either observer.now (EvKind.Call func) m.now }
{
    let kind = EvKind::Call(func);
    let this = observer.step_set(m, kind, true, true);
    this.union(&observer.step_set(m, kind, true, false))
}

/// The type of the pointer that a function is called with.
fn argument_type(t: &PtrType, func: FuncId, observer: &Observer) -> PtrType
    requires { within t.now.m (all_locations observer.now) ≡ true }
    ensures { result ≡ argument_type observer.now func t.now }
{
    let m = observer.step_set(&t.m, EvKind::Call(func), true, true);
    if func.is_retire() {
        return PtrType {
            g: t.g.without_active(),
            m,
        };
    }
    PtrType { g: t.g, m }
}

/// The type of a pointer beside one that is retired.
fn beside_retired(t: &PtrType, func: FuncId, observer: &Observer) -> PtrType
    requires { within t.now.m (all_locations observer.now) ≡ true }
    ensures { result ≡ beside_retired observer.now func t.now }
{
    let m = on_either(&t.m, func, observer);
    if t.g.is_local() {
        return PtrType {
            g: t.g,
            m: m.meet(&observer.unretired()),
        };
    }
    PtrType {
        g: t.g.without_active(),
        m,
    }
}

/// The type of a pointer beside the one that a function is called with.
fn beside_type(t: &PtrType, func: FuncId, observer: &Observer) -> PtrType
    requires { within t.now.m (all_locations observer.now) ≡ true }
    ensures { result ≡ beside_type observer.now func t.now }
{
    if func.is_retire() {
        return beside_retired(t, func, observer);
    }
    PtrType {
        g: t.g,
        m: on_either(&t.m, func, observer),
    }
}

/// Makes the types of pointers what they are beside the one that a function is called with.
fn call_beside(types: &mut Items<PtrType>, func: FuncId, observer: &Observer)
    requires { all_within (all_locations observer.now) types.old ≡ true }
    ensures { types.new ≡ map (beside_type observer.now func) types.old }
{
    for i in 0..types.len() {
        let t = beside_type(&types.as_slice()[i], func, observer);
        types.set(i, t);
    }
}

/// Makes the types of pointers what they are after a call or a return that names none.
fn pass_other(types: &mut Items<PtrType>, kind: EvKind, observer: &Observer)
    requires { all_within (all_locations observer.now) types.old ≡ true }
    ensures { types.new ≡ map (other_type observer.now kind) types.old }
{
    for i in 0..types.len() {
        let mut t = types.as_slice()[i];
        t.m = observer.step_set(&t.m, kind, true, false);
        types.set(i, t);
    }
}

/// What a return, or a call without a pointer, makes of an environment.
#[tactic(auto, unfolding(crate::specs::Writes::with_each))]
pub(crate) fn on_other(env: &mut Env, kind: EvKind, observer: &Observer)
    requires { FitsObserver observer.now env.old }
    ensures { env.new ≡ with_each (other_type observer.now kind) (on_other observer.now kind env.old.w) env.old }
{
    pass_other(&mut env.shared, kind, observer);
    pass_other(&mut env.locals, kind, observer);
    env.w = observer.step_set(&env.w, kind, true, false);
}

/// What a call with a pointer makes of the other pointers of an environment.
#[tactic(auto, unfolding(crate::specs::Writes::with_each))]
fn beside(env: &mut Env, func: FuncId, observer: &Observer)
    requires { FitsObserver observer.now env.old }
    ensures { env.new ≡ with_each (beside_type observer.now func)
        (on_either observer.now (EvKind.Call func) env.old.w) env.old }
{
    call_beside(&mut env.shared, func, observer);
    call_beside(&mut env.locals, func, observer);
    env.w = on_either(&env.w, func, observer);
}

/// What a call with a pointer makes of an environment.
pub(crate) fn call_with(env: &mut Env, func: FuncId, p: Var, observer: &Observer)
    requires { FitsObserver observer.now env.old }
    ensures { let anywhere = on_either observer.now (EvKind.Call func) env.old.w
        in let beside = with_each (beside_type observer.now func) anywhere env.old
        in env.new ≡ with_type beside p (argument_type observer.now func (type_of env.old p)) }
{
    let argument = argument_type(&type_of(env, p), func, observer);
    beside(env, func, observer);
    set_type(&argument, env, p);
}
