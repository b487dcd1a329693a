// What refreshes and assignments to auxiliary fields mean: what is written is judged before what is
// put into it.
ghost use Rattle.std.specs.Prelude.{◌≤◌, length};
ghost use Rattle.plc_syntax.specs.Views.{name_tree, place_tree, refresh_tree, ghost_value_tree, ghost_set_tree};
ghost use Rattle.plc_scope.specs.Answers.{Gives};
ghost use Rattle.plc_scope.specs.Primitives.{refresh_name_means, refresh_means, ghost_value_means, ghost_set_means};
ghost use Rattle.plc_scope.specs.Scope.{most_locals};

use crate::fault::{ParseFault, Resolved};
use crate::scope::Scope;
use plc_lang::{GhostVal, Prim};
use plc_syntax::{GhostSet, GhostValue, Name, Place, Refresh};

/// The primitive of a refresh into a pointer local.
#[tactic(auto, unfolding(crate::specs::Primitives::refresh_name_means))]
pub fn refresh_into(scope: &Scope, name: Name, place: Place) -> Resolved<Prim>
    requires { length scope.now.locals ≤ most_locals }
    ensures { Gives (λ k. k) result
        (refresh_name_means scope.now (name_tree name.entry) (place_tree place.entry)) }
{
    let p = scope.pointer_local_at(name)?;
    let q = scope.pointer_at(place.name)?;
    match place.field {
        None => Ok(Prim::Refresh { p, q }),
        Some(field) => scope
            .pointer_field_at(field)
            .map(|f| Prim::RefreshLoad { p, q, f }),
    }
}

/// The primitive of a refresh into a pointer local or into a pointer field.
#[tactic(auto, unfolding(crate::specs::Primitives::refresh_means))]
pub fn refresh(scope: &Scope, refresh: Refresh) -> Resolved<Prim>
    requires { length scope.now.locals ≤ most_locals }
    ensures { Gives (λ k. k) result (refresh_means scope.now (refresh_tree refresh.entry)) }
{
    match refresh {
        Refresh::Name(name, place) => refresh_into(scope, name, place),
        Refresh::Field(name, field, from) => {
            let p = scope.pointer_at(name)?;
            let f = scope.pointer_field_at(field)?;
            let q = scope.pointer_at(from)?;
            Ok(Prim::RefreshStore { p, f, q })
        }
    }
}

/// What is put into an auxiliary field: one of its own values or, where it holds threads, none or the acting
/// thread, which `init` lacks.
fn ghost_value(
    scope: &Scope,
    in_init: bool,
    g: u16,
    of_threads: bool,
    value: GhostValue,
) -> Resolved<GhostVal>
    requires { length scope.now.locals ≤ most_locals }
    ensures { Gives (λ v. v) result
        (ghost_value_means scope.now in_init g of_threads (ghost_value_tree value.entry)) }
{
    match value {
        GhostValue::Name(name) if of_threads => Ok(GhostVal::Value(scope.thread_at(name)?)),
        GhostValue::Name(name) => Ok(GhostVal::Value(scope.value_at(g, name)?)),
        GhostValue::Me(_) if of_threads && !in_init => Ok(GhostVal::Me),
        GhostValue::None(_) if of_threads => Ok(GhostVal::None),
        GhostValue::Me(at) | GhostValue::None(at) => Err(ParseFault::WrongSort { at }),
    }
}

/// The primitive of an assignment to an auxiliary field, in `init` or in an operation.
#[tactic(auto, unfolding(crate::specs::Primitives::ghost_set_means))]
pub fn ghost_set(scope: &Scope, in_init: bool, set: GhostSet) -> Resolved<Prim>
    requires { length scope.now.locals ≤ most_locals }
    ensures { Gives (λ k. k) result (ghost_set_means scope.now in_init (ghost_set_tree set.entry)) }
{
    let p = scope.pointer_at(set.name)?;
    let (g, of_threads) = scope.auxiliary_at(set.field)?;
    let v = ghost_value(scope, in_init, g, of_threads, set.value)?;
    Ok(Prim::Ghost { p, g, v })
}
