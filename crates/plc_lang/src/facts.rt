// What a primitive does with the pointers that it names, in code: the one table of it, for whoever shows or draws runs.
ghost use Rattle.std.specs.Prelude.{◌≡◌};
ghost use Rattle.plc_lang.specs.Facts.{accessed, compared, called, risked, assigned};
ghost use Rattle.plc_lang.specs.WellSorted.{is_test};

use crate::syntax::{Arg, Primitive, Var};
use plc_base::FuncId;

/// The pointer through which the primitive goes, to a field of its node.
pub fn accessed(primitive: &Primitive) -> Option<Var>
    ensures { result ≡ accessed primitive.now }
{
    match *primitive {
        Primitive::Load { q, .. }
        | Primitive::DataLoad { q, .. }
        | Primitive::RefreshLoad { q, .. } => Some(q),
        Primitive::Store { p, .. }
        | Primitive::StoreNull { p, .. }
        | Primitive::DataStore { p, .. }
        | Primitive::RefreshStore { p, .. } => Some(p),
        _ => None,
    }
}

/// The two pointers that the primitive compares.
pub fn compared(primitive: &Primitive) -> Option<(Var, Var)>
    ensures { result ≡ compared primitive.now }
{
    match *primitive {
        Primitive::Eq { p, q } | Primitive::Ne { p, q } => Some((p, q)),
        _ => None,
    }
}

/// The function that the primitive calls, and the argument.
pub fn called(primitive: &Primitive) -> Option<(FuncId, Arg)>
    ensures { result ≡ called primitive.now }
{
    match *primitive {
        Primitive::Call { func, arg } => Some((func, arg)),
        _ => None,
    }
}

/// The pointers by which the primitive may be a race: the one that it goes through, the two that it compares, or the
/// one that it hands to a function.
pub fn risked(primitive: &Primitive) -> (Option<Var>, Option<Var>)
    ensures { result ≡ risked primitive.now }
{
    if let Some(p) = accessed(primitive) {
        return (Some(p), None);
    }
    if let Some((p, q)) = compared(primitive) {
        return (Some(p), Some(q));
    }
    match called(primitive) {
        Some((_, Arg::Var(p))) => (Some(p), None),
        _ => (None, None),
    }
}

/// The pointer that the primitive assigns.
pub fn assigned(primitive: &Primitive) -> Option<Var>
    ensures { result ≡ assigned primitive.now }
{
    match *primitive {
        Primitive::Null { p }
        | Primitive::Copy { p, .. }
        | Primitive::New { p }
        | Primitive::Load { p, .. }
        | Primitive::Mark { p, .. }
        | Primitive::Unmark { p, .. } => Some(p),
        Primitive::Refresh { p, .. } | Primitive::RefreshLoad { p, .. } => Some(Var::Local(p)),
        _ => None,
    }
}

/// Whether the primitive is a test: it goes on only where something is so, and changes nothing.
pub fn is_test(primitive: &Primitive) -> bool
    ensures { result ≡ is_test primitive.now }
{
    matches!(
        primitive,
        Primitive::Eq { .. }
            | Primitive::Ne { .. }
            | Primitive::IsNull { .. }
            | Primitive::NotNull { .. }
            | Primitive::DataTest { .. }
            | Primitive::MarkTest { .. }
    )
}
