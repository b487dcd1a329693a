// Which primitives allocate: a step has at most one of them, and takes one address for it.
ghost use Rattle.std.specs.Prelude.{◌≡◌};
ghost use Rattle.std.specs.List.{list_any};
ghost use Rattle.plc_lang.specs.Allocation.{is_new};

use crate::syntax::Primitive;

/// Whether the primitive allocates.
pub fn is_new(primitive: &Primitive) -> bool
    ensures { result ≡ is_new primitive.now }
{
    matches!(primitive, Primitive::New { .. })
}

/// Whether one of these primitives allocates.
pub fn has_new(primitives: &[Primitive]) -> bool
    ensures { result ≡ list_any is_new primitives.now }
{
    primitives.iter().any(|p| is_new(p))
}
