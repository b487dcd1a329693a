// Which primitives speak of marks, by which a file is known to use them.
ghost use Rattle.std.specs.Prelude.{◌≡◌};
ghost use Rattle.plc_lang.specs.Marks.{speaks_of_marks, speak_of_marks};

use crate::syntax::Primitive;

/// Whether the primitive sets a mark, clears one or tests one.
fn speaks_of_marks(primitive: &Primitive) -> bool
    ensures { result ≡ speaks_of_marks primitive.now }
{
    matches!(
        primitive,
        Primitive::Mark { .. } | Primitive::Unmark { .. } | Primitive::MarkTest { .. }
    )
}

/// Whether one of these primitives sets a mark, clears one or tests one.
pub fn speak_of_marks(primitives: &[Primitive]) -> bool
    ensures { result ≡ speak_of_marks primitives.now }
{
    primitives.iter().any(|p| speaks_of_marks(p))
}
