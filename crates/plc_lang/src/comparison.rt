// How data values compare: in code, the one table of the four relations.
ghost use Rattle.std.specs.Prelude.{◌≡◌};
ghost use Rattle.plc_lang.specs.Comparison.{compares};

use crate::syntax::Rel;

/// Whether the first number and the second stand in the relation.
pub fn compares(rel: Rel, m: u32, n: u32) -> bool
    ensures { result ≡ compares rel m n }
{
    match rel {
        Rel::Eq => m == n,
        Rel::Ne => m != n,
        Rel::Lt => m < n,
        Rel::Ge => m >= n,
    }
}
