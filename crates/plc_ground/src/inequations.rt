// The inequations of a branch, each once, in the order in which they came there. A hostile tree may have a branch of
// a million literals and as many leaves below it, so a leaf doesn't go over the branch: it looks its two terms up by
// their hash. Who leaves a literal cuts the list to the length that it had before.
ghost use Rattle.std.specs.Prelude.{◌≡◌, ◌↔◌, IsTrue, OnOk, Contains};
ghost use Rattle.plc_ground.specs.Equality.{HoldsUnequal};
ghost use Rattle.plc_ground.specs.Model.{inequation};
ghost use Rattle.plc_ground.specs.Paths.{Notes};

use crate::terms::Lit;
use indexmap::IndexSet;
use std::alloc::AllocError;

/// The inequation of two terms.
pub(crate) fn inequation(left: u32, right: u32) -> Lit
    ensures { result ≡ inequation left right }
{
    Lit {
        left,
        right,
        equal: false,
    }
}

/// Notes a literal that comes on the branch, if it is an inequation.
pub(crate) fn note(unequal: &mut IndexSet<Lit>, l: Lit) -> Result<(), AllocError>
    ensures { OnOk result (Notes unequal.old.keys unequal.new.keys l) }
{
    if !l.equal {
        unequal.insert(l)?;
    }
    Ok(())
}

/// Whether a literal is noted.
fn is_noted(unequal: &IndexSet<Lit>, l: Lit) -> bool
    ensures { IsTrue result ↔ Contains unequal.now.keys l }
{
    unequal.contains(&l)
}

/// Whether an inequation between just these two is noted.
pub(crate) fn are_noted(unequal: &IndexSet<Lit>, a: u32, b: u32) -> bool
    ensures { IsTrue result ↔ HoldsUnequal unequal.now.keys a b }
{
    is_noted(unequal, inequation(a, b)) || is_noted(unequal, inequation(b, a))
}
