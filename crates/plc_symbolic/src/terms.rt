// The forms of terms and literals from which clauses are written.
ghost use Rattle.std.specs.Prelude.{◌≡◌};
ghost use Rattle.plc_symbolic.specs.declared.symbolic.SymbolicTerm.TheVariants.{Application};
ghost use Rattle.plc_symbolic.specs.Terms.{term_of, is, is_not};

use crate::symbolic::{NodeTerm, SymbolicLit, SymbolicTerm};
use plc_ground::Map;

/// A node as a term.
pub fn term_of(node: NodeTerm) -> SymbolicTerm
    ensures { result ≡ term_of node }
{
    match node {
        NodeTerm::At(symbol) => SymbolicTerm::Constant(symbol),
        NodeTerm::Target { f, of } => SymbolicTerm::Application {
            map: Map::Field(f),
            version: 0,
            node: NodeTerm::At(of),
        },
    }
}

/// A version of a map at a node.
pub fn applied(map: Map, version: u16, node: NodeTerm) -> SymbolicTerm
    ensures { result ≡ Application map version node }
{
    SymbolicTerm::Application { map, version, node }
}

/// Two terms are equal, or are not.
fn compared(left: SymbolicTerm, right: SymbolicTerm, equal: bool) -> SymbolicLit
    ensures { result ≡ record { left = left; right = right; equal = equal } }
{
    SymbolicLit { left, right, equal }
}

/// `left == right`
pub fn is(left: SymbolicTerm, right: SymbolicTerm) -> SymbolicLit
    ensures { result ≡ is left right }
{
    compared(left, right, true)
}

/// `left != right`
pub fn is_not(left: SymbolicTerm, right: SymbolicTerm) -> SymbolicLit
    ensures { result ≡ is_not left right }
{
    compared(left, right, false)
}
