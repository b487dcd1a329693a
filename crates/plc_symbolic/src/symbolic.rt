// Terms before they are numbered. A term is a constant, or a version of a map at a node; a node is a
// constant, or a pointer field of one in the state before the step. No term of a ground set is deeper.
ghost use Rattle.std.specs.Prelude.{◌≡◌};
ghost use Rattle.std.proofs.Common.{ap};
ghost use Rattle.plc_symbolic.specs.Keys.{symbol_key, node_key, map_key, term_key, term_input};
ghost use Rattle.plc_symbolic.specs.Equality.{same_term_true};

use plc_base::FieldId;
use plc_ground::{Map, Symbol};
use std::hash::{Hash, Hasher};

/// A node of a ground set.
#[derive(Clone, Copy, PartialEq, Eq)]
pub enum NodeTerm {
    At(Symbol),
    /// A pointer field of a node, in the state before.
    Target { f: FieldId, of: Symbol },
}

/// A term of a ground set.
#[derive(Clone, Copy, PartialEq, Eq)]
pub enum SymbolicTerm {
    Constant(Symbol),
    /// A version of a map at a node.
    Application {
        map: Map,
        version: u16,
        node: NodeTerm,
    },
}

/// An equation or an inequation of two terms.
#[derive(Clone, Copy)]
pub struct SymbolicLit {
    pub left: SymbolicTerm,
    pub right: SymbolicTerm,
    pub equal: bool,
}

/// A number of a constant, for hashing alone: different constants may share it.
fn symbol_key(symbol: Symbol) -> u64
    ensures { result ≡ symbol_key symbol }
{
    match symbol {
        Symbol::Null => 0,
        Symbol::Shared(i) => 8 + 32 * i as u64,
        Symbol::Mine(i) => 9 + 32 * i as u64,
        Symbol::Theirs(i) => 10 + 32 * i as u64,
        Symbol::New => 1,
        Symbol::Bound(i) => 11 + 32 * i as u64,
        Symbol::Loaded(i) => 12 + 32 * i as u64,
        Symbol::Yes => 2,
        Symbol::No => 6,
        Symbol::Nobody => 3,
        Symbol::Me => 4,
        Symbol::You => 5,
        Symbol::Value(i) => 13 + 32 * i as u64,
        Symbol::Number(n) => 14 + 32 * n as u64,
        Symbol::MarkShared(i) => 15 + 32 * i as u64,
        Symbol::MarkMine(i) => 16 + 32 * i as u64,
        Symbol::MarkTheirs(i) => 17 + 32 * i as u64,
        Symbol::MarkLoaded(i) => 18 + 32 * i as u64,
    }
}

/// A number of a node, for hashing alone.
fn node_key(node: NodeTerm) -> u64
    ensures { result ≡ node_key node }
{
    match node {
        NodeTerm::At(symbol) => symbol_key(symbol),
        NodeTerm::Target { f, of } => symbol_key(of) + 0x20_0000 * (1 + f.0 as u64),
    }
}

/// A number of a map, for hashing alone.
fn map_key(map: Map) -> u64
    ensures { result ≡ map_key map }
{
    match map {
        Map::Field(f) => 1 + 4 * f.0 as u64,
        Map::Ghost(g) => 2 + 4 * g as u64,
        Map::Retired => 3,
        Map::FieldMark(f) => 4 + 4 * f.0 as u64,
    }
}

/// A number of a term, for finding it alone: different terms may share it.
pub fn term_key(term: SymbolicTerm) -> u64
    ensures { result ≡ term_key term }
{
    match term {
        SymbolicTerm::Constant(symbol) => symbol_key(symbol),
        SymbolicTerm::Application { map, version, node } => {
            node_key(node) + 0x20_0000_0000 * map_key(map) + 0x2000_0000_0000 * version as u64
        }
    }
}

impl Hash for SymbolicTerm {
    ghost hash_input = { term_input };

    ghost respects_eq = { λ a b same. ap term_input (same_term_true a b same) };

    fn hash<H: Hasher>(&self, state: &mut H) {
        state.write_u64(term_key(*self));
    }
}
