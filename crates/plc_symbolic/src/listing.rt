// A list of terms while it grows. Each term stands once, its arguments before it, and a term is looked up by
// its hash. The place of a term is settled when it is first noted.
//
// Clauses speak of few terms, again and again, so that most are found where they were found last, without a look
// at the table of hashes.
ghost use Rattle.std.specs.Prelude.{◌≡◌, ◌<◌, ◌^◌, [], length, slice_get, take, map, OnOk, IfOk, IfSome};
ghost use Rattle.plc_symbolic.specs.Terms.{term_of};
ghost use Rattle.plc_symbolic.specs.Growth.{HasArgument, IsAppliedTo, Grows};
ghost use Rattle.plc_symbolic.specs.Numbering.{put, note, note_literal, note_clause};
ghost use Rattle.plc_symbolic.specs.Numbering.{place, number, number_lit, IsListed};
ghost use Rattle.plc_symbolic.specs.Tidy.{IsTidy};

use crate::recent::Recent;
use crate::symbolic::{NodeTerm, SymbolicLit, SymbolicTerm, term_key};
use crate::terms::term_of;
use indexmap::IndexSet;
use plc_base::{Items, NoMemory};
use plc_ground::{GroundTerm, Lit};
use std::alloc::Global;
use std::marker::Model;

/// The terms that are noted so far.
#[derive(Drop)]
pub struct Listing {
    terms: IndexSet<SymbolicTerm>,
    recent: Recent,
}

impl Model for Listing {
    ghost use Rattle.std.specs.Prelude.{List};
    ghost use Rattle.plc_symbolic.specs.declared.symbolic.SymbolicTerm.{SymbolicTerm};
    ghost use Rattle.plc_symbolic.specs.Tidy.{IsTidy};

    ghost Value = { List SymbolicTerm };

    ghost view = { λ a. a.terms.keys };

    ghost invariant = { λ a. IsTidy a.terms.keys };
}

/// A place as ground sets have it. More than 2^32 terms count as memory that runs out.
fn short(at: usize) -> Result<u32, NoMemory>
    ensures { IfOk result (λ n. n ≡ at) }
{
    match u32::try_from(at) {
        Ok(n) => Ok(n),
        Err(_) => Err(NoMemory),
    }
}

impl Listing {
    /// No terms. It takes no memory.
    pub fn new(alloc: Global) -> Listing
        ensures { result ≡ [] }
    {
        Listing {
            terms: IndexSet::new(alloc),
            recent: Recent::new(alloc),
        }
    }

    /// No terms, over the memory of those that were there.
    pub fn clear(&mut self)
        ensures { self.new ≡ [] }
    {
        self.terms.clear();
    }

    /// The first terms, so many.
    pub fn cut(&mut self, len: usize)
        ensures { self.new ≡ take len self.old }
    {
        self.terms.truncate(len);
    }

    /// How many terms there are.
    pub fn len(&self) -> usize
        ensures { result ≡ length self.now }
    {
        self.terms.len()
    }

    /// The term at a place.
    pub fn get(&self, k: usize) -> Option<SymbolicTerm>
        ensures { result ≡ slice_get self.now k }
    {
        self.terms.get_index(k).copied()
    }

    /// The place of a term, if it stands where a term of its key was found last.
    fn recall(&self, term: SymbolicTerm) -> Option<u32>
        ensures place { IfSome result (λ n. IsListed self.now term × (n ≡ place self.now term)) }
        ensures tidy { IsTidy self.now }
    {
        let at = self.recent.get(term_key(term))?;
        let listed = self.terms.get_index(at as usize)?;
        if *listed == term { Some(at) } else { None }
    }

    /// Keeps where a term was found.
    fn keep(&mut self, term: SymbolicTerm, at: u32) -> Result<u32, NoMemory>
        ensures kept { self.new ≡ self.old }
        ensures place { IfOk result (λ n. n ≡ at) }
    {
        self.recent.keep(term_key(term), at)?;
        Ok(at)
    }

    /// The place of a term whose argument is listed, by its hash; it goes last where it is new.
    fn insert(&mut self, term: SymbolicTerm) -> Result<u32, NoMemory>
        requires { HasArgument self.old term }
        ensures place { IfOk result (λ n. n ≡ place self.new term) }
        ensures listed { OnOk result (self.new ≡ put self.old term) }
        ensures grows { Grows self.old self.new }
    {
        let (at, _) = self.terms.insert_full(term)?;
        short(at)
    }

    /// The place of a term that may have been found lately; it goes last where it is new.
    fn put(&mut self, term: SymbolicTerm) -> Result<u32, NoMemory>
        requires { HasArgument self.old term }
        ensures grows { Grows self.old self.new }
        ensures listed { OnOk result (self.new ≡ put self.old term) }
        ensures place { IfOk result (λ n. n ≡ place self.new term) }
    {
        match self.recall(term) {
            Some(at) => Ok(at),
            None => {
                let at = self.insert(term)?;
                self.keep(term, at)
            }
        }
    }

    /// Lists a node and its argument.
    fn put_node(&mut self, node: NodeTerm) -> Result<(), NoMemory>
        ensures grows { Grows self.old self.new }
        ensures listed { OnOk result (self.new ≡ note self.old (term_of node)) }
    {
        if let NodeTerm::Target { of, .. } = node {
            self.put(SymbolicTerm::Constant(of))?;
        }
        self.put(term_of(node))?;
        Ok(())
    }

    /// Lists an application, its arguments before it. The answer is its place.
    fn put_application(&mut self, node: NodeTerm, term: SymbolicTerm) -> Result<u32, NoMemory>
        requires { IsAppliedTo node term }
        ensures grows { Grows self.old self.new }
        ensures listed { OnOk result (self.new ≡ note self.old term) }
        ensures place { IfOk result (λ n. n ≡ place self.new term) }
    {
        self.put_node(node)?;
        self.put(term)
    }

    /// Lists a term, its arguments before it, where they are new. The answer is its place.
    fn put_with_arguments(&mut self, term: SymbolicTerm) -> Result<u32, NoMemory>
        ensures grows { Grows self.old self.new }
        ensures listed { OnOk result (self.new ≡ note self.old term) }
        ensures place { IfOk result (λ n. n ≡ place self.new term) }
    {
        match term {
            SymbolicTerm::Constant(_) => self.put(term),
            SymbolicTerm::Application { node, .. } => self.put_application(node, term),
        }
    }

    /// Lists a term, its arguments before it, where they are new. The answer is its place.
    pub fn note(&mut self, term: SymbolicTerm) -> Result<u32, NoMemory>
        ensures grows { Grows self.old self.new }
        ensures listed { OnOk result (self.new ≡ note self.old term) }
        ensures place { IfOk result (λ n. n ≡ place self.new term) }
    {
        match self.recall(term) {
            Some(at) => Ok(at),
            None => self.put_with_arguments(term),
        }
    }

    /// The literal by places. Its sides are listed where they are new, the left one first.
    fn note_literal(&mut self, l: SymbolicLit) -> Result<Lit, NoMemory>
        ensures grows { Grows self.old self.new }
        ensures listed { OnOk result (self.new ≡ note_literal self.old l) }
        ensures lit { IfOk result (λ n. n ≡ number_lit self.new l) }
    {
        let left = self.note(l.left)?;
        let right = self.note(l.right)?;
        Ok(Lit {
            left,
            right,
            equal: l.equal,
        })
    }

    /// Writes the clause by places into an empty list. Its terms are listed where they are new, from left to
    /// right.
    pub fn note_clause(
        &mut self,
        clause: &[SymbolicLit],
        lits: &mut Items<Lit>,
    ) -> Result<(), NoMemory>
        requires { lits.old ≡ [] }
        ensures grows { Grows self.old self.new }
        ensures listed { OnOk result (self.new ≡ note_clause self.old clause.now) }
        ensures lits { OnOk result (lits.new ≡ map (number_lit self.new) clause.now) }
    {
        for l in clause {
            let lit = self.note_literal(*l)?;
            lits.push(lit)?;
        }
        Ok(())
    }

    /// The place of a term that is listed, by its hash.
    fn looked_up(&self, term: SymbolicTerm) -> u32
        requires listed { IsListed self.now term }
        requires few { length self.now < 2 ^ 32 }
        ensures { result ≡ place self.now term }
    {
        match self.terms.get_index_of(&term) {
            None => unreachable!(),
            Some(at) => at as u32,
        }
    }

    /// The place of a term that is listed and may have been found lately.
    fn place(&self, term: SymbolicTerm) -> u32
        requires listed { IsListed self.now term }
        requires few { length self.now < 2 ^ 32 }
        ensures { result ≡ place self.now term }
    {
        match self.recall(term) {
            Some(at) => at,
            None => self.looked_up(term),
        }
    }

    /// A term by the place of its argument.
    fn number(&self, term: SymbolicTerm) -> GroundTerm
        requires listed { HasArgument self.now term }
        requires few { length self.now < 2 ^ 32 }
        ensures { result ≡ number self.now term }
    {
        match term {
            SymbolicTerm::Constant(symbol) => GroundTerm::Const(symbol),
            SymbolicTerm::Application { map, version, node } => GroundTerm::App {
                map,
                version,
                arg: self.place(term_of(node)),
            },
        }
    }

    /// All terms, each by the place of its argument. 2^32 terms count as memory that runs out.
    pub fn numbered(&self, alloc: Global) -> Result<Items<GroundTerm>, NoMemory>
        ensures terms { IfOk result (λ terms. terms ≡ map (number self.now) self.now) }
        ensures tidy { IsTidy self.now }
        ensures few { OnOk result (length self.now < 2 ^ 32) }
    {
        if self.terms.len() > 0xffff_ffff {
            return Err(NoMemory);
        }
        let mut terms = Vec::with_capacity(alloc, self.terms.len())?;
        for term in self.terms.as_slice() {
            terms.push(self.number(*term))?;
        }
        Ok(Items::from_vec(terms))
    }
}
