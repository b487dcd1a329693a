// A ground set while it is written. Clauses come in over symbolic terms, and each is kept over the places of its
// terms. Whatever writes clauses never sees a place: a clause is read back through the list of terms, which only
// grows.
//
// Sets are made one after another, each over the memory of the one before: the table of terms is emptied, or cut back
// to what the next set shares, and the lists of a set that isn't needed any more take the clauses of the next.
ghost use Rattle.std.specs.Prelude.{◌≡◌, ◌<◌, ◌^◌, [], length, slice_get, OnOk, IfOk};
ghost use Rattle.plc_symbolic.specs.Numbering.{Drafted, blank, listed, written, numbered};
ghost use Rattle.plc_symbolic.specs.Cuts.{CanCut, IsWrittenAfter};

use crate::listing::Listing;
use crate::symbolic::{SymbolicLit, SymbolicTerm};
use plc_base::{Items, NoMemory};
use plc_ground::{GroundSet, Lit, Sort};
use std::alloc::Global;
use std::marker::Model;

/// The terms and the clauses so far.
#[derive(Drop)]
pub struct Draft {
    alloc: Global,
    terms: Listing,
    clauses: Items<Items<Lit>>,
    // lists whose memory is used again; what stands in them doesn't count
    spare: Vec<Items<Lit>>,
}

impl Model for Draft {
    ghost use Rattle.std.specs.Prelude.{All};
    ghost use Rattle.plc_symbolic.specs.Numbering.{Drafted};
    ghost use Rattle.plc_symbolic.specs.Tidy.{IsInside, read_draft};

    ghost Value = { Drafted };

    ghost view = { λ a. read_draft a.terms a.clauses };

    ghost invariant = { λ a. All (All (IsInside a.terms)) a.clauses };
}

/// An empty list, over memory that is spare where there is some.
fn empty_list(alloc: Global, spare: &mut Vec<Items<Lit>>) -> Items<Lit>
    ensures { result ≡ [] }
{
    match spare.pop() {
        Some(mut lits) => {
            lits.truncate(0);
            lits
        }
        None => Items::new(alloc),
    }
}

/// A copy of a clause, over memory that is spare where there is some.
fn copy_of(
    alloc: Global,
    spare: &mut Vec<Items<Lit>>,
    clause: &[Lit],
) -> Result<Items<Lit>, NoMemory>
    ensures { IfOk result (λ copy. copy ≡ clause.now) }
{
    let mut lits = empty_list(alloc, spare).into_vec();
    lits.extend_from_slice(clause)?;
    Ok(Items::from_vec(lits))
}

/// A copy of clauses, over memory that is spare where there is some.
fn copies_of(
    alloc: Global,
    spare: &mut Vec<Items<Lit>>,
    clauses: &[Items<Lit>],
) -> Result<Items<Items<Lit>>, NoMemory>
    ensures { IfOk result (λ copies. copies ≡ clauses.now) }
{
    let mut copies = Vec::with_capacity(alloc, clauses.len())?;
    for clause in clauses {
        let copy = copy_of(alloc, spare, clause.as_slice())?;
        copies.push(copy)?;
    }
    Ok(Items::from_vec(copies))
}

impl Draft {
    /// No terms and no clauses. It takes no memory.
    pub fn new(alloc: Global) -> Draft
        ensures { result ≡ blank }
    {
        Draft {
            alloc,
            terms: Listing::new(alloc),
            clauses: Items::new(alloc),
            spare: Vec::new(alloc),
        }
    }

    /// No terms and no clauses, over the memory of those that were there.
    pub fn clear(&mut self)
        ensures { self.new ≡ blank }
    {
        self.terms.clear();
        self.clauses.truncate(0);
    }

    /// Cuts back to an earlier draft, which had so many terms and clauses, after which clauses alone were written.
    pub fn cut(&mut self, terms: usize, clauses: usize)
        requires { CanCut terms clauses self.old }
        ensures { (earlier : Drafted) → IsWrittenAfter earlier terms clauses self.old → self.new ≡ earlier }
    {
        self.terms.cut(terms);
        self.clauses.truncate(clauses);
    }

    /// How many clauses there are.
    pub fn clauses(&self) -> usize
        ensures { result ≡ length self.now.clauses }
    {
        self.clauses.len()
    }

    /// Takes the memory of a set that isn't needed any more, for the clauses that are still to come.
    pub fn reuse(&mut self, set: GroundSet)
        ensures { self.new ≡ self.old }
    {
        self.spare = set.clauses.into_vec();
    }

    /// Lists a term, its arguments before it, where they are new.
    pub fn note(&mut self, term: SymbolicTerm) -> Result<(), NoMemory>
        ensures { OnOk result (self.new ≡ listed self.old term) }
    {
        self.terms.note(term)?;
        Ok(())
    }

    /// One more clause. Its terms are listed where they are new, from left to right.
    pub fn push(&mut self, clause: &[SymbolicLit]) -> Result<(), NoMemory>
        ensures { OnOk result (self.new ≡ written self.old clause.now) }
    {
        let mut lits = empty_list(self.alloc, &mut self.spare);
        self.terms.note_clause(clause, &mut lits)?;
        self.clauses.push(lits)?;
        Ok(())
    }

    /// How many terms are listed.
    pub fn len(&self) -> usize
        ensures { result ≡ length self.now.terms }
    {
        self.terms.len()
    }

    /// The term at a place.
    pub fn term(&self, k: usize) -> Option<SymbolicTerm>
        ensures { result ≡ slice_get self.now.terms k }
    {
        self.terms.get(k)
    }

    /// The set, with these sorts of its terms. 2^32 terms or clauses count as memory that runs out. The draft
    /// stays as it is, for the next set that begins like this one.
    pub fn finish(&mut self, sorts: Items<Sort>) -> Result<GroundSet, NoMemory>
        ensures set { IfOk result (λ set. set ≡ numbered sorts self.old) }
        ensures kept { self.new ≡ self.old }
        ensures few_terms { OnOk result (length self.old.terms < 2 ^ 32) }
        ensures few_clauses { OnOk result (length self.old.clauses < 2 ^ 32) }
    {
        let terms = self.terms.numbered(self.alloc)?;
        if self.clauses.len() > 0xffff_ffff {
            return Err(NoMemory);
        }
        let clauses = copies_of(self.alloc, &mut self.spare, self.clauses.as_slice())?;
        Ok(GroundSet {
            terms,
            sorts,
            clauses,
        })
    }
}
