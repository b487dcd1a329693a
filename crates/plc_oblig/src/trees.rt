// The tree of an obligation, where it is still.
ghost use Rattle.std.specs.Prelude.{◌≡◌, true, is_some, IfOk, IfSome, Contains};
ghost use Rattle.plc_oblig.specs.Programs.{ProgramFits, Serves, obligations_of};
ghost use Rattle.plc_oblig.specs.Still.{is_still};
ghost use Rattle.plc_oblig.specs.Direct.{IsDirectTree};

use crate::annotated::Annotated;
use crate::grounding::Grounding;
use crate::refuted::{find_refuted, tree_of};
use crate::size::denied_size;
use crate::stillness::still;
use plc_base::NoMemory;
use plc_ground::Tree;
use plc_vocabulary::Obligation;
use std::alloc::Global;

impl Grounding {
    /// The tree of a still obligation.
    fn tree_of_still(&mut self, program: &Annotated<'_>, o: &Obligation) -> Result<Tree, NoMemory>
        requires fits { ProgramFits program.now }
        requires there { Contains (obligations_of program.now) o.now }
        requires still { is_still program.now.flow.now program.now.outline.now o.now ≡ true }
        requires serves { Serves self.old program.now }
        ensures serves { Serves self.new program.now }
        ensures tree { IfOk result
            (λ tree. IsDirectTree program.now.flow.now program.now.outline.now o.now tree.nodes) }
    {
        let set = self.ground(program, o)?;
        let count = denied_size(program.flow, program.outline, o) as usize;
        match find_refuted(&set, count) {
            None => unreachable!(),
            Some(c) => {
                let tree = tree_of(self.alloc, &set, c)?;
                self.reuse(set);
                Ok(tree)
            }
        }
    }

    /// The tree of an obligation, as [`direct`] makes it.
    pub fn direct(
        &mut self,
        program: &Annotated<'_>,
        o: &Obligation,
    ) -> Result<Option<Tree>, NoMemory>
        requires there { Contains (obligations_of program.now) o.now }
        requires fits { ProgramFits program.now }
        requires serves { Serves self.old program.now }
        ensures serves { Serves self.new program.now }
        ensures still { IfOk result (λ tree. is_some tree
            ≡ is_still program.now.flow.now program.now.outline.now o.now) }
        ensures tree { IfOk result (λ tree. IfSome tree
            (λ t. IsDirectTree program.now.flow.now program.now.outline.now o.now t.nodes)) }
    {
        if !still(program.flow, program.outline, o) {
            return Ok(None);
        }
        let tree = self.tree_of_still(program, o)?;
        Ok(Some(tree))
    }
}

/// The tree of an obligation of the file, exactly where the obligation is still. It closes the ground set of
/// the obligation, and no branch of it splits one clause twice: it splits on all clauses of the negated
/// conclusion, in order, and then on the instance of a premise at the names of the conclusion, with one leaf
/// for each literal. The ground set keeps the rules of ground sets. It fails only where memory runs out, which
/// 2^32 terms or clauses count as.
pub fn direct(
    alloc: Global,
    program: &Annotated<'_>,
    o: &Obligation,
) -> Result<Option<Tree>, NoMemory>
    requires fits { ProgramFits program.now }
    requires there { Contains (obligations_of program.now) o.now }
    ensures still { IfOk result (λ tree. is_some tree ≡ is_still program.now.flow.now program.now.outline.now o.now) }
    ensures tree { IfOk result (λ tree. IfSome tree
        (λ t. IsDirectTree program.now.flow.now program.now.outline.now o.now t.nodes)) }
{
    Grounding::new(alloc).direct(program, o)
}
