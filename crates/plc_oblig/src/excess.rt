// Whether the ground set of any obligation has more clauses than it may. Who reads a file asks this before anything
// else, so no set is made, and no memory is taken. The first that is too large ends it.
ghost use Rattle.std.specs.Prelude.{◌≡◌, MatchBool};
ghost use Rattle.plc_oblig.specs.Programs.{ProgramFits};
ghost use Rattle.plc_oblig.specs.Outlines.{is_large, HasSmallSets, HasLargeSet};

use crate::annotated::Annotated;
use crate::runs::{Counted, Place, count_points, next_from};
use crate::size::clauses_where;
use plc_base::What1;
use plc_vocabulary::Obligation;

/// Whether the ground set of the obligation has more clauses than it may.
fn is_large(program: &Annotated<'_>, o: &Obligation) -> bool
    requires fits { ProgramFits program.now }
    ensures { result ≡ is_large program.now.flow.now program.now.outline.now o.now }
{
    clauses_where(program, o) > What1::Clauses.most() as u64
}

/// Whether the ground set of any obligation has more clauses than it may. It takes no memory.
pub fn has_large_set(program: &Annotated<'_>) -> bool
    requires { ProgramFits program.now }
    ensures { MatchBool result (HasLargeSet program.now.flow.now program.now.outline.now)
        (HasSmallSets program.now.flow.now program.now.outline.now) }
{
    let counts = count_points(program.flow, program.outline);
    let counted = Counted {
        flow: program.flow,
        outline: program.outline,
        counts: &counts[..program.flow.points as usize],
    };
    let mut at = Place::at(0);
    'obligations: while let Some((o, after)) = next_from(counted, at) {
        if is_large(program, &o) {
            return true;
        }
        at = after;
    }
    false
}
