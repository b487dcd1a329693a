// Where the search is: the present branch, and the one table of what is equal on it. Both grow where
// the search goes down to a child, and are cut back where it goes up to a split again, so nothing is
// copied at a child. What a split stands on is told by two lengths alone, that of the branch and the
// table's mark.
ghost use Rattle.plc_solve.specs.Search.{IsCutTo};

use crate::frame::Frame;
use plc_ground::{Equalities, Lit, take_back};

/// The present branch, and what is equal on it.
#[derive(Drop)]
pub(crate) struct Place {
    pub branch: Vec<Lit>,
    pub equal: Equalities,
}

/// Goes up to a split.
pub(crate) fn go_up(place: &mut Place, frame: &Frame)
    ensures { IsCutTo frame.now place.old place.new }
{
    place.branch.truncate(frame.depth);
    take_back(&mut place.equal, frame.mark);
}
