// In which operation an item stands.
ghost use Rattle.std.specs.Prelude.{◌≡◌};
ghost use Rattle.plc_logic.specs.Sites.{op_of_site};

use crate::clause::Site;
use plc_base::Items;
use plc_lang::op_of_label;

/// The operation of an item, given the labels of each: the one that it names, or the one in which its
/// first label stands; `None` where it has no label, or where none has that label.
pub fn op_of_site(by_op: &[Items<u16>], site: &Site) -> Option<usize>
    ensures { result ≡ op_of_site by_op.now site.now }
{
    match site {
        Site::Over(op) => Some(op.0 as usize),
        Site::At(labels) => match labels.as_slice() {
            [] => None,
            [first, ..] => op_of_label(by_op, *first),
        },
    }
}
