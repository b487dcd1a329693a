// Reclaimers are asked for by name. They are handed on as a plain list, and not as a struct
// with a view of its own: the value of a view may hold no functions, and meanings are functions.
ghost use Rattle.std.specs.Prelude.{◌≡◌, ◌<◌, IfSome, length, map};
ghost use Rattle.std.specs.Str.{bytes_eq};
ghost use Rattle.plc_reclaim.specs.Lookup.{first_named};

use crate::reclaimer::Reclaimer;

/// Whether a reclaimer has this name.
fn is_named(reclaimer: &Box<dyn Reclaimer>, name: &str) -> bool
    ensures { result ≡ bytes_eq name.now (named reclaimer.now) }
{
    name == reclaimer.name()
}

/// The number of the first of these reclaimers that has this name, or `None` where none has it.
pub fn find_named(reclaimers: &[Box<dyn Reclaimer>], name: &str) -> Option<usize>
    ensures number { result ≡ first_named (map named reclaimers.now) name.now }
    ensures within { IfSome result (λ i. i < length reclaimers.now) }
{
    for i in 0..reclaimers.len() {
        if is_named(&reclaimers[i], name) {
            return Some(i);
        }
    }
    None
}
