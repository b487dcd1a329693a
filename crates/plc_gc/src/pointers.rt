// Tables of pointers. Past its end a table reads as null, and a number that is put leaves the other one of its pointer.
ghost use Rattle.std.specs.Prelude.{◌≡◌, ◌<◌, get_or, length, nat_lt, if◌then◌else◌, Some, None};
ghost use Rattle.plc_gc.specs.State.{null_pointer, node_put, mark_put};

use crate::slot::Pointer;
use plc_moves::entry_or;

/// The pointer at a place of a table, null past its end.
pub fn pointer_at(pointers: &[Pointer], i: usize) -> Pointer
    ensures { result ≡ get_or pointers.now i null_pointer }
{
    entry_or(pointers, i, Pointer::null())
}

/// The node at a place of a table, if there is such a place.
pub fn find_node(pointers: &[Pointer], i: usize) -> Option<u32>
    ensures { result
        ≡ (if nat_lt i (length pointers.now) then Some (get_or pointers.now i null_pointer).node else None) }
{
    if i < pointers.len() {
        Some(pointers[i].node)
    } else {
        None
    }
}

/// Puts a node into a place of a table.
pub fn put_node(pointers: &mut Vec<Pointer>, i: usize, n: u32)
    requires { i < length pointers.old.items }
    ensures { pointers.new.items ≡ node_put pointers.old.items i n }
{
    pointers[i] = pointer_at(pointers, i).with_node(n);
}

/// Puts a mark into a place of a table.
pub fn put_mark(pointers: &mut Vec<Pointer>, i: usize, n: u32)
    requires { i < length pointers.old.items }
    ensures { pointers.new.items ≡ mark_put pointers.old.items i n }
{
    pointers[i] = pointer_at(pointers, i).with_mark(n);
}
