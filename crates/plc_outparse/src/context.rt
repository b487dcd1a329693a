// What the file says that its outline speaks of. It is known as a whole before any item's meaning is worked out.
use plc_base::Items;
use plc_lang::Op;
use plc_scope::Scope;

/// The names in reach after all operations, the operations, and the labels in each.
#[derive(Clone, Copy)]
pub struct Context<'a> {
    pub scope: &'a Scope,
    pub ops: &'a [Op],
    pub by_op: &'a [Items<u16>],
}
