// Primitives as a file spells them. What a file can't spell, the call of a reclaimer function apart from its return, is
// said in words.
use plc_answers::{push, push_bytes, push_number};
use plc_base::FieldId;
use plc_lang::{
    Arg, File, GhostVal, Local, Num, Prim, Rel, Var, auxiliary_name, data_name, field_name,
    function_name, pointer_name, value_name, variable_name,
};
use std::alloc::AllocError;

/// Where names stand: in the file, and among the locals of an operation.
#[derive(Clone, Copy)]
struct Names<'a> {
    file: &'a File,
    locals: &'a [Local],
}

impl<'a> Names<'a> {
    /// The name of a pointer variable.
    fn of(self, var: Var) -> &'a [u8] {
        variable_name(self.file, self.locals, var)
    }

    /// The name of a pointer local.
    fn pointer(self, v: u16) -> &'a [u8] {
        pointer_name(self.file, self.locals, v)
    }

    /// The name of a data local.
    fn data(self, x: u16) -> &'a [u8] {
        data_name(self.file, self.locals, x)
    }

    /// The name of a field.
    fn field(self, f: FieldId) -> &'a [u8] {
        field_name(self.file, f)
    }
}

/// Two names with a sign between them.
fn push_pair(out: &mut Vec<u8>, left: &[u8], sign: &str, right: &[u8]) -> Result<(), AllocError> {
    push_bytes(out, left)?;
    push(out, sign)?;
    push_bytes(out, right)
}

/// A name with words after it.
fn push_after(out: &mut Vec<u8>, name: &[u8], words: &str) -> Result<(), AllocError> {
    push_bytes(out, name)?;
    push(out, words)
}

/// A name with a word before it.
fn push_before(out: &mut Vec<u8>, word: &str, name: &[u8]) -> Result<(), AllocError> {
    push(out, word)?;
    push_bytes(out, name)
}

/// A field of a node.
fn push_field(out: &mut Vec<u8>, node: &[u8], field: &[u8]) -> Result<(), AllocError> {
    push_pair(out, node, ".", field)
}

/// A field that is read: what takes it, the sign, the node and the field.
fn push_read(
    out: &mut Vec<u8>,
    into: &[u8],
    sign: &str,
    node: &[u8],
    field: &[u8],
) -> Result<(), AllocError> {
    push_after(out, into, sign)?;
    push_field(out, node, field)
}

/// A field that is written: the node and the field, the sign, and what is put there.
fn push_written(
    out: &mut Vec<u8>,
    node: &[u8],
    field: &[u8],
    sign: &str,
    from: &[u8],
) -> Result<(), AllocError> {
    push_field(out, node, field)?;
    push_before(out, sign, from)
}

/// A number that stands in the text, or a data local.
fn push_value(out: &mut Vec<u8>, names: Names, e: Num) -> Result<(), AllocError> {
    match e {
        Num::Lit(n) => push_number(out, u64::from(n)),
        Num::Local(y) => push_bytes(out, names.data(y)),
    }
}

/// How data values are compared.
fn sign_of(rel: Rel) -> &'static str {
    match rel {
        Rel::Eq => " == ",
        Rel::Ne => " != ",
        Rel::Lt => " < ",
        Rel::Ge => " >= ",
    }
}

/// What a reclaimer function is called with.
fn argument<'a>(names: Names<'a>, arg: Arg) -> &'a [u8] {
    match arg {
        Arg::None => &[],
        Arg::Null => b"null",
        Arg::Var(p) => names.of(p),
    }
}

/// What is put into an auxiliary field.
fn ghost_value(file: &File, g: u16, v: GhostVal) -> &[u8] {
    match v {
        GhostVal::Value(v) => value_name(file, g, v),
        GhostVal::Me => b"me",
        GhostVal::None => b"none",
    }
}

/// What memory doesn't see: calls and returns, claims, and what is put into auxiliary fields.
fn push_unseen(out: &mut Vec<u8>, names: Names, prim: Prim) -> Result<(), AllocError> {
    match prim {
        Prim::Call { func, arg } => {
            push_before(out, "call ", function_name(names.file, func))?;
            push_before(out, "(", argument(names, arg))?;
            push(out, ")")
        }
        Prim::Done { func } => push_before(out, "return of ", function_name(names.file, func)),
        Prim::Active { p } => push_before(out, "active ", names.of(p)),
        Prim::Ghost { p, g, v } => {
            push_before(out, "ghost ", names.of(p))?;
            push_before(out, ".", auxiliary_name(names.file, g))?;
            push_before(out, " := ", ghost_value(names.file, g, v))
        }
        _ => Ok(()),
    }
}

/// What is done with data, or what `push_unseen` has.
fn push_data(out: &mut Vec<u8>, names: Names, prim: Prim) -> Result<(), AllocError> {
    match prim {
        Prim::DataSet { x, e } => {
            push_after(out, names.data(x), " := ")?;
            push_value(out, names, e)
        }
        Prim::DataLoad { x, q, f } => {
            push_read(out, names.data(x), " := ", names.of(q), names.field(f))
        }
        Prim::DataStore { p, f, e } => {
            push_written(out, names.of(p), names.field(f), " := ", &[])?;
            push_value(out, names, e)
        }
        Prim::DataTest { rel, x, e } => {
            push_after(out, names.data(x), sign_of(rel))?;
            push_value(out, names, e)
        }
        _ => push_unseen(out, names, prim),
    }
}

/// What goes on only where something is so of pointers, or what `push_data` has.
fn push_test(out: &mut Vec<u8>, names: Names, prim: Prim) -> Result<(), AllocError> {
    match prim {
        Prim::Eq { p, q } => push_pair(out, names.of(p), " == ", names.of(q)),
        Prim::Ne { p, q } => push_pair(out, names.of(p), " != ", names.of(q)),
        Prim::IsNull { p } => push_after(out, names.of(p), " == null"),
        Prim::NotNull { p } => push_after(out, names.of(p), " != null"),
        Prim::MarkTest { p, yes: true } => push_before(out, "marked ", names.of(p)),
        Prim::MarkTest { p, yes: false } => push_before(out, "unmarked ", names.of(p)),
        Prim::Refresh { p, q } => push_pair(out, names.pointer(p), " ?= ", names.of(q)),
        Prim::RefreshLoad { p, q, f } => {
            push_read(out, names.pointer(p), " ?= ", names.of(q), names.field(f))
        }
        Prim::RefreshStore { p, f, q } => {
            push_written(out, names.of(p), names.field(f), " ?= ", names.of(q))
        }
        _ => push_data(out, names, prim),
    }
}

/// What is put into a pointer or a pointer field, or what `push_test` has.
fn push_set(out: &mut Vec<u8>, names: Names, prim: Prim) -> Result<(), AllocError> {
    match prim {
        Prim::Null { p } => push_after(out, names.of(p), " := null"),
        Prim::Copy { p, q } => push_pair(out, names.of(p), " := ", names.of(q)),
        Prim::New { p } => push_after(out, names.of(p), " := new"),
        Prim::Load { p, q, f } => push_read(out, names.of(p), " := ", names.of(q), names.field(f)),
        Prim::Store { p, f, q } => {
            push_written(out, names.of(p), names.field(f), " := ", names.of(q))
        }
        Prim::StoreNull { p, f } => push_written(out, names.of(p), names.field(f), " := ", b"null"),
        Prim::Mark { p, q } => push_pair(out, names.of(p), " := mark ", names.of(q)),
        Prim::Unmark { p, q } => push_pair(out, names.of(p), " := unmark ", names.of(q)),
        _ => push_test(out, names, prim),
    }
}

/// A primitive of an operation with these locals, as the file spells it: `s := t.next`, `t == null`, `active t`. The
/// call of a reclaimer function is `call retire(t)`, its return `return of retire`. The one error is that memory runs
/// out.
pub fn push_primitive(
    out: &mut Vec<u8>,
    file: &File,
    locals: &[Local],
    prim: &Prim,
) -> Result<(), AllocError> {
    push_set(out, Names { file, locals }, *prim)
}
