// What every item of a ground set rests on: the variables of the threads, what is executed, and the nodes.
ghost use Rattle.std.specs.Prelude.{◌≡◌, ◌≤◌, ◌++◌, [], length, map, IfOk, OnOk, IsOk, option_copied};
ghost use Rattle.plc_base.specs.Limits.{most};
ghost use Rattle.plc_base.specs.declared.limits.What1.TheVariants as limits;
ghost use Rattle.plc_lang.specs.Numbering.{places_from};
ghost use Rattle.plc_vocabulary.specs.Fit.{Fits};
ghost use Rattle.plc_vocabulary.specs.Unlisted.{no_variables, with_variables, no_nodes, unlisted};
ghost use Rattle.plc_vocabulary.specs.Setting.{local_symbol, variables_of, pointer_fields_from, bound_of, setting_of};
ghost use Rattle.plc_vocabulary.specs.Setting.{pointer_variables, mark_constants, without_nodes, with_nodes};
ghost use Rattle.plc_vocabulary.specs.Acts.{most_acts};
ghost use Rattle.plc_vocabulary.specs.Kinds.{is_kind};
ghost use Rattle.plc_vocabulary.specs.Marks.{program_uses_marks};

use crate::acts::{Act, push_acts};
use crate::nodes::{push_node_constants, push_nodes, push_plain_constants};
use crate::obligations::Obligation;
use crate::parts::{acting_locals, conclusion, executed, has_owner, owner_locals};
use crate::symbols::{push_all, push_marks, push_pointer_loads, push_shared};
use plc_base::{FieldId, Items, NoMemory};
use plc_flow::Flow;
use plc_ground::Symbol;
use plc_lang::{Field, Local, has_new};
use plc_logic::{Clause, Outline};
use plc_symbolic::NodeTerm;
use std::alloc::Global;

/// The locals of a thread: the constants of its pointer locals and of its data locals.
#[derive(Drop)]
pub struct Variables {
    pub pointers: Items<Symbol>,
    pub values: Items<Symbol>,
}

/// What the items of a ground set rest on.
#[derive(Drop)]
pub struct Setting {
    /// Whether the program uses marks.
    pub marked: bool,
    /// The locals of the acting thread.
    pub mine: Variables,
    /// The locals of the other thread, where its clause is looked at.
    pub theirs: Variables,
    pub owned: bool,
    /// What is executed.
    pub acts: Items<Act>,
    /// Whether a node is made.
    pub makes: bool,
    /// How many nodes the conclusion names.
    pub bound: u16,
    /// The pointer variables: shared ones, the acting thread's, the other thread's.
    pub pointers: Items<Symbol>,
    /// The constants that are nodes.
    pub constants: Items<Symbol>,
    /// The nodes: these constants and, at depth 1, their pointer fields.
    pub nodes: Items<NodeTerm>,
    /// The nodes at which premises are instantiated.
    pub instances: Items<NodeTerm>,
    /// The pointer fields of the struct.
    pub fields: Items<FieldId>,
    /// The marks of the pointer variables and of the pointers that are read, where the program uses marks.
    pub marks: Items<Symbol>,
}

/// Variables of which nothing is listed yet.
fn no_variables(alloc: Global) -> Variables
    ensures { result ≡ no_variables }
{
    Variables {
        pointers: Items::new(alloc),
        values: Items::new(alloc),
    }
}

/// The constant of a local, by its number among all locals of its operation.
pub fn local_symbol(owner: bool, place: u16) -> Symbol
    ensures { result ≡ local_symbol owner place }
{
    if owner {
        Symbol::Theirs(place)
    } else {
        Symbol::Mine(place)
    }
}

/// Whether a local is a pointer, or is data.
fn is_kind(local: &Local, pointers: bool) -> bool
    ensures { result ≡ is_kind pointers local.now }
{
    if pointers {
        local.pointer
    } else {
        !local.pointer
    }
}

/// Lists the constants of the locals of a kind, by their numbers among all locals.
fn push_locals(
    list: &mut Items<Symbol>,
    locals: &[Local],
    pointers: bool,
    owner: bool,
) -> Result<(), NoMemory>
    requires { length locals.now ≤ most limits.Locals }
    ensures { OnOk result (list.new ≡ list.old
        ++ map (local_symbol owner) (places_from (is_kind pointers) 0 locals.now)) }
{
    for (place, local) in locals.iter().enumerate() {
        if is_kind(local, pointers) {
            list.push(local_symbol(owner, place as u16))?;
        }
    }
    Ok(())
}

/// Lists the constants of locals, of the acting thread or of the other one.
fn push_variables(v: &mut Variables, locals: &[Local], owner: bool) -> Result<(), NoMemory>
    requires { length locals.now ≤ most limits.Locals }
    ensures { OnOk result (v.new ≡ with_variables v.old (variables_of owner locals.now)) }
{
    push_locals(&mut v.pointers, locals, true, owner)?;
    push_locals(&mut v.values, locals, false, owner)
}

/// Lists the pointer fields.
fn push_pointer_fields(ids: &mut Items<FieldId>, fields: &[Field]) -> Result<(), NoMemory>
    requires { length fields.now ≤ most limits.Fields }
    ensures { OnOk result (ids.new ≡ ids.old ++ pointer_fields_from 0 fields.now) }
{
    for (k, field) in fields.iter().enumerate() {
        if field.pointer {
            ids.push(FieldId(k as u16))?;
        }
    }
    Ok(())
}

/// How many names the conclusion has, if it is a clause.
pub fn bound_of(clause: Option<&Clause>) -> u16
    ensures { result ≡ bound_of (option_copied clause.entry) }
{
    match clause {
        None => 0,
        Some(clause) => clause.bound.len(),
    }
}

/// Lists the pointer variables of all threads that there are.
fn push_pointer_variables(
    list: &mut Items<Symbol>,
    mine: &Variables,
    theirs: &Variables,
    shared: usize,
) -> Result<(), NoMemory>
    requires { shared ≤ most limits.Shared }
    ensures { OnOk result (list.new ≡ list.old ++ pointer_variables shared mine.now theirs.now) }
{
    push_shared(list, shared)?;
    push_all(list, mine.pointers.as_slice())?;
    push_all(list, theirs.pointers.as_slice())
}

/// Lists the marks of pointer variables and of pointers that are read, where the program uses marks.
fn push_mark_constants(
    list: &mut Items<Symbol>,
    marked: bool,
    pointers: &[Symbol],
    loaded: &[Symbol],
) -> Result<(), NoMemory>
    ensures { OnOk result (list.new ≡ list.old ++ mark_constants marked pointers.now loaded.now) }
{
    if marked {
        push_marks(list, pointers)?;
        push_marks(list, loaded)?;
    }
    Ok(())
}

/// Lists the nodes of a setting, and what they are found from, where the rest of it is there. What it reads into
/// pointers, and the constants at which premises are instantiated, are listed beside it.
fn push_all_nodes(
    flow: &Flow,
    outline: &Outline,
    s: &mut Setting,
    loaded: &mut Items<Symbol>,
    plain: &mut Items<Symbol>,
) -> Result<(), NoMemory>
    requires fits { Fits flow.now outline.now }
    requires few { length s.old.acts ≤ most_acts }
    requires unlisted { s.old ≡ no_nodes s.old }
    requires none_loaded { loaded.old ≡ [] }
    requires none_plain { plain.old ≡ [] }
    ensures { OnOk result (s.new ≡ with_nodes flow.now outline.now s.old) }
{
    let deep = outline.depth == 1;
    push_pointer_loads(loaded, s.acts.as_slice())?;
    push_pointer_variables(&mut s.pointers, &s.mine, &s.theirs, flow.file.shared.len())?;
    push_pointer_fields(&mut s.fields, flow.file.fields.as_slice())?;
    let pointers = s.pointers.as_slice();
    let loads = loaded.as_slice();
    push_node_constants(&mut s.constants, pointers, s.makes, s.bound, loads)?;
    push_plain_constants(plain, pointers, s.bound, loads)?;
    let roots = s.constants.as_slice();
    let fields = s.fields.as_slice();
    push_nodes(&mut s.nodes, roots, deep, roots, fields)?;
    push_nodes(&mut s.instances, plain.as_slice(), deep, roots, fields)?;
    push_mark_constants(&mut s.marks, s.marked, pointers, loads)
}

/// Lists the nodes of a setting, and what they are found from, where the rest of it is there.
fn list_nodes(
    alloc: Global,
    flow: &Flow,
    outline: &Outline,
    s: &mut Setting,
) -> Result<(), NoMemory>
    requires fits { Fits flow.now outline.now }
    requires few { length s.old.acts ≤ most_acts }
    requires unlisted { s.old ≡ no_nodes s.old }
    ensures { OnOk result (s.new ≡ with_nodes flow.now outline.now s.old) }
{
    let mut loaded = Items::new(alloc);
    let mut plain = Items::new(alloc);
    push_all_nodes(flow, outline, s, &mut loaded, &mut plain)
}

/// Lists the variables of a setting and what is executed, where nothing of it is listed yet.
fn add_acts(flow: &Flow, outline: &Outline, o: &Obligation, s: &mut Setting) -> Result<(), NoMemory>
    requires fits { Fits flow.now outline.now }
    requires unlisted { s.old ≡ unlisted flow.now outline.now o.now }
    ensures { OnOk result (s.new ≡ without_nodes flow.now outline.now o.now) }
{
    push_variables(&mut s.mine, acting_locals(flow, o), false)?;
    push_variables(&mut s.theirs, owner_locals(flow, o), true)?;
    push_acts(
        &mut s.acts,
        &flow.file,
        &s.mine,
        s.marked,
        executed(flow, o),
    )
}

/// A setting of which nothing is listed yet.
fn unlisted(alloc: Global, marked: bool, flow: &Flow, outline: &Outline, o: &Obligation) -> Setting
    requires fits { Fits flow.now outline.now }
    requires marked { marked ≡ program_uses_marks flow.now outline.now }
    ensures { result ≡ unlisted flow.now outline.now o.now }
{
    Setting {
        marked,
        mine: no_variables(alloc),
        theirs: no_variables(alloc),
        owned: has_owner(o),
        acts: Items::new(alloc),
        makes: has_new(executed(flow, o)),
        bound: bound_of(conclusion(flow, outline, o)),
        pointers: Items::new(alloc),
        constants: Items::new(alloc),
        nodes: Items::new(alloc),
        instances: Items::new(alloc),
        fields: Items::new(alloc),
        marks: Items::new(alloc),
    }
}

/// Lists all that a setting has, where nothing of it is listed yet.
fn list_all(
    alloc: Global,
    flow: &Flow,
    outline: &Outline,
    o: &Obligation,
    s: &mut Setting,
) -> Result<(), NoMemory>
    requires fits { Fits flow.now outline.now }
    requires unlisted { s.old ≡ unlisted flow.now outline.now o.now }
    ensures { OnOk result (s.new ≡ setting_of flow.now outline.now o.now) }
{
    add_acts(flow, outline, o, s)?;
    list_nodes(alloc, flow, outline, s)
}

/// What was made, unless listing its parts failed. Handed on by a call, a setting has one way out, and is shown to be
/// whole there once (docs/architecture.md, "How do I keep the gate short?").
fn if_listed<T: Drop>(listed: Result<(), NoMemory>, made: T) -> Result<T, NoMemory>
    ensures made { IfOk result (λ r. r ≡ made) }
    ensures listed { IfOk result (λ _. IsOk listed) }
{
    listed?;
    Ok(made)
}

/// The setting of an obligation, where it is known whether the program uses marks.
pub fn setting_of(
    alloc: Global,
    marked: bool,
    flow: &Flow,
    outline: &Outline,
    o: &Obligation,
) -> Result<Setting, NoMemory>
    requires fits { Fits flow.now outline.now }
    requires marked { marked ≡ program_uses_marks flow.now outline.now }
    ensures setting { IfOk result (λ s. s ≡ setting_of flow.now outline.now o.now) }
    ensures few { IfOk result (λ s. length s.acts ≤ most_acts) }
{
    let mut s = unlisted(alloc, marked, flow, outline, o);
    let listed = list_all(alloc, flow, outline, o, &mut s);
    if_listed(listed, s)
}
