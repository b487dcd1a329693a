// How many clauses the ground set of an obligation has, item by item: a limit is asked of every obligation, and
// no set is made for it.
ghost use Rattle.std.specs.Prelude.{◌≡◌, ◌≤◌, ◌+◌, ◌*◌, cond, List, length, count_by, sum_by, All};
ghost use Rattle.plc_base.specs.Limits.{most, most_bound};
ghost use Rattle.plc_base.specs.declared.limits.What1.TheVariants as limits;
ghost use Rattle.plc_lang.specs.Locals.{is_other_data};
ghost use Rattle.plc_lang.specs.Fields.{is_pointer_field};
ghost use Rattle.plc_lang.specs.Fit.{FileFits};
ghost use Rattle.plc_flow.specs.WellFormed.{most_step_primitives};
ghost use Rattle.plc_vocabulary.specs.Fit.{Fits};
ghost use Rattle.plc_vocabulary.specs.Points.{clauses_at};
ghost use Rattle.plc_vocabulary.specs.Parts.{acting_locals, owner_locals, executed, conclusion, claim_made, clauses_of};
ghost use Rattle.plc_vocabulary.specs.Setting.{setting_of, bound_of};
ghost use Rattle.plc_vocabulary.specs.declared.setting.Setting.{Setting};
ghost use Rattle.plc_symbolic.specs.declared.symbolic.NodeTerm.{NodeTerm};
ghost use Rattle.plc_encoding.specs.declared.execution.Execution.{Execution};
ghost use Rattle.plc_encoding.specs.Items.{values_from, mark_values, beginning, freshness, denied};
ghost use Rattle.plc_oblig.specs.Programs.{ProgramFits, set_of};
ghost use Rattle.plc_oblig.specs.GroundSets.{ground_set};
ghost use Rattle.plc_oblig.specs.Size.{has_values, is_pointer_load, if_marked, store_size, test_size, call_size};
ghost use Rattle.plc_oblig.specs.Size.{pointer_count, prim_size, clause_size};
ghost use Rattle.plc_oblig.specs.Size.{AreSizesOf, AreFew, most_constants, most_pointers, most_deep_nodes, most_nodes};
ghost use Rattle.plc_oblig.specs.Size.{most_of_primitive, most_instances};

use crate::annotated::{Annotated, annotate};
use plc_base::PointId;
use plc_flow::Flow;
use plc_lang::{Arg, Field, File, Ghost, Local, Prim, Rel, has_new};
use plc_logic::{Clause, Outline};
use plc_vocabulary::{
    Obligation, acting_locals, acting_point, bound_of, claim_made, conclusion, executed,
    invariants_before, is_labelled, owner_locals, owner_point, stands_at,
};

/// How many there are of what a set rests on.
#[derive(Clone, Copy)]
pub struct Sizes {
    /// The pointer locals of the acting thread.
    pub mine: u64,
    /// The pointer variables of all threads.
    pub pointers: u64,
    /// The pointer fields of the struct.
    pub fields: u64,
    /// The nodes of which the conclusion speaks.
    pub bound: u64,
    /// Whether a node is made.
    pub made: bool,
    pub nodes: u64,
    /// The nodes at which premises are instantiated.
    pub instances: u64,
    /// Whether the program uses marks.
    pub marked: bool,
    /// The marks of pointer variables and of pointers that are read.
    pub marks: u64,
}

/// How many locals are pointers.
fn count_pointers(locals: &[Local]) -> u64
    ensures { result ≡ pointer_count locals.now }
{
    locals.iter().filter(|l| l.pointer).count() as u64
}

/// How many locals are data and no parameters.
fn count_other_data(locals: &[Local]) -> u64
    ensures { result ≡ count_by is_other_data locals.now }
{
    locals.iter().filter(|l| !l.pointer && !l.param).count() as u64
}

/// How many fields are pointer fields.
fn count_pointer_fields(fields: &[Field]) -> u64
    ensures { result ≡ count_by is_pointer_field fields.now }
{
    fields.iter().filter(|f| f.pointer).count() as u64
}

/// How many auxiliary fields have values.
fn count_enumerated(ghosts: &[Ghost]) -> u64
    ensures { result ≡ count_by has_values ghosts.now }
{
    ghosts.iter().filter(|g| !g.values.is_empty()).count() as u64
}

/// How many primitives load a pointer.
fn count_pointer_loads(prims: &[Prim]) -> u64
    ensures { result ≡ count_by is_pointer_load prims.now }
{
    let mut total = 0;
    for prim in prims {
        if matches!(prim, Prim::Load { .. } | Prim::RefreshLoad { .. }) {
            total += 1;
        }
    }
    total
}

/// How many clauses say something of marks, none where no marks are used.
fn if_marked(marked: bool, count: u64) -> u64
    ensures { result ≡ if_marked marked count }
{
    if marked { count } else { 0 }
}

/// How many clauses a store of a pointer gives, where there are so many nodes.
fn store_size(marked: bool, nodes: u64) -> u64
    requires { nodes ≤ most_nodes }
    ensures { result ≡ store_size marked nodes }
{
    1 + 2 * nodes + if_marked(marked, 2 * nodes)
}

/// How many clauses a test of data gives: an order says nothing in ground sets.
fn test_size(rel: Rel) -> u64
    ensures { result ≡ test_size rel }
{
    match rel {
        Rel::Eq | Rel::Ne => 1,
        Rel::Lt | Rel::Ge => 0,
    }
}

/// How many clauses a call gives: those of an update where it is one of `retire`.
fn call_size(nodes: u64, retires: bool, arg: Arg) -> u64
    requires { nodes ≤ most_nodes }
    ensures { result ≡ call_size nodes retires arg }
{
    match arg {
        Arg::Var(_) if retires => 1 + 2 * nodes,
        _ => 0,
    }
}

/// How many clauses a primitive gives, where there are so many nodes.
fn prim_size(marked: bool, nodes: u64, prim: &Prim) -> u64
    requires { nodes ≤ most_nodes }
    ensures size { result ≡ prim_size marked nodes prim.now }
    ensures few { result ≤ most_of_primitive }
{
    match *prim {
        Prim::Null { .. } | Prim::Copy { .. } | Prim::New { .. } | Prim::DataSet { .. } => 0,
        Prim::Load { .. } | Prim::RefreshLoad { .. } => 2 + if_marked(marked, 1),
        Prim::Store { .. } | Prim::StoreNull { .. } => store_size(marked, nodes),
        Prim::RefreshStore { .. } => store_size(marked, nodes),
        Prim::DataLoad { .. } => 2,
        Prim::DataStore { .. } => 1 + 2 * nodes,
        Prim::Eq { .. } => 1 + if_marked(marked, 1),
        Prim::Ne { .. } | Prim::IsNull { .. } | Prim::NotNull { .. } => 1,
        Prim::DataTest { rel, .. } => test_size(rel),
        Prim::Refresh { .. } | Prim::Mark { .. } | Prim::Unmark { .. } => 0,
        Prim::MarkTest { .. } => if_marked(marked, 1),
        Prim::Call { func, arg } => call_size(nodes, func.is_retire(), arg),
        Prim::Done { .. } | Prim::Active { .. } => 0,
        Prim::Ghost { .. } => 2 * nodes,
    }
}

/// How many pointer fields so many nodes have, where premises are deep.
fn deep_nodes(deep: bool, nodes: u64, fields: u64) -> u64
    requires nodes { nodes ≤ most_constants }
    requires fields { fields ≤ most limits.Fields }
    ensures size { result ≡ cond deep (nodes * fields) 0 }
    ensures small { result ≤ most_deep_nodes }
{
    if deep {
        return nodes * fields;
    }
    0
}

/// One where a node is made.
fn one_if(made: bool) -> u64
    ensures { result ≡ cond made 1 0 }
{
    if made { 1 } else { 0 }
}

/// How many pointer locals the acting thread has.
fn count_mine(flow: &Flow, o: &Obligation) -> u64
    requires { FileFits flow.now.file }
    ensures count { result ≡ pointer_count (acting_locals flow.now o.now) }
    ensures few { result ≤ most limits.Locals }
{
    count_pointers(acting_locals(flow, o))
}

/// How many pointer locals the thread has whose clause is looked at, where that is another.
fn count_theirs(flow: &Flow, o: &Obligation) -> u64
    requires { FileFits flow.now.file }
    ensures count { result ≡ pointer_count (owner_locals flow.now o.now) }
    ensures few { result ≤ most limits.Locals }
{
    count_pointers(owner_locals(flow, o))
}

/// How many pointer fields the file has.
fn count_fields(file: &File) -> u64
    requires { FileFits file.now }
    ensures count { result ≡ count_by is_pointer_field file.now.fields }
    ensures few { result ≤ most limits.Fields }
{
    count_pointer_fields(file.fields.as_slice())
}

/// How many pointers are loaded.
fn count_loads(flow: &Flow, outline: &Outline, o: &Obligation) -> u64
    requires { Fits flow.now outline.now }
    ensures count { result ≡ count_by is_pointer_load (executed flow.now o.now) }
    ensures few { result ≤ most_step_primitives }
{
    count_pointer_loads(executed(flow, o))
}

/// How many nodes the conclusion binds.
fn count_bound(flow: &Flow, outline: &Outline, o: &Obligation) -> u64
    requires { Fits flow.now outline.now }
    ensures count { result ≡ bound_of (conclusion flow.now outline.now o.now) }
    ensures few { result ≤ most_bound }
{
    bound_of(conclusion(flow, outline, o)) as u64
}

/// The counts on which the number of clauses depends.
fn sizes_of(program: &Annotated<'_>, o: &Obligation) -> Sizes
    requires fits { ProgramFits program.now }
    ensures sizes { AreSizesOf (setting_of program.now.flow.now program.now.outline.now o.now) result }
    ensures few { AreFew result }
{
    let flow = program.flow;
    let outline = program.outline;
    let marked = program.marked;
    let mine = count_mine(flow, o);
    let pointers = flow.file.shared.len() as u64 + mine + count_theirs(flow, o);
    let fields = count_fields(&flow.file);
    let bound = count_bound(flow, outline, o);
    let made = has_new(executed(flow, o));
    let loads = count_loads(flow, outline, o);
    let plain = pointers + bound + loads;
    let constants = plain + 1 + one_if(made);
    let deep = deep_nodes(outline.depth == 1, constants, fields);
    Sizes {
        mine,
        pointers,
        fields,
        bound,
        made,
        nodes: constants + deep,
        instances: plain + deep,
        marked,
        marks: if_marked(marked, pointers + loads),
    }
}

/// How many clauses say that each node has one of the values of each field.
fn values_size(ghosts: &[Ghost], nodes: u64) -> u64
    requires few { length ghosts.now ≤ most limits.Ghosts }
    requires nodes { nodes ≤ most_nodes }
    ensures size { (ts : List NodeTerm) → nodes ≡ length ts → result ≡ length (values_from 0 0 ghosts.now ts) }
    ensures small { result ≤ most limits.Ghosts * most_nodes }
{
    count_enumerated(ghosts) * nodes
}

/// How many clauses say that each mark is set or isn't.
fn mark_values_size(z: Sizes) -> u64
    requires { AreFew z }
    ensures size { (s : Setting) → AreSizesOf s z → result ≡ length (mark_values s) }
    ensures small { result ≤ most_constants + most limits.Fields * most_nodes }
{
    if_marked(z.marked, z.marks + z.fields * z.nodes)
}

/// How many clauses say how things are at first.
fn beginning_size(flow: &Flow, z: Sizes, o: &Obligation) -> u64
    requires few { AreFew z }
    requires shared { length flow.now.file.shared ≤ most limits.Shared }
    requires locals { length (acting_locals flow.now o.now) ≤ most limits.Locals }
    ensures size { (s : Setting) → AreSizesOf s z → result ≡ length (beginning flow.now s o.now) }
    ensures small { result ≤ 3 * most limits.Locals }
{
    let shared = flow.file.shared.len() as u64;
    match o {
        Obligation::Start { .. } => shared + z.bound + if_marked(z.marked, shared),
        Obligation::Enter { .. } => {
            z.mine + count_other_data(acting_locals(flow, o)) + if_marked(z.marked, z.mine)
        }
        Obligation::Own { .. } | Obligation::Other { .. } | Obligation::Claim { .. } => 0,
    }
}

/// How many clauses say what is known of the new node.
fn freshness_size(file: &File, z: Sizes) -> u64
    requires few { AreFew z }
    requires fields { length file.now.fields ≤ most limits.Fields }
    requires ghosts { length file.now.ghosts ≤ most limits.Ghosts }
    ensures size { (s : Setting) → AreSizesOf s z → result ≡ length (freshness file.now s) }
    ensures small { result ≤ 2 + most_pointers + most_nodes * most limits.Fields + 2 * most limits.Fields
        + most limits.Ghosts }
{
    if z.made {
        return 2
            + z.pointers
            + z.nodes * z.fields
            + file.fields.len() as u64
            + file.ghosts.len() as u64
            + if_marked(z.marked, z.fields);
    }
    0
}

/// How many instances a clause has, where each name stands for so many nodes.
fn instances_size(places: u64, clause: &Clause) -> u64
    requires few { places ≤ most_nodes }
    requires bound { length clause.now.bound.names ≤ most_bound }
    ensures size { result ≡ clause_size places clause.now }
    ensures small { result ≤ most_instances }
{
    let names = clause.bound.len();
    if names == 0 {
        return 1;
    }
    if names == 1 {
        return places;
    }
    places * places
}

/// How many instances clauses have, where each name stands for so many nodes.
fn premises_size(places: u64, clauses: &[Clause]) -> u64
    requires few { places ≤ most_nodes }
    requires bound { All (λ c. length c.bound.names ≤ most_bound) clauses.now }
    requires short { length clauses.now ≤ most limits.Invariants }
    ensures size { result ≡ sum_by (clause_size places) clauses.now }
    ensures small { result ≤ most limits.Invariants * most_instances }
{
    let mut total = 0;
    for clause in clauses {
        total += instances_size(places, clause);
    }
    total
}

/// How many instances the clauses at a point have, where each name stands for so many nodes.
fn point_size(places: u64, flow: &Flow, outline: &Outline, p: u16) -> u64
    requires few { places ≤ most_nodes }
    requires bound { All (λ i. length i.clause.bound.names ≤ most_bound) outline.now.items }
    requires short { length outline.now.items ≤ most limits.Items }
    ensures size { result ≡ sum_by (clause_size places) (clauses_at flow.now outline.now p) }
    ensures small { result ≤ length outline.now.items * most_instances }
{
    let labelled = is_labelled(flow, p);
    let mut total = 0;
    for item in outline.items.as_slice() {
        if stands_at(flow, p, labelled, item) {
            total += instances_size(places, &item.clause);
        }
    }
    total
}

/// How many clauses say what is executed, where there are so many nodes.
fn executed_size(marked: bool, nodes: u64, prims: &[Prim]) -> u64
    requires few { nodes ≤ most_nodes }
    requires short { length prims.now ≤ most_step_primitives }
    ensures size { result ≡ sum_by (prim_size marked nodes) prims.now }
    ensures small { result ≤ most_step_primitives * most_of_primitive }
{
    let mut total = 0;
    for prim in prims {
        total += prim_size(marked, nodes, prim);
    }
    total
}

/// How many instances the clauses of a point have, where a thread stands at one.
fn standing_size(places: u64, flow: &Flow, outline: &Outline, point: Option<PointId>) -> u64
    requires few { places ≤ most_nodes }
    requires fits { Fits flow.now outline.now }
    ensures size { result ≡ sum_by (clause_size places) (clauses_of flow.now outline.now point) }
    ensures small { result ≤ most limits.Items * most_instances }
{
    match point {
        None => 0,
        Some(point) => point_size(places, flow, outline, point.0),
    }
}

/// How many clauses say that the conclusion is false.
pub(crate) fn denied_size(flow: &Flow, outline: &Outline, o: &Obligation) -> u64
    requires { Fits flow.now outline.now }
    ensures size { (s : Setting) (x : Execution) → result ≡ length (denied flow.now outline.now s x o.now) }
    ensures small { result ≤ most_bound + most limits.Literals }
{
    if let Some(Prim::Active { .. }) = claim_made(flow, o) {
        return 2;
    }
    match conclusion(flow, outline, o) {
        None => 0,
        Some(clause) => clause.bound.len() as u64 + clause.literals.len() as u64,
    }
}

/// How many clauses the ground set of an obligation has, where it is known whether marks are used.
pub(crate) fn clauses_where(program: &Annotated<'_>, o: &Obligation) -> u64
    requires fits { ProgramFits program.now }
    ensures { result ≡ length (set_of program.now o.now).clauses }
{
    let flow = program.flow;
    let outline = program.outline;
    let z = sizes_of(program, o);
    values_size(flow.file.ghosts.as_slice(), z.nodes)
        + mark_values_size(z)
        + beginning_size(flow, z, o)
        + freshness_size(&flow.file, z)
        + premises_size(z.instances, invariants_before(outline, o))
        + standing_size(z.instances, flow, outline, acting_point(flow, o))
        + standing_size(z.instances, flow, outline, owner_point(o))
        + executed_size(program.marked, z.nodes, executed(flow, o))
        + denied_size(flow, outline, o)
}

/// How many clauses the ground set of an obligation has, from 0 to a few thousand millions. It takes no memory.
pub fn clauses(flow: &Flow, outline: &Outline, o: &Obligation) -> u64
    requires { Fits flow.now outline.now }
    ensures { result ≡ length (ground_set flow.now outline.now o.now).clauses }
{
    clauses_where(&annotate(flow, outline), o)
}
