// The executed part. Each variable has a current constant and each map a current version. What was assigned and
// what was written is kept as it came, so the current ones are read off the past.
ghost use Rattle.std.specs.Prelude.{◌≡◌, ◌+◌, ◌<◌, ◌≤◌, true, IfOk, OnOk};
ghost use Rattle.std.specs.Prelude.{◌∷◌, [], length, flat_map};
ghost use Rattle.plc_ground.specs.declared.terms.Map.TheVariants as maps;
ghost use Rattle.plc_ground.specs.declared.terms.Symbol.TheVariants as symbols;
ghost use Rattle.plc_vocabulary.specs.declared.acts.Act.TheVariants.{FetchMarked, Update, Differ};
ghost use Rattle.plc_symbolic.specs.declared.symbolic.NodeTerm.TheVariants.{At};
ghost use Rattle.plc_symbolic.specs.declared.symbolic.SymbolicTerm.TheVariants.{Constant};
ghost use Rattle.plc_symbolic.specs.Numbering.{written, written_all};
ghost use Rattle.plc_symbolic.specs.Terms.{is};
ghost use Rattle.plc_encoding.specs.Execution.{start, current, version, held, map_now, assigned, after, after_all};
ghost use Rattle.plc_encoding.specs.Execution.{not_null, update_at, if_checked, test_lit};
ghost use Rattle.plc_encoding.specs.Execution.{act_clauses, executed_clauses};

use plc_base::{FieldId, Items, NoMemory};
use plc_ground::{Map, Symbol};
use plc_symbolic::{Draft, NodeTerm, SymbolicTerm, applied, is, is_not, term_of};
use plc_vocabulary::{Act, mark_of};
use std::alloc::Global;

/// What was executed so far: the variables that were given a constant, the maps that were written, and how
/// often a field was read.
#[derive(Drop)]
pub struct Execution {
    pub assigned: Items<(Symbol, Symbol)>,
    pub written: Items<Map>,
    pub loads: u16,
}

impl Execution {
    /// Nothing was executed. It takes no memory.
    pub fn new(alloc: Global) -> Execution
        ensures { result ≡ start }
    {
        Execution {
            assigned: Items::new(alloc),
            written: Items::new(alloc),
            loads: 0,
        }
    }
}

/// The constant that a variable has now; any other constant is itself.
pub fn current(x: &Execution, symbol: Symbol) -> Symbol
    ensures { result ≡ current x.now symbol }
{
    let mut now = symbol;
    for (variable, value) in x.assigned.as_slice() {
        if *variable == symbol {
            now = *value;
        }
    }
    now
}

/// The version that a map has now.
pub fn version(x: &Execution, map: Map) -> u16
    requires { length x.now.written < 65536 }
    ensures count { result ≡ version x.now map }
    ensures few { result ≤ length x.now.written }
{
    x.written.as_slice().iter().filter(|m| **m == map).count() as u16
}

/// The constant that a variable has now, as a term.
pub fn held(x: &Execution, symbol: Symbol) -> SymbolicTerm
    ensures { result ≡ held x.now symbol }
{
    SymbolicTerm::Constant(current(x, symbol))
}

/// Writes that the pointer isn't null.
pub fn push_not_null(x: &Execution, p: Symbol, out: &mut Draft) -> Result<(), NoMemory>
    ensures { OnOk result (out.new ≡ written out.old (not_null x.now p)) }
{
    out.push(&[is_not(held(x, p), SymbolicTerm::Constant(Symbol::Null))])
}

/// Gives a variable a constant, which it holds from now on.
fn assign(x: &mut Execution, to: Symbol, value: Symbol) -> Result<(), NoMemory>
    ensures { OnOk result (x.new ≡ assigned x.old to value) }
{
    x.assigned.push((to, value))?;
    Ok(())
}

/// Writes that a constant is what a map has now at a node.
fn push_read(
    x: &Execution,
    read: Symbol,
    map: Map,
    node: Symbol,
    out: &mut Draft,
) -> Result<(), NoMemory>
    requires { length x.now.written < 65536 }
    ensures { OnOk result (out.new ≡ written out.old
        (is (Constant read) (map_now x.now map (At (current x.now node))) ∷ [])) }
{
    let held = applied(map, version(x, map), NodeTerm::At(current(x, node)));
    out.push(&[is(SymbolicTerm::Constant(read), held)])
}

/// Writes that the node isn't null, and that the next constant of what is read is what its field has.
fn push_fetched(x: &Execution, node: Symbol, f: FieldId, out: &mut Draft) -> Result<(), NoMemory>
    requires { length x.now.written < 65536 }
    ensures { OnOk result (out.new ≡ written_all out.old (not_null x.now node
        ∷ (is (Constant (symbols.Loaded x.now.loads)) (map_now x.now (maps.Field f) (At (current x.now node))) ∷ [])
        ∷ [])) }
{
    push_not_null(x, node, out)?;
    push_read(x, Symbol::Loaded(x.loads), Map::Field(f), node, out)
}

/// Gives a variable the constant of what is read.
fn keep_read(x: &mut Execution, to: Symbol) -> Result<(), NoMemory>
    requires { x.old.loads < 65535 }
    ensures { OnOk result (x.new
        ≡ record (assigned x.old to (symbols.Loaded x.old.loads)) { loads = x.old.loads + 1 }) }
{
    assign(x, to, Symbol::Loaded(x.loads))?;
    x.loads += 1;
    Ok(())
}

/// Gives a variable the pointer that the field has at the node, and its mark. Both are read before the variable
/// changes, since it may be the one that names the node.
fn fetch_marked(
    x: &mut Execution,
    to: Symbol,
    node: Symbol,
    f: FieldId,
    out: &mut Draft,
) -> Result<(), NoMemory>
    requires written { length x.old.written < 65536 }
    requires loads { x.old.loads < 65535 }
    ensures clauses { OnOk result (out.new ≡ written_all out.old (act_clauses [] x.old (FetchMarked to node f))) }
    ensures after { OnOk result (x.new ≡ after x.old (FetchMarked to node f)) }
{
    let mark = Symbol::MarkLoaded(x.loads);
    push_fetched(x, node, f, out)?;
    push_read(x, mark, Map::FieldMark(f), node, out)?;
    assign(x, mark_of(to), mark)?;
    keep_read(x, to)
}

/// Writes at one node that the next version of a map differs from this one at most at the node that is written.
fn push_update_at(
    map: Map,
    version: u16,
    at: SymbolicTerm,
    value: SymbolicTerm,
    node: NodeTerm,
    out: &mut Draft,
) -> Result<(), NoMemory>
    requires { version < 65535 }
    ensures { OnOk result (out.new ≡ written_all out.old (update_at map version at value node)) }
{
    let term = term_of(node);
    let next = applied(map, version + 1, node);
    out.push(&[is_not(term, at), is(next, value)])?;
    out.push(&[is(term, at), is(next, applied(map, version, node))])
}

/// Writes the next version of a map, node by node.
fn push_updates(
    map: Map,
    version: u16,
    at: SymbolicTerm,
    value: SymbolicTerm,
    nodes: &[NodeTerm],
    out: &mut Draft,
) -> Result<(), NoMemory>
    requires { version < 65535 }
    ensures { OnOk result (out.new ≡ written_all out.old (flat_map (update_at map version at value) nodes.now)) }
{
    for node in nodes {
        push_update_at(map, version, at, value, *node, out)?;
    }
    Ok(())
}

/// Gives a map a value at a node.
fn update(
    x: &mut Execution,
    map: Map,
    at: Symbol,
    value: Symbol,
    nodes: &[NodeTerm],
    out: &mut Draft,
) -> Result<(), NoMemory>
    requires { length x.old.written < 65535 }
    ensures clauses { OnOk result (out.new
        ≡ written_all out.old
        (flat_map (update_at map (version x.old map) (held x.old at) (held x.old value)) nodes.now)) }
    ensures after { OnOk result (x.new ≡ after x.old (Update true map at value)) }
{
    let now = version(x, map);
    let (place, value) = (held(x, at), held(x, value));
    push_updates(map, now, place, value, nodes, out)?;
    x.written.push(map)?;
    Ok(())
}

/// Writes that two variables are equal, or are not.
fn test(
    x: &Execution,
    left: Symbol,
    right: Symbol,
    equal: bool,
    out: &mut Draft,
) -> Result<(), NoMemory>
    ensures { OnOk result (out.new ≡ written out.old (test_lit equal (held x.now left) (held x.now right) ∷ [])) }
{
    let (left, right) = (held(x, left), held(x, right));
    if equal {
        return out.push(&[is(left, right)]);
    }
    out.push(&[is_not(left, right)])
}

/// Writes that two pointers differ: in their nodes, or in their marks.
fn differ(x: &Execution, left: Symbol, right: Symbol, out: &mut Draft) -> Result<(), NoMemory>
    ensures { OnOk result (out.new ≡ written_all out.old (act_clauses [] x.now (Differ left right))) }
{
    let nodes = is_not(held(x, left), held(x, right));
    let marks = is_not(held(x, mark_of(left)), held(x, mark_of(right)));
    out.push(&[nodes, marks])
}

/// Writes that the pointer isn't null, where that is asked.
fn push_checked(x: &Execution, checked: bool, p: Symbol, out: &mut Draft) -> Result<(), NoMemory>
    ensures { OnOk result (out.new ≡ written_all out.old (if_checked checked (not_null x.now p))) }
{
    if checked {
        return push_not_null(x, p, out);
    }
    Ok(())
}

/// Takes one more act: writes its clauses, and keeps what holds after it.
fn act(x: &mut Execution, a: Act, nodes: &[NodeTerm], out: &mut Draft) -> Result<(), NoMemory>
    requires written { length x.old.written < 65535 }
    requires loads { x.old.loads < 65535 }
    ensures clauses { OnOk result (out.new ≡ written_all out.old (act_clauses nodes.now x.old a)) }
    ensures after { OnOk result (x.new ≡ after x.old a) }
{
    match a {
        Act::Assign { to, from } => {
            let value = current(x, from);
            assign(x, to, value)
        }
        Act::Make { to } => assign(x, to, Symbol::New),
        Act::Fetch { to, node, f, .. } => {
            push_fetched(x, node, f, out)?;
            keep_read(x, to)
        }
        Act::FetchMarked { to, node, f } => fetch_marked(x, to, node, f, out),
        Act::Update {
            checked,
            map,
            at,
            value,
        } => {
            push_checked(x, checked, at, out)?;
            update(x, map, at, value, nodes, out)
        }
        Act::Test { left, right, equal } => test(x, left, right, equal, out),
        Act::Differ { left, right } => differ(x, left, right, out),
        Act::Skip => Ok(()),
    }
}

/// Writes the clauses of what is executed, act by act. The answer is what was executed.
pub fn push_executed(
    alloc: Global,
    acts: &[Act],
    nodes: &[NodeTerm],
    out: &mut Draft,
) -> Result<Execution, NoMemory>
    requires { length acts.now < 65536 }
    ensures clauses { OnOk result (out.new ≡ written_all out.old (executed_clauses nodes.now start acts.now)) }
    ensures after { IfOk result (λ x. x ≡ after_all start acts.now) }
    ensures few { IfOk result (λ x. length x.written ≤ length acts.now) }
{
    let mut x = Execution::new(alloc);
    for a in acts {
        act(&mut x, *a, nodes, out)?;
    }
    Ok(x)
}

/// What acts make of variables and maps, where no clauses are wanted. The one error is that memory runs out.
pub fn execution_of(alloc: Global, acts: &[Act]) -> Result<Execution, NoMemory>
    requires { length acts.now < 65536 }
    ensures after { IfOk result (λ x. x ≡ after_all start acts.now) }
    ensures few { IfOk result (λ x. length x.written ≤ length acts.now) }
{
    let mut unread = Draft::new(alloc);
    push_executed(alloc, acts, &[], &mut unread)
}
