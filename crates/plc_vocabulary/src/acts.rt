// What primitives do in ground sets, a row for each. A variable is named by the constant that it has at
// first, and every other constant names itself, so the right sides need no type of their own.
ghost use Rattle.std.specs.Prelude.{◌≡◌, ◌++◌, ◌∷◌, [], true, OnOk};
ghost use Rattle.plc_ground.specs.declared.terms.Map.TheVariants as maps;
ghost use Rattle.plc_ground.specs.declared.terms.Symbol.TheVariants as symbols;
ghost use Rattle.plc_lang.specs.Fit.{FileFits};
ghost use Rattle.plc_lang.specs.WellSorted.{WriteIsWellSorted, IsWellSorted, AreWellSorted};
ghost use Rattle.plc_vocabulary.specs.declared.acts.Act.TheVariants.{Assign, Make, Fetch, FetchMarked, Update, Test};
ghost use Rattle.plc_vocabulary.specs.declared.acts.Act.TheVariants.{Differ};
ghost use Rattle.plc_vocabulary.specs.Acts.{symbol_at, pointer_symbol, number_symbol, ghost_symbol};
ghost use Rattle.plc_vocabulary.specs.Acts.{data_test, call_act};
ghost use Rattle.plc_vocabulary.specs.Acts.{mark_of, truth, assign_marked, store_marked, same_marked};
ghost use Rattle.plc_vocabulary.specs.Acts.{act_of, marked_acts, acts_of};

use crate::setting::Variables;
use plc_base::{FieldId, Items, NoMemory};
use plc_ground::{Map, Symbol};
use plc_lang::{Arg, File, GhostVal, Num, Prim, Rel, Var, value_number};

/// What a primitive does.
#[derive(Clone, Copy)]
pub enum Act {
    /// The variable's constant becomes that of the other.
    Assign {
        to: Symbol,
        from: Symbol,
    },
    /// The variable's constant becomes that of the new node.
    Make {
        to: Symbol,
    },
    /// A field of a node that isn't null is read into a constant of its own.
    Fetch {
        to: Symbol,
        node: Symbol,
        f: FieldId,
        pointer: bool,
    },
    /// A pointer field of a node that isn't null is read with its mark, each into a constant of its own.
    FetchMarked {
        to: Symbol,
        node: Symbol,
        f: FieldId,
    },
    /// A map is written at a node, which may have to be other than null.
    Update {
        checked: bool,
        map: Map,
        at: Symbol,
        value: Symbol,
    },
    /// Two constants are equal, or are not.
    Test {
        left: Symbol,
        right: Symbol,
        equal: bool,
    },
    /// Two pointers differ, in their nodes or in their marks.
    Differ {
        left: Symbol,
        right: Symbol,
    },
    /// Nothing.
    Skip,
}

/// The constant at a place, null past the end.
fn symbol_at(symbols: &Items<Symbol>, k: u16) -> Symbol
    ensures { result ≡ symbol_at symbols.now k }
{
    match symbols.get(k as usize) {
        None => Symbol::Null,
        Some(symbol) => *symbol,
    }
}

/// The constant that a pointer variable has at first.
pub fn pointer_symbol(variables: &Variables, p: Var) -> Symbol
    ensures { result ≡ pointer_symbol variables.now p }
{
    match p {
        Var::Shared(i) => Symbol::Shared(i),
        Var::Local(v) => symbol_at(&variables.pointers, v),
    }
}

/// The constant of a data local.
fn data_symbol(variables: &Variables, x: u16) -> Symbol
    ensures { result ≡ symbol_at variables.now.values x }
{
    symbol_at(&variables.values, x)
}

/// The constant of what is put into data.
fn number_symbol(variables: &Variables, e: Num) -> Symbol
    ensures { result ≡ number_symbol variables.now e }
{
    match e {
        Num::Lit(n) => Symbol::Number(n),
        Num::Local(x) => data_symbol(variables, x),
    }
}

/// The constant of what is put into an auxiliary field.
fn ghost_symbol(file: &File, g: u16, v: GhostVal) -> Symbol
    requires fits { FileFits file.now }
    requires sorted { WriteIsWellSorted file.now g v }
    ensures { result ≡ ghost_symbol file.now.ghosts g v }
{
    match v {
        GhostVal::Value(v) => Symbol::Value(
            value_number(file.ghosts.as_slice(), g as usize, v) as u16,
        ),
        GhostVal::Me => Symbol::Me,
        GhostVal::None => Symbol::Nobody,
    }
}

/// A variable gets a constant.
fn assign(to: Symbol, from: Symbol) -> Act
    ensures { result ≡ Assign to from }
{
    Act::Assign { to, from }
}

/// A variable gets what a field holds.
fn fetch(to: Symbol, node: Symbol, f: FieldId, pointer: bool) -> Act
    ensures { result ≡ Fetch to node f pointer }
{
    Act::Fetch {
        to,
        node,
        f,
        pointer,
    }
}

/// A field gets a constant.
fn store(f: FieldId, at: Symbol, value: Symbol) -> Act
    ensures { result ≡ Update true (maps.Field f) at value }
{
    Act::Update {
        checked: true,
        map: Map::Field(f),
        at,
        value,
    }
}

/// Two constants are equal, or are not.
fn test(left: Symbol, right: Symbol, equal: bool) -> Act
    ensures { result ≡ Test left right equal }
{
    Act::Test { left, right, equal }
}

/// A test of data: an order says nothing in ground sets.
fn data_test(rel: Rel, left: Symbol, right: Symbol) -> Act
    ensures { result ≡ data_test rel left right }
{
    match rel {
        Rel::Eq => test(left, right, true),
        Rel::Ne => test(left, right, false),
        Rel::Lt | Rel::Ge => Act::Skip,
    }
}

/// A call retires its argument, where it is one of `retire`.
fn call(variables: &Variables, retires: bool, arg: Arg) -> Act
    ensures { result ≡ call_act variables.now retires arg }
{
    match arg {
        Arg::Var(p) if retires => Act::Update {
            checked: true,
            map: Map::Retired,
            at: pointer_symbol(variables, p),
            value: Symbol::Yes,
        },
        _ => Act::Skip,
    }
}

/// What a primitive of a thread with these variables does, in a program that uses no marks.
pub fn act_of(file: &File, v: &Variables, prim: &Prim) -> Act
    requires fits { FileFits file.now }
    requires sorted { IsWellSorted file.now prim.now }
    ensures { result ≡ act_of file.now.ghosts v.now prim.now }
{
    match *prim {
        Prim::Null { p } => assign(pointer_symbol(v, p), Symbol::Null),
        Prim::Copy { p, q } => assign(pointer_symbol(v, p), pointer_symbol(v, q)),
        Prim::New { p } => Act::Make {
            to: pointer_symbol(v, p),
        },
        Prim::Load { p, q, f } => fetch(pointer_symbol(v, p), pointer_symbol(v, q), f, true),
        Prim::Store { p, f, q } => store(f, pointer_symbol(v, p), pointer_symbol(v, q)),
        Prim::StoreNull { p, f } => store(f, pointer_symbol(v, p), Symbol::Null),
        Prim::DataSet { x, e } => assign(data_symbol(v, x), number_symbol(v, e)),
        Prim::DataLoad { x, q, f } => fetch(data_symbol(v, x), pointer_symbol(v, q), f, false),
        Prim::DataStore { p, f, e } => store(f, pointer_symbol(v, p), number_symbol(v, e)),
        Prim::Eq { p, q } => test(pointer_symbol(v, p), pointer_symbol(v, q), true),
        Prim::Ne { p, q } => test(pointer_symbol(v, p), pointer_symbol(v, q), false),
        Prim::IsNull { p } => test(pointer_symbol(v, p), Symbol::Null, true),
        Prim::NotNull { p } => test(pointer_symbol(v, p), Symbol::Null, false),
        Prim::DataTest { rel, x, e } => data_test(rel, data_symbol(v, x), number_symbol(v, e)),
        Prim::Refresh { p, q } => assign(symbol_at(&v.pointers, p), pointer_symbol(v, q)),
        Prim::RefreshLoad { p, q, f } => {
            fetch(symbol_at(&v.pointers, p), pointer_symbol(v, q), f, true)
        }
        Prim::RefreshStore { p, f, q } => store(f, pointer_symbol(v, p), pointer_symbol(v, q)),
        Prim::Mark { p, q } => assign(pointer_symbol(v, p), pointer_symbol(v, q)),
        Prim::Unmark { p, q } => assign(pointer_symbol(v, p), pointer_symbol(v, q)),
        Prim::MarkTest { .. } => Act::Skip,
        Prim::Call { func, arg } => call(v, func.is_retire(), arg),
        Prim::Done { .. } => Act::Skip,
        Prim::Active { .. } => Act::Skip,
        Prim::Ghost { p, g, v: value } => Act::Update {
            checked: false,
            map: Map::Ghost(g),
            at: pointer_symbol(v, p),
            value: ghost_symbol(file, g, value),
        },
    }
}

/// The constant of the mark of what a constant stands for.
pub fn mark_of(symbol: Symbol) -> Symbol
    ensures { result ≡ mark_of symbol }
{
    match symbol {
        Symbol::Shared(i) => Symbol::MarkShared(i),
        Symbol::Mine(v) => Symbol::MarkMine(v),
        Symbol::Theirs(v) => Symbol::MarkTheirs(v),
        Symbol::Loaded(r) => Symbol::MarkLoaded(r),
        Symbol::Null | Symbol::New | Symbol::Bound(_) => Symbol::No,
        Symbol::Yes | Symbol::No | Symbol::Nobody | Symbol::Me | Symbol::You => Symbol::No,
        Symbol::Value(_) | Symbol::Number(_) => Symbol::No,
        Symbol::MarkShared(_) | Symbol::MarkMine(_) => Symbol::No,
        Symbol::MarkTheirs(_) | Symbol::MarkLoaded(_) => Symbol::No,
    }
}

/// The constant of a mark that is set, or isn't.
fn truth(is_set: bool) -> Symbol
    ensures { result ≡ truth is_set }
{
    if is_set { Symbol::Yes } else { Symbol::No }
}

/// One more act.
fn push(acts: &mut Items<Act>, act: Act) -> Result<(), NoMemory>
    ensures { OnOk result (acts.new ≡ acts.old ++ act ∷ []) }
{
    acts.push(act)?;
    Ok(())
}

/// A variable gets a node and a mark.
fn push_assign(
    acts: &mut Items<Act>,
    to: Symbol,
    from: Symbol,
    mark: Symbol,
) -> Result<(), NoMemory>
    ensures { OnOk result (acts.new ≡ acts.old ++ assign_marked to from mark) }
{
    push(acts, assign(mark_of(to), mark))?;
    push(acts, assign(to, from))
}

/// A variable gets the node and the mark of another.
fn push_copy(acts: &mut Items<Act>, to: Symbol, from: Symbol) -> Result<(), NoMemory>
    ensures { OnOk result (acts.new ≡ acts.old ++ assign_marked to from (mark_of from)) }
{
    push_assign(acts, to, from, mark_of(from))
}

/// A variable gets the new node, which is unmarked.
fn push_make(acts: &mut Items<Act>, to: Symbol) -> Result<(), NoMemory>
    ensures { OnOk result (acts.new ≡ acts.old ++ (Assign (mark_of to) symbols.No ∷ Make to ∷ [])) }
{
    push(acts, assign(mark_of(to), Symbol::No))?;
    push(acts, Act::Make { to })
}

/// A variable gets the pointer that a field holds.
fn push_fetch(acts: &mut Items<Act>, to: Symbol, node: Symbol, f: FieldId) -> Result<(), NoMemory>
    ensures { OnOk result (acts.new ≡ acts.old ++ FetchMarked to node f ∷ []) }
{
    push(acts, Act::FetchMarked { to, node, f })
}

/// A field gets a node and a mark.
fn push_store(
    acts: &mut Items<Act>,
    f: FieldId,
    at: Symbol,
    value: Symbol,
    mark: Symbol,
) -> Result<(), NoMemory>
    ensures { OnOk result (acts.new ≡ acts.old ++ store_marked f at value mark) }
{
    push(acts, store(f, at, value))?;
    push(
        acts,
        Act::Update {
            checked: false,
            map: Map::FieldMark(f),
            at,
            value: mark,
        },
    )
}

/// A field gets the node and the mark of a variable.
fn push_stored(acts: &mut Items<Act>, f: FieldId, at: Symbol, value: Symbol) -> Result<(), NoMemory>
    ensures { OnOk result (acts.new ≡ acts.old ++ store_marked f at value (mark_of value)) }
{
    push_store(acts, f, at, value, mark_of(value))
}

/// Two variables are equal, in their nodes and in their marks.
fn push_same(acts: &mut Items<Act>, left: Symbol, right: Symbol) -> Result<(), NoMemory>
    ensures { OnOk result (acts.new ≡ acts.old ++ same_marked left right) }
{
    push(acts, test(left, right, true))?;
    push(acts, test(mark_of(left), mark_of(right), true))
}

/// Two variables differ, in their nodes or in their marks.
fn push_differ(acts: &mut Items<Act>, left: Symbol, right: Symbol) -> Result<(), NoMemory>
    ensures { OnOk result (acts.new ≡ acts.old ++ Differ left right ∷ []) }
{
    push(acts, Act::Differ { left, right })
}

/// The mark of a variable is set, or isn't.
fn push_marked_test(acts: &mut Items<Act>, p: Symbol, is_set: bool) -> Result<(), NoMemory>
    ensures { OnOk result (acts.new ≡ acts.old ++ Test (mark_of p) (truth is_set) true ∷ []) }
{
    push(acts, test(mark_of(p), truth(is_set), true))
}

/// What a primitive does in a program that uses marks.
fn push_marked(
    acts: &mut Items<Act>,
    file: &File,
    v: &Variables,
    prim: &Prim,
) -> Result<(), NoMemory>
    requires fits { FileFits file.now }
    requires sorted { IsWellSorted file.now prim.now }
    ensures { OnOk result (acts.new ≡ acts.old ++ marked_acts file.now.ghosts v.now prim.now) }
{
    match *prim {
        Prim::Null { p } => push_assign(acts, pointer_symbol(v, p), Symbol::Null, Symbol::No),
        Prim::Copy { p, q } => push_copy(acts, pointer_symbol(v, p), pointer_symbol(v, q)),
        Prim::New { p } => push_make(acts, pointer_symbol(v, p)),
        Prim::Load { p, q, f } => {
            push_fetch(acts, pointer_symbol(v, p), pointer_symbol(v, q), f)
        }
        Prim::Store { p, f, q } | Prim::RefreshStore { p, f, q } => {
            push_stored(acts, f, pointer_symbol(v, p), pointer_symbol(v, q))
        }
        Prim::StoreNull { p, f } => {
            push_store(acts, f, pointer_symbol(v, p), Symbol::Null, Symbol::No)
        }
        Prim::Eq { p, q } => push_same(acts, pointer_symbol(v, p), pointer_symbol(v, q)),
        Prim::Ne { p, q } => push_differ(acts, pointer_symbol(v, p), pointer_symbol(v, q)),
        Prim::Refresh { p, q } => {
            push_copy(acts, symbol_at(&v.pointers, p), pointer_symbol(v, q))
        }
        Prim::RefreshLoad { p, q, f } => {
            push_fetch(acts, symbol_at(&v.pointers, p), pointer_symbol(v, q), f)
        }
        Prim::Mark { p, q } => {
            push_assign(
                acts,
                pointer_symbol(v, p),
                pointer_symbol(v, q),
                Symbol::Yes,
            )
        }
        Prim::Unmark { p, q } => {
            push_assign(acts, pointer_symbol(v, p), pointer_symbol(v, q), Symbol::No)
        }
        Prim::MarkTest { p, yes } => push_marked_test(acts, pointer_symbol(v, p), yes),
        Prim::DataSet { .. } | Prim::DataLoad { .. } | Prim::DataStore { .. } => {
            push(acts, act_of(file, v, prim))
        }
        Prim::IsNull { .. } | Prim::NotNull { .. } | Prim::DataTest { .. } => {
            push(acts, act_of(file, v, prim))
        }
        Prim::Call { .. } | Prim::Done { .. } | Prim::Active { .. } | Prim::Ghost { .. } => {
            push(acts, act_of(file, v, prim))
        }
    }
}

/// Lists what primitives do, in their order, where it is known whether the program uses marks.
pub fn push_acts(
    acts: &mut Items<Act>,
    file: &File,
    variables: &Variables,
    marked: bool,
    prims: &[Prim],
) -> Result<(), NoMemory>
    requires fits { FileFits file.now }
    requires sorted { AreWellSorted file.now prims.now }
    ensures { OnOk result (acts.new ≡ acts.old ++ acts_of marked file.now.ghosts variables.now prims.now) }
{
    for prim in prims {
        if marked {
            push_marked(acts, file, variables, prim)?;
        } else {
            acts.push(act_of(file, variables, prim))?;
        }
    }
    Ok(())
}
