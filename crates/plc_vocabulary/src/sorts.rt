// The sort of each term.
ghost use Rattle.std.specs.Prelude.{◌≡◌, ◌≤◌, length, slice_get};
ghost use Rattle.plc_base.specs.Limits.{most};
ghost use Rattle.plc_base.specs.declared.limits.What1.TheVariants as limits;
ghost use Rattle.plc_lang.specs.Fit.{FileFits};
ghost use Rattle.plc_lang.specs.Numbering.{value_at};
ghost use Rattle.plc_logic.specs.Fit.{pointer_sort, ghost_sort};
ghost use Rattle.plc_vocabulary.specs.Sorts.{field_sort, auxiliary_sort, local_sort, value_sort, loads_of, load_sort};
ghost use Rattle.plc_vocabulary.specs.Sorts.{map_sort, symbol_sort, sort_of};

use crate::acts::Act;
use crate::obligations::Obligation;
use crate::parts::{acting_locals, owner_locals};
use plc_base::FieldId;
use plc_flow::Flow;
use plc_ground::{Map, Sort, Symbol};
use plc_lang::{Field, File, Ghost, Local, value_at};
use plc_symbolic::SymbolicTerm;

/// The sort of a pointer, or of data.
fn pointer_sort(pointer: bool) -> Sort
    ensures { result ≡ pointer_sort pointer }
{
    if pointer { Sort::Node } else { Sort::Number }
}

/// The sort of what a field holds.
fn field_sort(fields: &[Field], f: FieldId) -> Sort
    ensures { result ≡ field_sort (slice_get fields.now f.0) }
{
    match fields.get(f.0 as usize) {
        None => Sort::Node,
        Some(field) => pointer_sort(field.pointer),
    }
}

/// The sort of what an auxiliary field with these values holds.
fn values_sort(g: u16, values: &[u16]) -> Sort
    ensures { result ≡ ghost_sort g values.now }
{
    match values {
        [] => Sort::Thread,
        [_, ..] => Sort::Value(g),
    }
}

/// The sort of what an auxiliary field holds.
fn auxiliary_sort(ghosts: &[Ghost], g: u16) -> Sort
    ensures { result ≡ auxiliary_sort g (slice_get ghosts.now g) }
{
    match ghosts.get(g as usize) {
        None => Sort::Thread,
        Some(held) => values_sort(g, held.values.as_slice()),
    }
}

/// The sort of what a map gives.
fn map_sort(file: &File, map: Map) -> Sort
    ensures { result ≡ map_sort file.now map }
{
    match map {
        Map::Field(f) => field_sort(file.fields.as_slice(), f),
        Map::Ghost(g) => auxiliary_sort(file.ghosts.as_slice(), g),
        Map::Retired => Sort::Truth,
        Map::FieldMark(_) => Sort::Truth,
    }
}

/// The sort of a local, by its number among all.
fn local_sort(locals: &[Local], place: u16) -> Sort
    ensures { result ≡ local_sort (slice_get locals.now place) }
{
    match locals.get(place as usize) {
        None => Sort::Node,
        Some(local) => pointer_sort(local.pointer),
    }
}

/// The sort of what is read, by its number among all that is read.
fn load_sort(acts: &[Act], k: u16) -> Sort
    ensures { result ≡ load_sort (slice_get (loads_of acts.now) k) }
{
    let mut left = k;
    for act in acts {
        match act {
            Act::Fetch { pointer, .. } => {
                if left == 0 {
                    return pointer_sort(*pointer);
                }
                left -= 1;
            }
            Act::FetchMarked { .. } => {
                if left == 0 {
                    return Sort::Node;
                }
                left -= 1;
            }
            Act::Assign { .. } | Act::Make { .. } | Act::Update { .. } => {}
            Act::Test { .. } | Act::Differ { .. } | Act::Skip => {}
        }
    }
    Sort::Node
}

/// The sort of a value, by its number among all values.
fn value_sort(ghosts: &[Ghost], v: u16) -> Sort
    requires { length ghosts.now ≤ most limits.Ghosts }
    ensures { result ≡ value_sort (value_at ghosts.now v) }
{
    match value_at(ghosts, v as u32) {
        None => Sort::Value(0),
        Some((g, _)) => Sort::Value(g as u16),
    }
}

/// The sort of a constant.
fn symbol_sort(flow: &Flow, o: &Obligation, acts: &[Act], symbol: Symbol) -> Sort
    requires { FileFits flow.now.file }
    ensures { result ≡ symbol_sort flow.now o.now acts.now symbol }
{
    match symbol {
        Symbol::Null => Sort::Node,
        Symbol::Shared(_) => Sort::Node,
        Symbol::Mine(k) => local_sort(acting_locals(flow, o), k),
        Symbol::Theirs(k) => local_sort(owner_locals(flow, o), k),
        Symbol::New => Sort::Node,
        Symbol::Bound(_) => Sort::Node,
        Symbol::Loaded(k) => load_sort(acts, k),
        Symbol::Yes => Sort::Truth,
        Symbol::No => Sort::Truth,
        Symbol::Nobody => Sort::Thread,
        Symbol::Me => Sort::Thread,
        Symbol::You => Sort::Thread,
        Symbol::Value(v) => value_sort(flow.file.ghosts.as_slice(), v),
        Symbol::Number(_) => Sort::Number,
        Symbol::MarkShared(_) => Sort::Truth,
        Symbol::MarkMine(_) => Sort::Truth,
        Symbol::MarkTheirs(_) => Sort::Truth,
        Symbol::MarkLoaded(_) => Sort::Truth,
    }
}

/// The sort of a term.
pub fn sort_of(flow: &Flow, o: &Obligation, acts: &[Act], term: SymbolicTerm) -> Sort
    requires { FileFits flow.now.file }
    ensures { result ≡ sort_of flow.now o.now acts.now term }
{
    match term {
        SymbolicTerm::Constant(symbol) => symbol_sort(flow, o, acts, symbol),
        SymbolicTerm::Application { map, .. } => map_sort(&flow.file, map),
    }
}
