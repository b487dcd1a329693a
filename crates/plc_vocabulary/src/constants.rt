// The constants of a ground set, in the order in which they are listed.
ghost use Rattle.std.specs.Prelude.{◌≡◌, ◌≤◌, ◌<◌, ◌++◌, ◌∷◌, [], length, map, OnOk, IfOk};
ghost use Rattle.std.specs.List.{sum_by};
ghost use Rattle.plc_lang.specs.Numbering.{values_in};
ghost use Rattle.plc_vocabulary.specs.Acts.{most_acts};
ghost use Rattle.plc_ground.specs.declared.terms.Symbol.TheVariants as symbols;
ghost use Rattle.plc_vocabulary.specs.Fit.{Fits};
ghost use Rattle.plc_vocabulary.specs.Setting.{only_if, numbers_of, constants_of};

use crate::numbers::put_all;
use crate::setting::Setting;
use crate::symbols::{push_all, push_bound, push_if, push_loads, push_shared, push_values};
use plc_base::{Items, NoMemory};
use plc_flow::Flow;
use plc_ground::Symbol;
use plc_lang::Ghost;
use plc_logic::Outline;
use std::alloc::Global;
use std::collections::BTreeSet;

/// How many values all auxiliary fields have.
fn count_values(ghosts: &[Ghost]) -> u16
    requires { sum_by values_in ghosts.now < 65536 }
    ensures { result ≡ sum_by values_in ghosts.now }
{
    let mut count = 0;
    for field in ghosts {
        count += field.values.len() as u16;
    }
    count
}

/// Lists the numbers as constants.
fn push_numbers(list: &mut Items<Symbol>, numbers: &BTreeSet<u32>) -> Result<(), NoMemory>
    ensures { OnOk result (list.new ≡ list.old ++ map symbols.Number numbers.now.keys) }
{
    for n in numbers {
        list.push(Symbol::Number(*n))?;
    }
    Ok(())
}

/// Lists the locals of both threads.
fn push_variables(list: &mut Items<Symbol>, s: &Setting) -> Result<(), NoMemory>
    ensures { OnOk result (list.new ≡ list.old ++ (s.now.mine.pointers ++ (s.now.mine.values
        ++ (s.now.theirs.pointers ++ s.now.theirs.values)))) }
{
    push_all(list, s.mine.pointers.as_slice())?;
    push_all(list, s.mine.values.as_slice())?;
    push_all(list, s.theirs.pointers.as_slice())?;
    push_all(list, s.theirs.values.as_slice())
}

/// Lists what `retired` is for a retired node, with it what marks are, and the threads.
fn push_truths_and_threads(
    list: &mut Items<Symbol>,
    marked: bool,
    owned: bool,
) -> Result<(), NoMemory>
    ensures { OnOk result (list.new ≡ list.old ++ (symbols.Yes ∷ (only_if marked (symbols.No ∷ [])
        ++ (symbols.Nobody ∷ symbols.Me ∷ only_if owned (symbols.You ∷ []))))) }
{
    list.push(Symbol::Yes)?;
    push_if(list, marked, Symbol::No)?;
    list.push(Symbol::Nobody)?;
    list.push(Symbol::Me)?;
    push_if(list, owned, Symbol::You)
}

/// Lists the numbers of the file and its outline, ascending, each once.
fn push_all_numbers(
    alloc: Global,
    list: &mut Items<Symbol>,
    flow: &Flow,
    outline: &Outline,
) -> Result<(), NoMemory>
    ensures { OnOk result (list.new ≡ list.old ++ map symbols.Number (numbers_of flow.now outline.now)) }
{
    let mut numbers = BTreeSet::new(alloc);
    put_all(&mut numbers, flow, outline)?;
    push_numbers(list, &numbers)
}

/// Lists the constants of a setting, in order.
fn push_constants(
    alloc: Global,
    list: &mut Items<Symbol>,
    flow: &Flow,
    outline: &Outline,
    s: &Setting,
) -> Result<(), NoMemory>
    requires fits { Fits flow.now outline.now }
    requires few { length s.now.acts ≤ most_acts }
    ensures { OnOk result (list.new ≡ list.old ++ constants_of flow.now outline.now s.now) }
{
    list.push(Symbol::Null)?;
    push_shared(list, flow.file.shared.len())?;
    push_variables(list, s)?;
    push_if(list, s.makes, Symbol::New)?;
    push_bound(list, s.bound)?;
    push_loads(list, s.acts.as_slice())?;
    push_truths_and_threads(list, s.marked, s.owned)?;
    push_values(list, count_values(flow.file.ghosts.as_slice()))?;
    push_all_numbers(alloc, list, flow, outline)?;
    push_all(list, s.marks.as_slice())
}

/// The constants of a setting, in order.
pub fn constants_of(
    alloc: Global,
    flow: &Flow,
    outline: &Outline,
    s: &Setting,
) -> Result<Items<Symbol>, NoMemory>
    requires fits { Fits flow.now outline.now }
    requires few { length s.now.acts ≤ most_acts }
    ensures { IfOk result (λ list. list ≡ constants_of flow.now outline.now s.now) }
{
    let mut list = Items::new(alloc);
    push_constants(alloc, &mut list, flow, outline, s)?;
    Ok(list)
}
