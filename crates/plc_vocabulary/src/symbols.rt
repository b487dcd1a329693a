// Runs of constants, each put after those that are there. The lists of a setting and the constants of a
// ground set are made of these runs.
ghost use Rattle.std.specs.Prelude.{◌≡◌, ◌≤◌, ◌<◌, ◌++◌, ◌∷◌, [], length, map, OnOk};
ghost use Rattle.plc_base.specs.Limits.{most};
ghost use Rattle.plc_base.specs.declared.limits.What1.TheVariants as limits;
ghost use Rattle.plc_ground.specs.declared.terms.Symbol.TheVariants as symbols;
ghost use Rattle.plc_vocabulary.specs.Setting.{below, only_if, loads_from, pointer_loads_from};
ghost use Rattle.plc_vocabulary.specs.Acts.{mark_of};

use crate::acts::{Act, mark_of};
use plc_base::{Items, NoMemory};
use plc_ground::Symbol;

/// Lists constants that are at hand.
pub fn push_all(list: &mut Items<Symbol>, more: &[Symbol]) -> Result<(), NoMemory>
    ensures { OnOk result (list.new ≡ list.old ++ more.now) }
{
    for symbol in more {
        list.push(*symbol)?;
    }
    Ok(())
}

/// Lists the constants of the shared pointers.
pub fn push_shared(list: &mut Items<Symbol>, count: usize) -> Result<(), NoMemory>
    requires { count ≤ most limits.Shared }
    ensures { OnOk result (list.new ≡ list.old ++ map symbols.Shared (below count)) }
{
    for i in 0..count {
        list.push(Symbol::Shared(i as u16))?;
    }
    Ok(())
}

/// Lists the constants of the nodes of which the conclusion speaks.
pub fn push_bound(list: &mut Items<Symbol>, count: u16) -> Result<(), NoMemory>
    ensures { OnOk result (list.new ≡ list.old ++ map symbols.Bound (below count)) }
{
    for i in 0..count {
        list.push(Symbol::Bound(i))?;
    }
    Ok(())
}

/// Lists the constants of the values of auxiliary fields.
pub fn push_values(list: &mut Items<Symbol>, count: u16) -> Result<(), NoMemory>
    ensures { OnOk result (list.new ≡ list.old ++ map symbols.Value (below count)) }
{
    for v in 0..count {
        list.push(Symbol::Value(v))?;
    }
    Ok(())
}

/// Lists a constant, where the set has it.
pub fn push_if(list: &mut Items<Symbol>, has: bool, symbol: Symbol) -> Result<(), NoMemory>
    ensures { OnOk result (list.new ≡ list.old ++ only_if has (symbol ∷ [])) }
{
    if has {
        list.push(symbol)?;
    }
    Ok(())
}

/// Lists the marks of what these constants stand for.
pub fn push_marks(list: &mut Items<Symbol>, of: &[Symbol]) -> Result<(), NoMemory>
    ensures { OnOk result (list.new ≡ list.old ++ map mark_of of.now) }
{
    for symbol in of {
        list.push(mark_of(*symbol))?;
    }
    Ok(())
}

/// Lists what each read gives.
pub fn push_loads(list: &mut Items<Symbol>, acts: &[Act]) -> Result<(), NoMemory>
    requires { length acts.now < 65536 }
    ensures { OnOk result (list.new ≡ list.old ++ loads_from 0 acts.now) }
{
    let mut loads = 0;
    for act in acts {
        if let Act::Fetch { .. } | Act::FetchMarked { .. } = act {
            list.push(Symbol::Loaded(loads))?;
            loads += 1;
        }
    }
    Ok(())
}

/// Lists what is read into pointers, each by its number among all that is read.
pub fn push_pointer_loads(list: &mut Items<Symbol>, acts: &[Act]) -> Result<(), NoMemory>
    requires { length acts.now < 65536 }
    ensures { OnOk result (list.new ≡ list.old ++ pointer_loads_from 0 acts.now) }
{
    let mut reads = 0;
    for act in acts {
        match act {
            Act::Fetch { pointer, .. } => {
                if *pointer {
                    list.push(Symbol::Loaded(reads))?;
                }
                reads += 1;
            }
            Act::FetchMarked { .. } => {
                list.push(Symbol::Loaded(reads))?;
                reads += 1;
            }
            Act::Assign { .. } | Act::Make { .. } | Act::Update { .. } => {}
            Act::Test { .. } | Act::Differ { .. } | Act::Skip => {}
        }
    }
    Ok(())
}
