// From tokens to the unit that they spell: the reader answers their tree, and what the tree means is the unit.
ghost use Rattle.std.specs.Prelude.{◌≡◌, ◌<◌, ◌^◌, length, IfOk, IfErr};
ghost use Rattle.plc_lang.specs.Fit.{FileFits, NamesWhatIsThere};
ghost use Rattle.plc_lang.specs.WellSorted.{FileIsWellSorted};
ghost use Rattle.plc_logic.specs.Fit.{OutlineFits};
ghost use Rattle.plc_parse.specs.declared.unit.Unit.{Unit as FileUnit};
ghost use Rattle.plc_parse.specs.Fit.{ObserverFits, UnitsFit};
ghost use Rattle.plc_parse.specs.Units.{IsUnitOf};
ghost use Rattle.plc_parse.specs.Faults.{IsFaultOf, UnitsAreUnique, FaultsAreOne};

use crate::file::file_unit;
use crate::unit::Unit;
use plc_base::What1;
use plc_lex::Token;
use plc_scope::ParseFault;
use plc_tree::{SyntaxFault, file_tree};
use std::alloc::Global;

/// The unit that tokens spell, or their fault. The syntax goes first over the whole file, with the
/// depth of its blocks: a fault of names, sorts or limits is answered only where the tokens are a
/// file's, however far before a fault of the syntax it stands. Then it is the fault at the least
/// token, and of two at one token the first in the order of [`ParseFault`].
///
/// The file is within the limits and names what it declares, and each thing stands where its kind
/// may stand; the functions of the observer are declared, one with a pointer for `hazard` and two
/// with none for `epoch`, and none is `retire`; and the outline fits the file: what its clauses name
/// is there, both sides of an equation have one sort, no invariant names a local or a thread, and
/// the labels of an item stand in one operation. There are fewer than 2^32 tokens.
pub fn parse(alloc: Global, tokens: &[Token]) -> Result<Unit, ParseFault>
    requires few { length tokens.now < 2 ^ 32 }
    ensures ok { IfOk result (λ unit. IsUnitOf tokens.now unit) }
    ensures spelled { (unit : FileUnit) → IsUnitOf tokens.now unit → IfErr result (λ e. e ≡ ParseFault.Memory) }
    ensures fault { IfErr result (IsFaultOf tokens.now) }
    ensures fits { IfOk result (λ unit. FileFits unit.file) }
    ensures named { IfOk result (λ unit. NamesWhatIsThere unit.file) }
    ensures sorted { IfOk result (λ unit. FileIsWellSorted unit.file) }
    ensures observer { IfOk result (λ unit. ObserverFits unit.file unit.observer) }
    ensures outline { IfOk result (λ unit. OutlineFits unit.file unit.outline) }
{
    match file_tree(alloc, tokens) {
        Ok(form) => file_unit(alloc, tokens, &form),
        Err(SyntaxFault::Syntax { at }) => Err(ParseFault::Syntax { at }),
        Err(SyntaxFault::Nesting { .. }) => Err(ParseFault::past(What1::Nesting)),
        Err(SyntaxFault::Memory) => Err(ParseFault::Memory),
    }
}

/// The law that each list of tokens has at most one meaning: one unit, or one fault of names, sorts
/// or limits.
pub fn units_are_unique()
    ensures { UnitsAreUnique }
{}

/// The law that whatever unit tokens spell, its file, its observer and its outline fit: what
/// [`parse`] says of its answer follows from the tokens alone.
pub fn units_fit()
    ensures { UnitsFit }
{}

/// The law that a list of tokens has at most one fault, of syntax, nesting or meaning, and none
/// beside a unit: the answer that tokens are due is a function of them. Only memory may run out
/// beside.
pub fn faults_are_one()
    ensures { FaultsAreOne }
{}
