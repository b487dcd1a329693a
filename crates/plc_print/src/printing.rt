// The parts of a file in the grammar's order.
ghost use Rattle.std.specs.Prelude.{◌≡◌, [], IfOk};
ghost use Rattle.plc_syntax.specs.Trees.{file_then};
ghost use Rattle.plc_print.specs.Canonical.{canonical_tree};
ghost use Rattle.plc_print.specs.Pieces.{Prints};
ghost use Rattle.plc_print.specs.Text.{canonical_text};

use crate::declarations::{
    auxiliaries, declared_functions, operations, shared_pointers, start, structure, watch,
};
use crate::outlines::outline;
use crate::tokens::{Printed, Printer};
use plc_auto::Observer;
use plc_base::NoMemory;
use plc_lang::File;
use plc_logic::Outline;
use plc_parse::Unit;
use std::alloc::Global;

/// All parts of a unit.
fn parts(
    alloc: Global,
    out: &mut Printer,
    file: &File,
    observer: Observer,
    outlined: &Outline,
) -> Printed
    ensures { Prints result out.old out.new (file_then
        (canonical_tree (record { file = file.now; observer = observer; outline = outlined.now })) []) }
{
    structure(out, file)?;
    shared_pointers(out, file, file.shared.as_slice())?;
    declared_functions(out, file)?;
    watch(out, file, observer)?;
    auxiliaries(out, file, file.ghosts.as_slice())?;
    start(out, file)?;
    operations(alloc, out, file, file.ops.as_slice())?;
    outline(alloc, out, file, outlined)
}

/// The canonical text of a unit: each name as the file has it, each token followed by one space, but
/// `;`, `{` and `}` by a line feed, and optional parts that are empty left out. Its one error is that
/// memory ran out.
pub fn print(alloc: Global, unit: &Unit) -> Result<Vec<u8>, NoMemory>
    ensures { IfOk result (λ text. text.items ≡ canonical_text unit.now) }
{
    print_parts(alloc, &unit.file, unit.observer, &unit.outline)
}

/// The same, for a caller that has the unit in parts.
pub fn print_parts(
    alloc: Global,
    file: &File,
    observer: Observer,
    outlined: &Outline,
) -> Result<Vec<u8>, NoMemory>
    ensures { IfOk result (λ text.
        text.items ≡ canonical_text (record { file = file.now; observer = observer; outline = outlined.now })) }
{
    let text = Vec::new(alloc);
    let mut out = Printer { alloc, text };
    parts(alloc, &mut out, file, observer, outlined)?;
    Ok(out.text)
}
