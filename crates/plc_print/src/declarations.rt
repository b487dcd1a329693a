// The parts of a file, each with its optional parts left out where they are empty.
ghost use Rattle.std.specs.Prelude.{◌≡◌, [], IfOk, filter, map, drop};
ghost use Rattle.plc_lang.specs.Locals.{is_parameter};
ghost use Rattle.plc_lang.specs.Names.{name_at};
ghost use Rattle.plc_syntax.specs.Trees.{Declares, Auxiliary, each_then, maybe_then, placed_then, comma_name_then};
ghost use Rattle.plc_syntax.specs.Trees.{field_then, struct_then, shared_then, function_then, watch_then};
ghost use Rattle.plc_syntax.specs.Trees.{ghost_kind_then, ghost_then, initial_then, init_then, parameters_then};
ghost use Rattle.plc_syntax.specs.Trees.{op_then};
ghost use Rattle.plc_print.specs.Canonical.{declaration_tree, is_declared, op_tree, initial_tree, init_tree};
ghost use Rattle.plc_print.specs.Canonical.{ghost_kind, watch_tree};
ghost use Rattle.plc_print.specs.Outlines.{bare};
ghost use Rattle.plc_print.specs.Pieces.{Prints};

use crate::names::Reach;
use crate::primitives::initial_line;
use crate::statements::statements;
use crate::tokens::Piece::{Name, Word};
use crate::tokens::{BEGIN, CLOSE, COMMA, END, OPEN, Printed, Printer, SEMICOLON};
use plc_auto::Observer;
use plc_lang::{Field, File, Ghost, Local, Op, Prim, function_name, name_at};
use plc_lex::Keyword;
use std::alloc::{AllocError, Global};

/// A pointer or data.
fn declaration(out: &mut Printer, name: &[u8], pointer: bool) -> Printed
    ensures { Prints result out.old out.new (field_then (declaration_tree name.now pointer) []) }
{
    let word = if pointer { Keyword::Ptr } else { Keyword::Data };
    out.tokens(&[Word(word), Name(name), SEMICOLON])
}

/// The fields of the struct.
fn fields(out: &mut Printer, file: &File, fields: &[Field]) -> Printed
    ensures { Prints result out.old out.new (each_then field_then
        (map (λ f. declaration_tree (name_at file.now f.name) f.pointer) fields.now) []) }
{
    for field in fields {
        declaration(out, name_at(file, field.name), field.pointer)?;
    }
    Ok(())
}

/// The struct.
pub fn structure(out: &mut Printer, file: &File) -> Printed
    ensures { Prints result out.old out.new (struct_then (bare (name_at file.now 1))
        (map (λ f. declaration_tree (name_at file.now f.name) f.pointer) file.now.fields) []) }
{
    out.tokens(&[Word(Keyword::Struct), Name(name_at(file, 1)), BEGIN])?;
    fields(out, file, file.fields.as_slice())?;
    out.token(END)
}

/// The shared pointers, by the numbers of their names.
pub fn shared_pointers(out: &mut Printer, file: &File, numbers: &[u16]) -> Printed
    ensures { Prints result out.old out.new (each_then shared_then
        (map (λ n. bare (name_at file.now n)) numbers.now) []) }
{
    for number in numbers {
        let name = Name(name_at(file, *number));
        out.tokens(&[Word(Keyword::Shared), name, SEMICOLON])?;
    }
    Ok(())
}

/// A reclaimer function.
fn function(out: &mut Printer, name: &[u8], pointer: bool) -> Printed
    ensures { Prints result out.old out.new (function_then (Declares (bare name.now) pointer) []) }
{
    let (word, name) = (Word(Keyword::Call), Name(name));
    if pointer {
        out.tokens(&[word, name, OPEN, Word(Keyword::Ptr), CLOSE, SEMICOLON])
    } else {
        out.tokens(&[word, name, OPEN, CLOSE, SEMICOLON])
    }
}

/// The reclaimer functions but `retire`, which is declared from the start.
pub fn declared_functions(out: &mut Printer, file: &File) -> Printed
    ensures { Prints result out.old out.new (each_then function_then
        (map (λ f. Declares (bare (name_at file.now f.name)) f.pointer) (drop 1 file.now.funcs)) []) }
{
    let [_retire, others @ ..] = file.funcs.as_slice() else {
        return Ok(());
    };
    for func in others {
        function(out, name_at(file, func.name), func.pointer)?;
    }
    Ok(())
}

/// What is observed.
pub fn watch(out: &mut Printer, file: &File, observer: Observer) -> Printed
    ensures { Prints result out.old out.new (maybe_then watch_then (watch_tree file.now observer) []) }
{
    let word = Word(Keyword::Use);
    match observer {
        Observer::Plain => Ok(()),
        Observer::Hazard(func) => {
            let (scheme, name) = (Word(Keyword::Hazard), Name(function_name(file, func)));
            out.tokens(&[word, scheme, OPEN, name, CLOSE, SEMICOLON])
        }
        Observer::Epoch(enter, leave) => {
            let scheme = Word(Keyword::Epoch);
            let enter = Name(function_name(file, enter));
            let leave = Name(function_name(file, leave));
            out.tokens(&[word, scheme, OPEN, enter, COMMA, leave, CLOSE, SEMICOLON])
        }
    }
}

/// Names after the first, by their numbers.
fn comma_names(out: &mut Printer, file: &File, numbers: &[u16]) -> Printed
    ensures { Prints result out.old out.new (each_then comma_name_then
        (map (λ n. bare (name_at file.now n)) numbers.now) []) }
{
    for number in numbers {
        out.tokens(&[COMMA, Name(name_at(file, *number))])?;
    }
    Ok(())
}

/// What an auxiliary field holds, by the numbers of its values' names.
fn kind(out: &mut Printer, file: &File, values: &[u16]) -> Printed
    ensures { Prints result out.old out.new (ghost_kind_then (ghost_kind file.now values.now) []) }
{
    match values {
        [] => out.token(Word(Keyword::Thread)),
        [first, others @ ..] => {
            out.tokens(&[BEGIN, Name(name_at(file, *first))])?;
            comma_names(out, file, others)?;
            out.token(END)
        }
    }
}

/// An auxiliary field.
fn auxiliary(out: &mut Printer, file: &File, field: &Ghost) -> Printed
    ensures { Prints result out.old out.new (ghost_then
        (Auxiliary (bare (name_at file.now field.now.name)) (ghost_kind file.now field.now.values)) []) }
{
    out.tokens(&[Word(Keyword::Ghost), Name(name_at(file, field.name))])?;
    kind(out, file, field.values.as_slice())?;
    out.token(SEMICOLON)
}

/// The auxiliary fields.
pub fn auxiliaries(out: &mut Printer, file: &File, fields: &[Ghost]) -> Printed
    ensures { Prints result out.old out.new (each_then ghost_then
        (map (λ g. Auxiliary (bare (name_at file.now g.name)) (ghost_kind file.now g.values)) fields.now) []) }
{
    for field in fields {
        auxiliary(out, file, field)?;
    }
    Ok(())
}

/// The primitives of `init`.
fn initials(out: &mut Printer, file: &File, prims: &[Prim]) -> Printed
    ensures { Prints result out.old out.new (each_then (placed_then initial_then)
        (map (λ k. bare (initial_tree file.now k)) prims.now) []) }
{
    for prim in prims {
        initial_line(out, file, *prim)?;
    }
    Ok(())
}

/// `init`, which is left out where it is empty.
pub fn start(out: &mut Printer, file: &File) -> Printed
    ensures { Prints result out.old out.new (maybe_then init_then (init_tree file.now file.now.init) []) }
{
    match file.init.as_slice() {
        [] => Ok(()),
        [_first, _others @ ..] => {
            out.tokens(&[Word(Keyword::Init), BEGIN])?;
            initials(out, file, file.init.as_slice())?;
            out.token(END)
        }
    }
}

/// The numbers of the names of the parameters.
fn parameter_numbers(alloc: Global, locals: &[Local]) -> Result<Vec<u16>, AllocError>
    ensures { IfOk result (λ numbers. numbers.items ≡ map (λ l. l.name) (filter is_parameter locals.now)) }
{
    let mut numbers = Vec::new(alloc);
    for local in locals {
        if local.param {
            numbers.push(local.name)?;
        }
    }
    Ok(numbers)
}

/// Names with a comma before each but the first, by their numbers.
fn parted_names(out: &mut Printer, file: &File, numbers: &[u16]) -> Printed
    ensures { Prints result out.old out.new (parameters_then (map (λ n. bare (name_at file.now n)) numbers.now) []) }
{
    match numbers {
        [] => Ok(()),
        [first, others @ ..] => {
            out.token(Name(name_at(file, *first)))?;
            comma_names(out, file, others)
        }
    }
}

/// The parameters of an operation.
fn parameters(alloc: Global, out: &mut Printer, file: &File, locals: &[Local]) -> Printed
    ensures { Prints result out.old out.new (parameters_then
        (map (λ l. bare (name_at file.now l.name)) (filter is_parameter locals.now)) []) }
{
    let numbers = parameter_numbers(alloc, locals)?;
    parted_names(out, file, &numbers)
}

/// The locals of an operation that are no parameters.
fn declared_locals(out: &mut Printer, file: &File, locals: &[Local]) -> Printed
    ensures { Prints result out.old out.new (each_then field_then
        (map (λ l. declaration_tree (name_at file.now l.name) l.pointer) (filter is_declared locals.now)) []) }
{
    for local in locals {
        if !local.param {
            declaration(out, name_at(file, local.name), local.pointer)?;
        }
    }
    Ok(())
}

/// An operation.
fn operation(alloc: Global, out: &mut Printer, file: &File, op: &Op) -> Printed
    ensures { Prints result out.old out.new (op_then (op_tree file.now op.now) []) }
{
    let locals = op.locals.as_slice();
    out.tokens(&[Word(Keyword::Op), Name(name_at(file, op.name)), OPEN])?;
    parameters(alloc, out, file, locals)?;
    out.tokens(&[CLOSE, BEGIN])?;
    declared_locals(out, file, locals)?;
    statements(out, Reach { file, locals }, &op.body)?;
    out.token(END)
}

/// The operations.
pub fn operations(alloc: Global, out: &mut Printer, file: &File, ops: &[Op]) -> Printed
    ensures { Prints result out.old out.new (each_then (placed_then op_then)
        (map (λ o. bare (op_tree file.now o)) ops.now) []) }
{
    for op in ops {
        operation(alloc, out, file, op)?;
    }
    Ok(())
}
