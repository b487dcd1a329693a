// Bytes, tokens, unit, flow, limits of the outline: the first refusal on this way is the answer.
ghost use Rattle.std.specs.Prelude.{◌≡◌, ◌<◌, ◌≤◌, ◌+◌, ◌^◌, length, Ok, Err, IfOk, IfErr};
ghost use Rattle.plc_base.specs.FileSizes.{largest_file};
ghost use Rattle.plc_check.specs.Fit.{FilesFit, JudgedFits};
ghost use Rattle.plc_check.specs.Answered.{IsLoaded, FilesAreUnique, place_of};
ghost use Rattle.plc_check.specs.Marks.{FilesUseTheirMarks};
ghost use Rattle.plc_lex.specs.Spelling.{AreTokensOf};
ghost use Rattle.plc_lex.specs.Stops.{line_feeds};
ghost use Rattle.plc_parse.specs.Fit.{UnitFits};
ghost use Rattle.plc_auto.specs.Schemes.{schemes_of};
ghost use Rattle.plc_check.specs.Refusals.{lex_refusal, parse_refusal, flow_refusal, unplaced_refusal, IsLowered};
ghost use Rattle.plc_check.specs.Refusals.{IsJudgedOf};

use crate::judged::{Judged, LoadFault, Loaded};
use crate::limits::check_limits;
use plc_auto::{Scheme, schemes_of};
use plc_base::{Items, What1};
use plc_flow::{FlowFault, lower};
use plc_lex::{LexFault, Token, tokens};
use plc_parse::{Unit, line_at, parse};
use plc_scope::ParseFault;
use std::alloc::Global;

/// The refusal that a fault of the lexer is; that memory ran out there is told as `Memory`.
fn lex_refusal(fault: LexFault) -> LoadFault
    ensures { result ≡ lex_refusal fault }
{
    match fault {
        LexFault::Memory => LoadFault::Memory,
        fault => LoadFault::Lex(fault),
    }
}

/// The line on which bytes end, of which there are at most as many as a file may have: one more than they have line
/// feeds.
pub fn end_line(bytes: &[u8]) -> u32
    requires { length bytes.now ≤ largest_file }
    ensures { result ≡ 1 + line_feeds bytes.now }
{
    let mut line = 1;
    for byte in bytes {
        if *byte == b'\n' {
            line += 1;
        }
    }
    line
}

/// The place of a fault, if it is told with one.
fn place_of(fault: &ParseFault) -> Option<u32>
    ensures { result ≡ place_of fault.now }
{
    match *fault {
        ParseFault::Syntax { at }
        | ParseFault::Undeclared { at }
        | ParseFault::Duplicate { at }
        | ParseFault::WrongSort { at }
        | ParseFault::NoSuchCall { at } => Some(at),
        ParseFault::Limit { .. } | ParseFault::Memory => None,
    }
}

/// The refusal that a fault without a place is: a limit, or running out of memory.
fn unplaced_refusal(fault: ParseFault) -> LoadFault
    ensures { result ≡ unplaced_refusal fault }
{
    match fault {
        ParseFault::Limit { what, count } => LoadFault::Limit { what, count },
        _ => LoadFault::Memory,
    }
}

/// The refusal that a fault of the parser is, with its line where the fault has a place.
fn parse_refusal(bytes: &[u8], tokens: &[Token], fault: ParseFault) -> LoadFault
    requires { length bytes.now ≤ largest_file }
    ensures { result ≡ parse_refusal bytes.now tokens.now fault }
{
    match place_of(&fault) {
        Some(at) => LoadFault::Parse {
            fault,
            line: line_at(tokens, at, end_line(bytes)),
        },
        None => unplaced_refusal(fault),
    }
}

/// The refusal that a fault of the lowering is: too many points pass a limit.
fn flow_refusal(fault: FlowFault) -> LoadFault
    ensures { result ≡ flow_refusal fault }
{
    match fault {
        FlowFault::TooManyPoints { count } => LoadFault::Limit {
            what: What1::Points,
            count,
        },
        FlowFault::Memory => LoadFault::Memory,
    }
}

/// What is judged of a unit, with the schemes of its observer.
fn lower_with(alloc: Global, unit: Unit, schemes: Items<Scheme>) -> Result<Judged, LoadFault>
    requires { schemes ≡ schemes_of unit.observer }
    ensures { IsLowered unit result }
{
    let observer = unit.observer;
    let unit_outline = unit.outline;
    match lower(alloc, unit.file) {
        Ok(flow) => Ok(Judged {
            unit_outline,
            observer,
            schemes,
            flow,
        }),
        Err(fault) => {
            drop(unit_outline);
            drop(schemes);
            Err(flow_refusal(fault))
        }
    }
}

/// What is judged of a unit.
fn lower_unit(alloc: Global, unit: Unit) -> Result<Judged, LoadFault>
    ensures { IsLowered unit result }
{
    match schemes_of(alloc, &unit.observer) {
        Ok(schemes) => lower_with(alloc, unit, schemes),
        Err(_) => {
            drop(unit);
            Err(LoadFault::Memory)
        }
    }
}

/// What is judged of a unit, where its outline is within its limits.
fn judged_of(alloc: Global, unit: Unit) -> Result<Judged, LoadFault>
    requires { UnitFits unit }
    ensures { IsJudgedOf unit result }
{
    match lower_unit(alloc, unit) {
        Ok(judged) => check_limits(judged),
        Err(fault) => Err(fault),
    }
}

/// What is judged of the tokens that bytes spell, or the first refusal behind those of the tokens.
fn load_tokens(alloc: Global, bytes: &[u8], found: &[Token]) -> Result<Judged, LoadFault>
    requires short { length bytes.now ≤ largest_file }
    requires few { length found.now < 2 ^ 32 }
    requires spelled { AreTokensOf bytes.now found.now }
    ensures loaded { IsLoaded bytes.now result }
    ensures fits { IfOk result JudgedFits }
{
    match parse(alloc, found) {
        Ok(unit) => judged_of(alloc, unit),
        Err(fault) => Err(parse_refusal(bytes, found, fault)),
    }
}

/// The same, with the tokens.
fn load_found(alloc: Global, bytes: &[u8], found: Vec<Token>) -> Result<Loaded, LoadFault>
    requires short { length bytes.now ≤ largest_file }
    requires few { length found.items < 2 ^ 32 }
    requires spelled { AreTokensOf bytes.now found.items }
    ensures judged { IfOk result (λ l. IsLoaded bytes.now (Ok l.judged)) }
    ensures tokens { IfOk result (λ l. AreTokensOf bytes.now l.tokens) }
    ensures fits { IfOk result (λ l. JudgedFits l.judged) }
    ensures refused { IfErr result (λ fault. IsLoaded bytes.now (Err fault)) }
{
    match load_tokens(alloc, bytes, &found) {
        Ok(judged) => Ok(Loaded {
            judged,
            tokens: Items::from_vec(found),
        }),
        Err(fault) => Err(fault),
    }
}

/// [`load`] with the tokens of the file, so that nobody who needs them reads the bytes once more.
pub fn load_with_tokens(alloc: Global, bytes: &[u8]) -> Result<Loaded, LoadFault>
    requires { length bytes.now ≤ largest_file }
    ensures judged { IfOk result (λ l. IsLoaded bytes.now (Ok l.judged)) }
    ensures tokens { IfOk result (λ l. AreTokensOf bytes.now l.tokens) }
    ensures fits { IfOk result (λ l. JudgedFits l.judged) }
    ensures refused { IfErr result (λ fault. IsLoaded bytes.now (Err fault)) }
{
    match tokens(alloc, bytes) {
        Ok(found) => load_found(alloc, bytes, found),
        Err(fault) => Err(lex_refusal(fault)),
    }
}

/// Reads and lowers a file of at most 1 MiB. The first refusal on the way is the answer: `Lex` where
/// the bytes spell no tokens, `Parse` or `Limit` where the tokens spell no unit, `Limit` where the flow
/// would have more than 4,096 points, then where the outline has more than 1,000,000 obligations, then where
/// the ground set of one has more than 65,536 clauses; `Memory` may come anywhere.
pub fn load(alloc: Global, bytes: &[u8]) -> Result<Judged, LoadFault>
    requires { length bytes.now ≤ largest_file }
    ensures loaded { IsLoaded bytes.now result }
    ensures fits { IfOk result JudgedFits }
{
    match load_with_tokens(alloc, bytes) {
        Ok(loaded) => Ok(loaded.judged),
        Err(fault) => Err(fault),
    }
}

/// The law that bytes spell at most one unit.
pub fn files_are_unique()
    ensures { FilesAreUnique }
{}

/// The law that the program of a file uses marks exactly where one of the words of marks is among the file's tokens.
pub fn files_use_their_marks()
    ensures { FilesUseTheirMarks }
{}

/// The law that whatever unit bytes spell, what is judged of it fits.
pub fn files_fit()
    ensures { FilesFit }
{}
