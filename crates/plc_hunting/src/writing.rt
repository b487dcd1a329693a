// A run as text: that of a schedule, or, where frees are written with their addresses, a form of its own.
ghost use Rattle.std.specs.Prelude.{◌≡◌, ◌++◌, IfOk, OnOk};
ghost use Rattle.plc_hunting.specs.Texts.{numbers_text, address_text, free_text, move_text};
ghost use Rattle.plc_hunting.specs.Texts.{moves_text, run_text};

use plc_answers::{push, push_bytes, push_numbered};
use plc_flow::Flow;
use plc_lang::operation_name;
use plc_moves::Move;
use std::alloc::{AllocError, Global};

/// Adds numbers, a space before each.
fn push_numbers(out: &mut Vec<u8>, numbers: &[u32]) -> Result<(), AllocError>
    ensures { OnOk result (out.new.items ≡ out.old.items ++ numbers_text numbers.now) }
{
    for n in numbers {
        push_numbered(out, " ", *n)?;
    }
    Ok(())
}

/// Adds the address that a step names, a space before it.
fn push_address(out: &mut Vec<u8>, addr: Option<u32>) -> Result<(), AllocError>
    ensures { OnOk result (out.new.items ≡ out.old.items ++ address_text addr) }
{
    match addr {
        Some(a) => push_numbered(out, " ", a),
        None => Ok(()),
    }
}

/// Adds a free.
fn push_free(out: &mut Vec<u8>, ticks: bool, a: u32) -> Result<(), AllocError>
    ensures { OnOk result (out.new.items ≡ out.old.items ++ free_text ticks a) }
{
    if ticks {
        push(out, "tick")
    } else {
        push_numbered(out, "free ", a)
    }
}

/// Adds a move.
fn push_move(out: &mut Vec<u8>, flow: &Flow, ticks: bool, m: &Move) -> Result<(), AllocError>
    ensures { OnOk result (out.new.items ≡ out.old.items ++ move_text flow.now ticks m.now) }
{
    match m {
        Move::Start { t, op, args } => {
            push_numbered(out, "start ", *t)?;
            push(out, " ")?;
            push_bytes(out, operation_name(&flow.file, *op))?;
            push_numbers(out, args.as_slice())
        }
        Move::Step { t, nth, addr } => {
            push_numbered(out, "step ", *t)?;
            push_numbered(out, " ", u32::from(*nth))?;
            push_address(out, *addr)
        }
        Move::Return { t } => push_numbered(out, "return ", *t),
        Move::Free { a } => push_free(out, ticks, *a),
    }
}

/// Adds the lines of moves.
fn push_moves(out: &mut Vec<u8>, flow: &Flow, ticks: bool, moves: &[Move]) -> Result<(), AllocError>
    ensures { OnOk result (out.new.items ≡ out.old.items ++ moves_text flow.now ticks moves.now) }
{
    for m in moves {
        push_move(out, flow, ticks, m)?;
        push(out, "\n")?;
    }
    Ok(())
}

/// A run among so many threads, as text; `ticks` where a free stands for asking a reclaimer. The one error is that
/// memory runs out.
pub fn run_text(
    alloc: Global,
    flow: &Flow,
    ticks: bool,
    threads: u32,
    moves: &[Move],
) -> Result<Vec<u8>, AllocError>
    ensures { IfOk result (λ text. text.items ≡ run_text flow.now ticks threads moves.now) }
{
    let mut out = Vec::new(alloc);
    push_numbered(&mut out, "threads ", threads)?;
    push(&mut out, "\n")?;
    push_moves(&mut out, flow, ticks, moves)?;
    Ok(out)
}
