// The text of a safe file: its typing at each label, and counts.
ghost use Rattle.std.specs.Prelude.{◌≡◌, ◌++◌, ◌<◌, OnOk, IfOk, Some, filter, slice_get, map};
ghost use Rattle.plc_auto.specs.Table.{names_of};
ghost use Rattle.plc_lang.specs.Locals.{is_pointer};
ghost use Rattle.plc_answers.specs.Typings.{member_names, parted, others, set_text, guarantees_text};
ghost use Rattle.plc_answers.specs.Typings.{anywhere_line, local_line, local_lines, operation_from};
ghost use Rattle.plc_answers.specs.Typings.{env_lines, label_lines, safe_line, safe_text};
ghost use Rattle.plc_lang.specs.Names.{name_at};

use crate::pieces::{push, push_bytes, push_number};
use plc_auto::Observer;
use plc_base::{LocId, Mask, PointId};
use plc_flow::{Flow, Gate};
use plc_lang::{File, Local, locals_of, name_at};
use plc_type::{Env, Guar, PtrType};
use std::alloc::{AllocError, Global};

/// The words after the first.
fn push_others(out: &mut Vec<u8>, words: &[&[u8]]) -> Result<(), AllocError>
    ensures { OnOk result (out.new.items ≡ out.old.items ++ others (map (λ w. w.now) words.now)) }
{
    for word in words {
        push(out, " ")?;
        push_bytes(out, word)?;
    }
    Ok(())
}

/// Words parted by one space.
fn push_parted(out: &mut Vec<u8>, words: &[&[u8]]) -> Result<(), AllocError>
    ensures { OnOk result (out.new.items ≡ out.old.items ++ parted (map (λ w. w.now) words.now)) }
{
    match words {
        [] => Ok(()),
        [first, others @ ..] => {
            push_bytes(out, first)?;
            push_others(out, others)
        }
    }
}

/// The names of the locations in a set, in the table's order.
fn member_names<'a>(
    alloc: Global,
    observer: &'a Observer,
    set: Mask,
) -> Result<Vec<&'a [u8]>, AllocError>
    ensures { IfOk result (λ names. map (λ n. n.now) names.items ≡ member_names set 0 (names_of observer.now)) }
{
    let mut names = Vec::new(alloc);
    for l in 0..observer.count() {
        let name = observer.name(LocId(l));
        if set.has(LocId(l)) {
            names.push(name)?;
        }
    }
    Ok(names)
}

/// A set of locations in braces.
fn push_set(out: &mut Vec<u8>, observer: &Observer, set: Mask) -> Result<(), AllocError>
    ensures { OnOk result (out.new.items ≡ out.old.items ++ set_text observer.now set) }
{
    let names = member_names(*out.allocator(), observer, set)?;
    push(out, "{")?;
    push_parted(out, &names)?;
    push(out, "}")
}

/// The letters of the guarantees that hold, or "-" where none does.
fn guarantees_text(g: Guar) -> &'static str
    ensures { result.now ≡ guarantees_text g }
{
    if g.is_local() {
        "ALS"
    } else if g.is_active() {
        "AS"
    } else if g.is_safe() {
        "S"
    } else {
        "-"
    }
}

/// The line that says where any address may stand.
fn push_anywhere(
    out: &mut Vec<u8>,
    label: &[u8],
    observer: &Observer,
    set: Mask,
) -> Result<(), AllocError>
    ensures { OnOk result (out.new.items ≡ out.old.items ++ anywhere_line label.now observer.now set) }
{
    push(out, "at ")?;
    push_bytes(out, label)?;
    push(out, " W ")?;
    push_set(out, observer, set)?;
    push(out, "\n")
}

/// The line of a pointer local.
fn push_local(
    out: &mut Vec<u8>,
    label: &[u8],
    observer: &Observer,
    name: &[u8],
    t: &PtrType,
) -> Result<(), AllocError>
    ensures { OnOk result (out.new.items ≡ out.old.items ++ local_line label.now observer.now name.now t.now) }
{
    push(out, "at ")?;
    push_bytes(out, label)?;
    push(out, " ")?;
    push_bytes(out, name)?;
    push(out, " ")?;
    push(out, guarantees_text(t.g))?;
    push(out, " ")?;
    push_set(out, observer, t.m)?;
    push(out, "\n")
}

/// The lines of the pointer locals among all locals of an operation.
fn push_locals(
    out: &mut Vec<u8>,
    file: &File,
    observer: &Observer,
    label: &[u8],
    locals: &[Local],
    types: &[PtrType],
) -> Result<(), AllocError>
    ensures { OnOk result (out.new.items ≡ out.old.items
        ++ local_lines file.now observer.now label.now (filter is_pointer locals.now) types.now) }
{
    let mut at = 0;
    for local in locals {
        if local.pointer {
            let Some(t) = types.get(at) else {
                return Ok(());
            };
            push_local(out, label, observer, name_at(file, local.name), t)?;
            at += 1;
        }
    }
    Ok(())
}

/// The number of the operation that has a point.
fn operation_of(gates: &[Gate], point: PointId) -> usize
    ensures { result ≡ operation_from 0 gates.now point.0 }
{
    let mut operation = 0;
    for gate in gates {
        if point.0 < gate.after {
            return operation;
        }
        operation += 1;
    }
    operation
}

/// The lines of a label whose point has this environment.
fn push_env(
    out: &mut Vec<u8>,
    flow: &Flow,
    observer: &Observer,
    label: u16,
    point: PointId,
    env: &Env,
) -> Result<(), AllocError>
    ensures { OnOk result (out.new.items ≡ out.old.items
        ++ env_lines flow.now observer.now (name_at flow.now.file label) point.0 (Some env.now)) }
{
    let name = name_at(&flow.file, label);
    let locals = locals_of(
        flow.file.ops.as_slice(),
        operation_of(flow.gates.as_slice(), point),
    );
    push_anywhere(out, name, observer, env.w)?;
    push_locals(
        out,
        &flow.file,
        observer,
        name,
        locals,
        env.locals.as_slice(),
    )
}

/// The lines of a label.
fn push_label(
    out: &mut Vec<u8>,
    flow: &Flow,
    observer: &Observer,
    envs: &[Env],
    label: u16,
    point: PointId,
) -> Result<(), AllocError>
    ensures { OnOk result (out.new.items ≡ out.old.items
        ++ env_lines flow.now observer.now (name_at flow.now.file label) point.0 (slice_get envs.now point.0)) }
{
    match envs.get(point.0 as usize) {
        Some(env) => push_env(out, flow, observer, label, point, env),
        None => Ok(()),
    }
}

/// The lines of labels, by the numbers of their names and their points.
fn push_labels(
    out: &mut Vec<u8>,
    flow: &Flow,
    observer: &Observer,
    envs: &[Env],
) -> Result<(), AllocError>
    ensures { OnOk result (out.new.items ≡ out.old.items
        ++ label_lines flow.now observer.now envs.now flow.now.file.labels flow.now.labels) }
{
    let labels = flow.file.labels.as_slice();
    let points = flow.labels.as_slice();
    for i in 0..labels.len() {
        let Some(point) = points.get(i) else {
            return Ok(());
        };
        push_label(out, flow, observer, envs, labels[i], *point)?;
    }
    Ok(())
}

/// The line of the counts.
fn safe_line(
    alloc: Global,
    flow: &Flow,
    observer: &Observer,
    obligations: u64,
) -> Result<Vec<u8>, AllocError>
    ensures { IfOk result (λ v. v.items ≡ safe_line flow.now observer.now obligations) }
{
    let mut out = Vec::new(alloc);
    push(&mut out, "safe points ")?;
    push_number(&mut out, u64::from(flow.points))?;
    push(&mut out, " steps ")?;
    push_number(&mut out, flow.steps.len() as u64)?;
    push(&mut out, " locations ")?;
    push_number(&mut out, u64::from(observer.count()))?;
    push(&mut out, " obligations ")?;
    push_number(&mut out, obligations)?;
    push(&mut out, "\n")?;
    Ok(out)
}

/// The text of a safe file: the environment of the point of each label, in the order of the file, with
/// a line for where any address may stand and one for each pointer local; then how many points, steps,
/// locations and obligations there are.
pub fn safe_text(
    alloc: Global,
    flow: &Flow,
    observer: &Observer,
    envs: &[Env],
    obligations: u64,
) -> Result<Vec<u8>, AllocError>
    ensures { IfOk result (λ v. v.items ≡ safe_text flow.now observer.now envs.now obligations) }
{
    let mut out = Vec::new(alloc);
    push_labels(&mut out, flow, observer, envs)?;
    push_bytes(&mut out, &safe_line(alloc, flow, observer, obligations)?)?;
    Ok(out)
}
