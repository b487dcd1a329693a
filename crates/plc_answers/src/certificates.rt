// A certificate as a line, and what is said of one: why its bytes are none, that it is valid, or its first item that
// fails.
ghost use Rattle.std.specs.Prelude.{◌≡◌, ◌++◌, IfOk, slice_get, codes, decimal};
ghost use Rattle.plc_cert.specs.declared.cert.CertFault.TheVariants.{Shape};
ghost use Rattle.plc_lang.specs.Names.{operation_name};
ghost use Rattle.plc_answers.specs.Certificates.{certificate_line, certificate_fault_text, verified_text};
ghost use Rattle.plc_answers.specs.Certificates.{slot_name, pair_text, invalid_text};
ghost use Rattle.plc_answers.specs.Steps.{step_operation};

use crate::counts::push_counts;
use crate::names::variable_in;
use crate::pieces::{push, push_bytes, push_number};
use crate::refusals::{fixed_text, numbered_text};
use crate::steps::operation_of;
use plc_base::{NoMemory, OpId, StepId};
use plc_cert::{Cert, CertFault, CertField, write};
use plc_flow::Flow;
use plc_lang::{File, Var, operation_name};
use plc_verify::{Slot, VerifyFault};
use std::alloc::{AllocError, Global};

/// A certificate, and a line feed.
pub fn certificate_line(alloc: Global, cert: &Cert) -> Result<Vec<u8>, AllocError>
    ensures { IfOk result (λ v. v.items ≡ certificate_line cert.now) }
{
    match write(alloc, cert) {
        Ok(mut line) => {
            push(&mut line, "\n")?;
            Ok(line)
        }
        Err(NoMemory) => Err(AllocError),
    }
}

/// A part that isn't of its form.
fn shape_fault_text(alloc: Global, field: CertField) -> Result<Vec<u8>, AllocError>
    ensures { IfOk result (λ v. v.items ≡ certificate_fault_text (Shape field)) }
{
    match field {
        CertField::Root => fixed_text(alloc, "refused certificate field root\n"),
        CertField::Version => fixed_text(alloc, "refused certificate field version\n"),
        CertField::Env => fixed_text(alloc, "refused certificate field env\n"),
        CertField::Trees => fixed_text(alloc, "refused certificate field trees\n"),
    }
}

/// Another version.
fn version_fault_text(alloc: Global, version: u64) -> Result<Vec<u8>, AllocError>
    ensures { IfOk result (λ v. v.items ≡ codes "refused certificate version " ++ decimal version ++ codes "\n") }
{
    let mut out = fixed_text(alloc, "refused certificate version ")?;
    push_number(&mut out, version)?;
    push(&mut out, "\n")?;
    Ok(out)
}

/// Bytes that are no certificate: no JSON, the part that isn't of its form, or another version. Running out of memory
/// has no text.
pub fn certificate_fault_text(alloc: Global, fault: CertFault) -> Result<Vec<u8>, AllocError>
    ensures { IfOk result (λ v. v.items ≡ certificate_fault_text fault) }
{
    match fault {
        CertFault::NotJson => fixed_text(alloc, "refused certificate json\n"),
        CertFault::Shape { field } => shape_fault_text(alloc, field),
        CertFault::Version { n } => version_fault_text(alloc, n),
        CertFault::Memory => Ok(Vec::new(alloc)),
    }
}

/// A valid certificate: how many points, steps and obligations the file has.
pub fn verified_text(alloc: Global, flow: &Flow, obligations: u64) -> Result<Vec<u8>, AllocError>
    ensures { IfOk result (λ v. v.items ≡ verified_text flow.now obligations) }
{
    let mut out = fixed_text(alloc, "verified")?;
    push_counts(&mut out, flow, obligations)?;
    push(&mut out, "\n")?;
    Ok(out)
}

/// A part of an environment: W, or a pointer local of the operation.
fn slot_name(file: &File, operation: u16, slot: Slot) -> &[u8]
    ensures { result.now ≡ slot_name file.now operation slot }
{
    match slot {
        Slot::W => "W".as_bytes(),
        Slot::Local(v) => variable_in(file, operation, Var::Local(v)),
    }
}

/// Two numbers, each after words.
pub(crate) fn pair_text(
    alloc: Global,
    first: &str,
    a: u64,
    second: &str,
    b: u64,
) -> Result<Vec<u8>, AllocError>
    ensures { IfOk result (λ v. v.items ≡ pair_text first.now a second.now b) }
{
    let mut out = fixed_text(alloc, first)?;
    push_number(&mut out, a)?;
    push(&mut out, second)?;
    push_number(&mut out, b)?;
    push(&mut out, "\n")?;
    Ok(out)
}

/// An operation that begins otherwise.
fn entry_fault_text(alloc: Global, flow: &Flow, op: OpId, var: Slot) -> Result<Vec<u8>, AllocError>
    ensures { IfOk result (λ v. v.items ≡ codes "invalid entry " ++ operation_name flow.now.file op
        ++ codes " " ++ slot_name flow.now.file op.0 var ++ codes "\n") }
{
    let mut out = fixed_text(alloc, "invalid entry ")?;
    push_bytes(&mut out, operation_name(&flow.file, op))?;
    push(&mut out, " ")?;
    push_bytes(&mut out, slot_name(&flow.file, op.0, var))?;
    push(&mut out, "\n")?;
    Ok(out)
}

/// A step that leads to too much.
fn flow_fault_text(
    alloc: Global,
    flow: &Flow,
    step: StepId,
    var: Slot,
) -> Result<Vec<u8>, AllocError>
    ensures { IfOk result (λ v. v.items ≡ codes "invalid flow step " ++ decimal step.0 ++ codes " "
        ++ slot_name flow.now.file (step_operation (slice_get flow.now.steps step.0)) var ++ codes "\n") }
{
    let mut out = fixed_text(alloc, "invalid flow step ")?;
    push_number(&mut out, u64::from(step.0))?;
    push(&mut out, " ")?;
    push_bytes(
        &mut out,
        slot_name(&flow.file, operation_of(flow, step.0), var),
    )?;
    push(&mut out, "\n")?;
    Ok(out)
}

/// A certificate that isn't valid: its first item that fails. Running out of memory has no text.
pub fn invalid_text(alloc: Global, flow: &Flow, fault: VerifyFault) -> Result<Vec<u8>, AllocError>
    ensures { IfOk result (λ v. v.items ≡ invalid_text flow.now fault) }
{
    match fault {
        VerifyFault::Version { have, want } => pair_text(
            alloc,
            "invalid version ",
            u64::from(have),
            " ",
            u64::from(want),
        ),
        VerifyFault::EnvCount { have, want } => {
            pair_text(alloc, "invalid envs ", have, " ", u64::from(want))
        }
        VerifyFault::EnvAt { point } => numbered_text(alloc, "invalid env ", u32::from(point.0)),
        VerifyFault::EntryAt { op, var } => entry_fault_text(alloc, flow, op, var),
        VerifyFault::TypeAt { step, prim } => pair_text(
            alloc,
            "invalid type step ",
            u64::from(step.0),
            " prim ",
            u64::from(prim),
        ),
        VerifyFault::FlowAt { step, var } => flow_fault_text(alloc, flow, step, var),
        VerifyFault::TreeCount { have, want } => pair_text(
            alloc,
            "invalid trees ",
            have,
            " ",
            want,
        ),
        VerifyFault::TreeAt { obligation, node } => {
            pair_text(alloc, "invalid tree ", obligation, " node ", node)
        }
        VerifyFault::Memory => Ok(Vec::new(alloc)),
    }
}
