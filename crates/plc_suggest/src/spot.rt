// Where a claim may be put.
use plc_base::StepId;
use plc_lang::Var;

/// A place for a claim: a step that has a primitive, and a pointer, which is a shared pointer or a pointer local of
/// the step's operation. The claim `active` of the pointer stands in front of the step's primitives.
#[derive(Clone, Copy, Debug, PartialEq, Eq)]
pub struct Spot {
    pub step: StepId,
    pub var: Var,
}
