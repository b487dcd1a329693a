// Why a primitive's condition fails, with the variable that lacks what is asked of it.
use plc_lang::Var;

/// A condition that fails.
#[derive(Clone, Copy, Debug, PartialEq, Eq)]
pub enum TypeFault {
    /// An access through a pointer that isn't safe.
    DerefNotSafe { var: Var },
    /// A comparison with a pointer that isn't safe; the first such operand.
    CompareNotSafe { var: Var },
    /// A retire of a pointer that isn't active.
    RetireNotActive { var: Var },
}
