// The texts of location claims: the token at which no list of claims goes on, the claim that doesn't follow, and how
// many claims hold under how many obligations.
ghost use Rattle.std.specs.Prelude.{◌≡◌, IfOk};
ghost use Rattle.plc_answers.specs.Claims.{claim_fault_text, unlocated_text, located_text};

use crate::certificates::pair_text;
use crate::refusals::numbered_text;
use std::alloc::{AllocError, Global};

/// Tokens that are no list of claims for the file: the place of the first with which no list goes on, or the number of
/// tokens where more would have to follow.
pub fn claim_fault_text(alloc: Global, at: u32) -> Result<Vec<u8>, AllocError>
    ensures { IfOk result (λ v. v.items ≡ claim_fault_text at) }
{
    numbered_text(alloc, "refused claim token ", at)
}

/// A claim that follows neither from its type nor from an item that could be added; its number counts from 0.
pub fn unlocated_text(alloc: Global, claim: u32) -> Result<Vec<u8>, AllocError>
    ensures { IfOk result (λ v. v.items ≡ unlocated_text claim) }
{
    numbered_text(alloc, "unlocated claim ", claim)
}

/// Claims that hold: how many they are, and how many obligations the extended outline has.
pub fn located_text(alloc: Global, claims: u64, obligations: u64) -> Result<Vec<u8>, AllocError>
    ensures { IfOk result (λ v. v.items ≡ located_text claims obligations) }
{
    pair_text(
        alloc,
        "located claims ",
        claims,
        " obligations ",
        obligations,
    )
}
