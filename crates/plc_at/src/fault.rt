// Why tokens are no claims, and why claims extend no outline.
ghost use Rattle.std.specs.Prelude.{◌≡◌};
ghost use Rattle.plc_at.specs.declared.fault.ClaimFault.TheVariants as claim;
ghost use Rattle.plc_at.specs.declared.fault.AtFault.TheVariants as at;

use plc_base::NoMemory;

/// Why tokens are no list of claims for a file.
#[derive(Debug, Drop)]
pub enum ClaimFault {
    /// The place of the first token with which no list of claims goes on, or the number of tokens where a claim hasn't
    /// ended.
    Token { at: u32 },
    /// Memory ran out.
    Memory,
}

/// Why an outline isn't extended by claims.
#[derive(Debug, Drop)]
pub enum AtFault {
    /// The number of the first claim that follows neither from its local's type nor from an item that could be added.
    Unlocated { claim: u32 },
    /// The extended outline would have more than 256 items; the count is 257.
    Items { count: u32 },
    /// Memory ran out.
    Memory,
}

impl From<NoMemory> for ClaimFault {
    ghost from_gives = { λ _ e. e ≡ claim.Memory };

    fn from(_error: NoMemory) -> Self {
        Self::Memory
    }
}

impl From<NoMemory> for AtFault {
    ghost from_gives = { λ _ e. e ≡ at.Memory };

    fn from(_error: NoMemory) -> Self {
        Self::Memory
    }
}
