// What a certificate holds, and why bytes are none. Nothing is asked of a certificate here: one that
// was read may have any environments and any trees.
ghost use Rattle.std.specs.Prelude.{◌≡◌};
ghost use Rattle.plc_cert.specs.declared.cert.CertFault.TheVariants.{Memory};

use plc_base::{Items, NoMemory};
use plc_ground::Tree;
use plc_type::Env;

/// What shows that a file is safe.
#[derive(Drop)]
pub struct Cert {
    /// The version of the format, 1 or 2. The two have one form; which one a file asks for is judged elsewhere.
    pub version: u8,
    /// An environment for each point, in order. The types of shared pointers aren't written, so one
    /// that was read has none.
    pub env: Items<Env>,
    /// A tree for each obligation, in order.
    pub trees: Items<Tree>,
}

/// Why bytes are no certificate.
#[derive(Clone, Copy, PartialEq, Eq)]
pub enum CertFault {
    /// They are no JSON text.
    NotJson,
    /// A part isn't of its form: the first in the order of `CertField`.
    Shape { field: CertField },
    /// The version is another than 1 and 2. It comes after `Root` and before `Env`.
    Version { n: u64 },
    /// Memory ran out.
    Memory,
}

/// The part of a certificate that isn't of its form.
#[derive(Clone, Copy, PartialEq, Eq)]
pub enum CertField {
    /// The whole: no object, or one whose members aren't just `env`, `trees` and `version`.
    Root,
    /// `version` is no whole number from 0 and below 2^64.
    Version,
    /// `env` is no list of environments.
    Env,
    /// `trees` is no list of trees.
    Trees,
}

impl From<NoMemory> for CertFault {
    ghost from_gives = { λ _ fault. fault ≡ Memory };

    fn from(_e: NoMemory) -> CertFault {
        CertFault::Memory
    }
}
