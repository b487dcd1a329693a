// The bytes that a writer took, for proofs alone: a value of this type has no bytes of its own, so nothing of what is
// written is kept while the program runs.
ghost use Rattle.std.specs.Prelude.{◌≡◌, ◌++◌, ℕ, List, []};
ghost use base.Fml.{ftrue};

use std::marker::Model;

/// The bytes that were taken so far.
pub(crate) struct Taken {
    pub ghost bytes: { List ℕ },
}

impl Model for Taken {
    ghost also_owns = { λ _. ftrue };
}

impl Taken {
    /// None so far.
    pub(crate) fn none() -> Taken
        ensures { result.bytes ≡ [] }
    {
        Taken {}
    }

    /// These after the others.
    pub(crate) fn and(&self, _piece: &&[u8]) -> Taken
        ensures { result.bytes ≡ self.now.bytes ++ _piece.now.now }
    {
        Taken {}
    }
}

impl Drop for Taken {
    fn drop(self) {
        let Self {} = self;
    }
}
