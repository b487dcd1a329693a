// The judge of certificates: first the version, then the environments, then the trees.
ghost use Rattle.std.specs.Prelude.{◌≡◌, MatchResult};
ghost use Rattle.plc_vocabulary.specs.Fit.{Fits};
ghost use Rattle.plc_verify.specs.Validity.{IsValid, IsRefused};

use crate::fault::VerifyFault;
use crate::trees::verify_trees;
use crate::typing::verify_typing;
use crate::version::certificate_version;
use plc_auto::Observer;
use plc_cert::Cert;
use plc_flow::Flow;
use plc_logic::Outline;
use std::alloc::Global;

/// Ok exactly where the certificate is valid: its version is that of the file ([`certificate_version`]), its
/// environments, with the type that guarantees nothing for each shared pointer, are a typing of the flow, and there
/// is one tree for each obligation, in order, which closes its ground set. Else the first item that fails, in the
/// order of [`VerifyFault`].
///
/// It asks nothing of the certificate, and reads no types of shared pointers in it. Neither the inference nor
/// the solver is called: each step is run once, and each tree is walked once.
pub fn verify(
    alloc: Global,
    flow: &Flow,
    observer: &Observer,
    outline: &Outline,
    cert: &Cert,
) -> Result<(), VerifyFault>
    requires { Fits flow.now outline.now }
    ensures { MatchResult result (λ _. IsValid flow.now observer.now outline.now cert.now)
        (λ fault. IsRefused flow.now observer.now outline.now cert.now fault) }
{
    let have = cert.version;
    let want = certificate_version(flow, outline);
    if have != want {
        return Err(VerifyFault::Version { have, want });
    }
    verify_typing(alloc, flow, observer, cert.env.as_slice())?;
    verify_trees(alloc, flow, outline, cert.trees.as_slice())
}
