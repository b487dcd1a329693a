// Whether a certificate is valid for a file. No verdict is made: neither the inference nor the solver is called.
ghost use Rattle.std.specs.Prelude.{IfOk};
ghost use Rattle.plc_base.specs.FileSizes.{largest_certificate};
ghost use Rattle.plc_vocabulary.specs.Fit.{Fits};
ghost use Rattle.plc_cli.specs.Certificates.{IsCertificateAnswered, IsCertificateJudged};

use crate::answer::{Answer, refuse};
use crate::asking::PairQuestion;
use crate::status::{FAILS, HOLDS};
use plc_answers::{certificate_fault_text, invalid_text, verified_text};
use plc_base::NoMemory;
use plc_cert::{Cert, CertFault, read};
use plc_check::Judged;
use plc_verify::{VerifyFault, verify};
use std::alloc::Global;

/// The question whether the bytes of a second file are a certificate that is valid for a file.
pub(crate) struct ForValidity;

impl PairQuestion for ForValidity {
    ghost limit = { λ _. largest_certificate };

    ghost due = { λ _ judged second. IsCertificateAnswered judged second };

    fn answer(&self, alloc: Global, judged: Judged, second: &[u8]) -> Result<Answer, NoMemory> {
        let answer = answer_certificate(alloc, &judged, second);
        drop(judged);
        answer
    }
}

/// The answer to a certificate that was read.
fn judge_certificate(alloc: Global, judged: &Judged, cert: &Cert) -> Result<Answer, NoMemory>
    requires { Fits judged.now.flow judged.now.unit_outline }
    ensures { IfOk result (λ answer.
        IsCertificateJudged judged.now cert.now answer.status answer.text.items) }
{
    match verify(
        alloc,
        &judged.flow,
        &judged.observer,
        &judged.unit_outline,
        cert,
    ) {
        // It has a tree for each obligation.
        Ok(()) => Ok(Answer {
            status: HOLDS,
            text: verified_text(alloc, &judged.flow, cert.trees.len() as u64)?,
        }),
        Err(VerifyFault::Memory) => Err(NoMemory),
        Err(fault) => Ok(Answer {
            status: FAILS,
            text: invalid_text(alloc, &judged.flow, fault)?,
        }),
    }
}

/// The answer to the bytes of a certificate.
fn answer_certificate(alloc: Global, judged: &Judged, bytes: &[u8]) -> Result<Answer, NoMemory>
    requires { Fits judged.now.flow judged.now.unit_outline }
    ensures { IfOk result (λ answer.
        IsCertificateAnswered judged.now bytes.now answer.status answer.text.items) }
{
    match read(alloc, bytes) {
        Ok(cert) => judge_certificate(alloc, judged, &cert),
        Err(CertFault::Memory) => Err(NoMemory),
        Err(fault) => Ok(refuse(certificate_fault_text(alloc, fault)?)),
    }
}
