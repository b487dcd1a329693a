// The certificate of a file that is safe, and the law that it is accepted.
ghost use Rattle.std.specs.Prelude.{◌≡◌, IfOk};
ghost use Rattle.plc_answers.specs.Certificates.{certificate_line};
ghost use Rattle.plc_cli.specs.Certificates.{IsCertifiedAs};
ghost use Rattle.plc_cli.specs.Laws.{CertifiedFilesVerify};
ghost use Rattle.plc_cli.specs.Statuses.{holds};

use crate::answer::Answer;
use crate::asking::Question;
use crate::checking::verdict_answer;
use crate::status::HOLDS;
use plc_answers::certificate_line;
use plc_base::NoMemory;
use plc_cert::Cert;
use plc_check::{Certified, Judged, certify};
use std::alloc::Global;

/// The answer that writes a certificate.
fn certificate_answer(alloc: Global, cert: &Cert) -> Result<Answer, NoMemory>
    ensures { IfOk result (λ answer. (answer.status ≡ holds) × (answer.text.items ≡ certificate_line cert.now)) }
{
    Ok(Answer {
        status: HOLDS,
        text: certificate_line(alloc, cert)?,
    })
}

/// The question for the certificate of a file, or for the verdict on one that has none.
#[derive(Drop)]
pub(crate) struct ForCertificate;

impl Question for ForCertificate {
    ghost due = { λ _ judged. IsCertifiedAs judged };

    fn answer(&self, alloc: Global, judged: &Judged) -> Result<Answer, NoMemory> {
        match certify(alloc, judged)? {
            Certified::Yes(cert) => certificate_answer(alloc, &cert),
            Certified::No(verdict) => verdict_answer(alloc, judged, verdict),
        }
    }
}

/// The law that what `certify` writes with 0, `verify` accepts: to the bytes of the same file and of that text it
/// answers with 0, as to any valid certificate. That the text is short enough to be read isn't part of it.
pub fn certified_files_verify()
    ensures { CertifiedFilesVerify }
{}
