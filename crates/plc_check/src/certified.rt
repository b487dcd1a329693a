// What shows that a file is safe: the strongest typing, and a tree for each obligation.
ghost use Rattle.std.specs.Prelude.{IfOk};
ghost use Rattle.plc_vocabulary.specs.Fit.{Fits};
ghost use Rattle.plc_check.specs.Certified.{IsCertified};
ghost use Rattle.plc_check.specs.Strongest.{IsStrongestTyping};

use crate::judged::Judged;
use crate::tree::{AllShown, trees_of};
use crate::verdict::{Typed, Verdict, strongest_typing, unproved_verdict};
use plc_base::NoMemory;
use plc_cert::Cert;
use plc_infer::Typing;
use plc_verify::certificate_version;
use std::alloc::Global;

/// What there is to show of a file.
#[derive(Drop)]
pub enum Certified {
    /// It is safe: a certificate that is valid, of the version of the file, with the strongest typing, and with
    /// trees in which no branch splits one clause twice. What it is written as is read again, and valid too.
    Yes(Cert),
    /// It isn't: the verdict, which is never `Safe`.
    No(Verdict),
}

/// What there is to show of a file that has a typing: a certificate where its outline holds, else the verdict.
fn certify_outline(alloc: Global, judged: &Judged, typing: Typing) -> Result<Certified, NoMemory>
    requires fits { Fits judged.now.flow judged.now.unit_outline }
    requires typing { IsStrongestTyping judged.now typing.env }
    ensures { IfOk result (IsCertified judged.now) }
{
    match trees_of(alloc, judged)? {
        AllShown::Trees(trees) => {
            let version = certificate_version(&judged.flow, &judged.unit_outline);
            Ok(Certified::Yes(Cert {
                version,
                env: typing.env,
                trees,
            }))
        }
        AllShown::Broken(found) => Ok(Certified::No(unproved_verdict(found))),
    }
}

/// A certificate of what [`crate::load`] gave, exactly where [`crate::check`] says `Safe`; else the verdict. The
/// one error is that memory runs out, which 2^32 terms or clauses of a ground set count as.
pub fn certify(alloc: Global, judged: &Judged) -> Result<Certified, NoMemory>
    requires { Fits judged.now.flow judged.now.unit_outline }
    ensures { IfOk result (IsCertified judged.now) }
{
    match strongest_typing(alloc, judged)? {
        Typed::Typing(typing) => certify_outline(alloc, judged, typing),
        Typed::Untyped { step, prim, fault } => {
            Ok(Certified::No(Verdict::Untyped { step, prim, fault }))
        }
    }
}
