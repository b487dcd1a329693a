// What is judged with another outline in the place of its own, as where location claims extend the one of a file. It
// has the limits of an outline that is read, and they are tested in the same order, so that `check` and `certify`
// take what comes of it as they take what `load` gives.
ghost use Rattle.std.specs.Prelude.{◌≡◌};
ghost use Rattle.plc_vocabulary.specs.Fit.{Fits};
ghost use Rattle.plc_check.specs.Outlined.{outlined, IsOutlined};

use crate::judged::Judged;
use crate::limits::within_limits;
use plc_base::What1;
use plc_logic::Outline;

/// Why an outline isn't taken.
#[derive(Debug, Drop)]
pub enum OutlineFault {
    /// A limit is passed, by the obligations of the outline or else by the clauses of a ground set; the count is the
    /// limit plus one.
    Limit { what: What1, count: u32 },
}

/// What is judged, with another outline, whatever its limits. Its own ends here.
fn replace_outline(mut judged: Judged, outline: Outline) -> Judged
    ensures { result ≡ outlined judged outline }
{
    judged.unit_outline = outline;
    judged
}

/// What is judged, with another outline in the place of its own, which must fit the file. It takes no memory.
///
/// `Limit` comes exactly where the outline has more obligations than 1,000,000, or else where the ground set of one has
/// more clauses than 65,536. A refusal drops what is judged, and the outline.
pub fn with_outline(judged: Judged, outline: Outline) -> Result<Judged, OutlineFault>
    requires { Fits judged.flow outline }
    ensures { IsOutlined judged outline result }
{
    match within_limits(replace_outline(judged, outline)) {
        Ok(judged) => Ok(judged),
        Err(what) => Err(OutlineFault::Limit {
            what,
            count: what.most() + 1,
        }),
    }
}
