// Which version a file's certificates have. Files that use marks have one of their own, so that whoever reads a
// certificate without knowing marks refuses it by its number.
ghost use Rattle.std.specs.Prelude.{◌≡◌};
ghost use Rattle.plc_verify.specs.Validity.{certificate_version};

use plc_flow::Flow;
use plc_logic::Outline;
use plc_oblig::program_uses_marks;

/// The version of the certificates of a file: 2 where its flow or its outline uses marks, and else 1.
pub fn certificate_version(flow: &Flow, outline: &Outline) -> u8
    ensures { result ≡ certificate_version flow.now outline.now }
{
    if program_uses_marks(flow, outline) {
        2
    } else {
        1
    }
}
