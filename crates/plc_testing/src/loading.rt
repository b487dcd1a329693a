// A file that is loaded, with what is known of it then.
ghost use Rattle.std.specs.Prelude.{IfOk};
ghost use Rattle.plc_lang.specs.Fit.{FileFits};
ghost use Rattle.plc_flow.specs.WellFormed.{FlowFits};
ghost use Rattle.plc_flow.specs.WellSorted.{FlowIsWellSorted};
ghost use Rattle.plc_vocabulary.specs.Fit.{Fits};

use plc_base::{LARGEST_FILE, NoMemory};
use plc_check::{Judged, load};
use std::alloc::Global;

/// A file with its flow and its outline. A text that is refused counts as memory that runs out, so that a test of it
/// fails.
pub fn loaded(alloc: Global, text: &str) -> Result<Judged, NoMemory>
    ensures whole { IfOk result (λ judged. Fits judged.flow judged.unit_outline) }
    ensures file { IfOk result (λ judged. FileFits judged.flow.file) }
    ensures flow { IfOk result (λ judged. FlowFits judged.flow) }
    ensures sorted { IfOk result (λ judged. FlowIsWellSorted judged.flow) }
{
    if text.len() > LARGEST_FILE {
        return Err(NoMemory);
    }
    match load(alloc, text.as_bytes()) {
        Ok(judged) => Ok(judged),
        Err(_) => Err(NoMemory),
    }
}
