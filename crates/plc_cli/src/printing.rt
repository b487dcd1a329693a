// A file in canonical text.
ghost use Rattle.plc_cli.specs.Files.{IsPrintedAs};
ghost use Rattle.plc_cli.specs.Views.{unit_of};

use crate::answer::Answer;
use crate::asking::Question;
use crate::status::HOLDS;
use plc_base::NoMemory;
use plc_check::Judged;
use plc_print::print_parts;
use std::alloc::Global;

/// The question for the canonical text of a file.
#[derive(Drop)]
pub(crate) struct ForText;

impl Question for ForText {
    ghost due = { λ _ judged. IsPrintedAs (unit_of judged) };

    fn answer(&self, alloc: Global, judged: &Judged) -> Result<Answer, NoMemory> {
        let file = &judged.flow.file;
        Ok(Answer {
            status: HOLDS,
            text: print_parts(alloc, file, judged.observer, &judged.unit_outline)?,
        })
    }
}
