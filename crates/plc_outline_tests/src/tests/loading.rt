// What is asked of files that are judged. A file is owned and lent here alone: what a function has to show at each of
// its ends while it owns one costs more than all else that a test says.
ghost use Rattle.plc_flow.specs.WellFormed.{FlowFits};
ghost use Rattle.plc_flow.specs.WellSorted.{FlowIsWellSorted};
ghost use Rattle.plc_vocabulary.specs.Fit.{Fits};

use plc_base::NoMemory;
use plc_check::Judged;
use plc_testing::loaded;
use std::alloc::Global;

// What is asked of a file.
pub(crate) trait Asked {
    ghost use Rattle.plc_flow.specs.WellFormed.{FlowFits};
    ghost use Rattle.plc_flow.specs.WellSorted.{FlowIsWellSorted};
    ghost use Rattle.plc_vocabulary.specs.Fit.{Fits};

    fn answer(&self, alloc: Global, judged: &Judged) -> Result<String, NoMemory>
        requires whole { Fits judged.now.flow judged.now.unit_outline }
        requires fits { FlowFits judged.now.flow }
        requires sorted { FlowIsWellSorted judged.now.flow };
}

fn lent<A: Asked>(alloc: Global, judged: Judged, question: &A) -> Result<String, NoMemory>
    requires whole { Fits judged.flow judged.unit_outline }
    requires fits { FlowFits judged.flow }
    requires sorted { FlowIsWellSorted judged.flow }
{
    let answer = question.answer(alloc, &judged);
    drop(judged);
    answer
}

pub(crate) fn answered<A: Asked>(
    alloc: Global,
    text: &str,
    question: &A,
) -> Result<String, NoMemory> {
    lent(alloc, loaded(alloc, text)?, question)
}

// A kind of runs with two threads.
pub(crate) trait Runs {
    ghost use Rattle.plc_flow.specs.WellFormed.{FlowFits};
    ghost use Rattle.plc_flow.specs.WellSorted.{FlowIsWellSorted};

    // What the lines of a text come to, one after the other.
    fn transcript(&self, alloc: Global, judged: &Judged, lines: &str) -> Result<String, NoMemory>
        requires fits { FlowFits judged.now.flow }
        requires sorted { FlowIsWellSorted judged.now.flow };
}

// The lines of a run of a kind.
#[derive(Clone, Copy)]
struct Lines<'a, R> {
    runs: &'a R,
    lines: &'a str,
}

impl<'a, R: Runs> Asked for Lines<'a, R> {
    fn answer(&self, alloc: Global, judged: &Judged) -> Result<String, NoMemory> {
        self.runs.transcript(alloc, judged, self.lines)
    }
}

// What lines come to in a run of a file.
pub(crate) fn ran<R: Runs>(
    alloc: Global,
    file: &str,
    runs: &R,
    lines: &str,
) -> Result<String, NoMemory> {
    answered(alloc, file, &Lines { runs, lines })
}
