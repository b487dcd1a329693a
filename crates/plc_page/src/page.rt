// The page of a file: the badge, what the answer is about, the file, its points, and the answer. What stands between
// badge and answer is made apart, so that the page shows both whatever is said of them.
ghost use Rattle.std.specs.Prelude.{◌≡◌, ◌≤◌, IfOk, length};
ghost use Rattle.plc_base.specs.FileSizes.{largest_file};
ghost use Rattle.plc_flow.specs.Skeleton.{skeleton_of};
ghost use Rattle.plc_vocabulary.specs.Fit.{Fits};
ghost use Rattle.plc_xfer.specs.Typings.{IsStrongest};
ghost use Rattle.plc_page.specs.Pages.{ShowsAnswer, ShowsCheck, SaysVerdict, ShowsVerdict, SaysRefusal};

use crate::listing::{push_file, push_listing};
use crate::points::push_points;
use crate::refused::line_of_refusal;
use crate::shown::{Shown, Written};
use crate::unproved::{MOST_SHOWN, push_unproved};
use crate::untyped::push_failure;
use plc_answers::line_of;
use plc_base::{Items, NoMemory};
use plc_check::{Judged, LoadFault, Loaded, Verdict, check, load_with_tokens, open_obligations};
use plc_cli::{refusal, verdict_status, verdict_text};
use plc_html::{Html, Subject, whole_page};
use plc_infer::{Typing, pretyping};
use plc_sentences::{Clauses, Source};
use std::alloc::Global;

/// A page, with the status of the answer that it shows.
#[derive(Drop)]
pub struct Page {
    pub status: u8,
    pub bytes: Items<u8>,
}

/// The page of an answer: its badge and its sentence, this part, and the answer. The one error is that memory runs out.
pub fn page_of(alloc: Global, subject: Subject, part: &Html) -> Result<Page, NoMemory>
    ensures { IfOk result (ShowsAnswer subject.entry.title.now subject.entry.status subject.entry.answer.now) }
{
    let nothing = Html::new(alloc);
    let page = whole_page(alloc, subject, part, &nothing)?;
    Ok(Page {
        status: subject.status,
        bytes: Items::from_vec(page),
    })
}

/// The line of the primitive that has no typing, or 0.
fn line_here(judged: &Judged, verdict: &Verdict) -> u32 {
    match verdict {
        Verdict::Untyped { step, .. } => line_of(&judged.flow, step.0),
        Verdict::Safe { .. } | Verdict::Unproved { .. } => 0,
    }
}

/// What the answer is about.
fn push_reasons(html: &mut Html, shown: &Shown, verdict: &Verdict) -> Written
    requires fits { Fits shown.now.judged.now.flow shown.now.judged.now.unit_outline }
    requires strongest { IsStrongest shown.now.judged.now.observer (skeleton_of shown.now.judged.now.flow)
        shown.now.typing.now.env }
{
    match verdict {
        Verdict::Safe { .. } => Ok(()),
        Verdict::Untyped { step, prim, fault } => push_failure(html, shown, *step, *prim, *fault),
        Verdict::Unproved { .. } => {
            let open = open_obligations(html.alloc(), shown.judged, MOST_SHOWN)?;
            push_unproved(html, shown, &open)
        }
    }
}

/// All that stands before the answer.
fn push_all(html: &mut Html, shown: &Shown, verdict: &Verdict) -> Written
    requires fits { Fits shown.now.judged.now.flow shown.now.judged.now.unit_outline }
    requires strongest { IsStrongest shown.now.judged.now.observer (skeleton_of shown.now.judged.now.flow)
        shown.now.typing.now.env }
{
    push_reasons(html, shown, verdict)?;
    push_listing(html, shown, line_here(shown.judged, verdict))?;
    push_points(html, shown)
}

/// A file that was loaded, by its bytes, with the verdict on it.
#[derive(Clone, Copy)]
struct Answered<'a> {
    bytes: &'a [u8],
    loaded: &'a Loaded,
    verdict: &'a Verdict,
}

/// What stands before the answer.
fn rest_of(alloc: Global, answered: Answered) -> Result<Html, NoMemory>
    requires { Fits answered.loaded.now.judged.flow answered.loaded.now.judged.unit_outline }
{
    let judged = &answered.loaded.judged;
    let source = Source {
        bytes: answered.bytes,
        tokens: answered.loaded.tokens.as_slice(),
    };
    let clauses = Clauses::read(alloc, source)?;
    let typing = pretyping(alloc, &judged.flow, &judged.observer)?;
    let shown = Shown {
        bytes: answered.bytes,
        judged,
        clauses: &clauses,
        typing: &typing,
    };
    let mut html = Html::new(alloc);
    push_all(&mut html, &shown, answered.verdict)?;
    Ok(html)
}

/// The page that says a verdict.
fn verdict_page(alloc: Global, name: &[u8], answered: Answered) -> Result<Page, NoMemory>
    requires { Fits answered.loaded.now.judged.flow answered.loaded.now.judged.unit_outline }
    ensures { IfOk result (SaysVerdict name.now answered.entry.loaded.now.judged answered.entry.verdict.now) }
{
    let text = verdict_text(alloc, &answered.loaded.judged, answered.verdict)?;
    let rest = rest_of(alloc, answered)?;
    let subject = Subject {
        title: name,
        status: verdict_status(answered.verdict),
        answer: &text,
    };
    page_of(alloc, subject, &rest)
}

/// The page of a file that was loaded.
fn judged_page(alloc: Global, name: &[u8], bytes: &[u8], loaded: &Loaded) -> Result<Page, NoMemory>
    requires { Fits loaded.now.judged.flow loaded.now.judged.unit_outline }
    ensures { IfOk result (ShowsVerdict name.now loaded.now.judged) }
{
    let verdict = check(alloc, &loaded.judged)?;
    let answered = Answered {
        bytes,
        loaded,
        verdict: &verdict,
    };
    let page = verdict_page(alloc, name, answered);
    drop(verdict);
    page
}

/// The page of a file that was loaded, which ends here.
fn loaded_page(alloc: Global, name: &[u8], bytes: &[u8], loaded: Loaded) -> Result<Page, NoMemory>
    requires { Fits loaded.judged.flow loaded.judged.unit_outline }
    ensures { IfOk result (ShowsVerdict name.now loaded.judged) }
{
    let page = judged_page(alloc, name, bytes, &loaded);
    drop(loaded);
    page
}

/// The page of a file that is refused: the refusal and the file, by its bytes. `name` is the title. The one error is
/// that memory runs out.
pub fn refused_page(
    alloc: Global,
    name: &[u8],
    bytes: &[u8],
    fault: &LoadFault,
) -> Result<Page, NoMemory>
    ensures { IfOk result (SaysRefusal name.now fault.now) }
{
    let answer = refusal(alloc, fault)?;
    let mut rest = Html::new(alloc);
    push_file(&mut rest, bytes, line_of_refusal(bytes, fault))?;
    let subject = Subject {
        title: name,
        status: answer.status,
        answer: &answer.text,
    };
    page_of(alloc, subject, &rest)
}

/// The page of a file, by its bytes: the badge and the sentence of what `check` answers, what that is about, the file,
/// its points, and the answer. `name` is the title. The one error is that memory runs out.
pub fn file_page(alloc: Global, name: &[u8], bytes: &[u8]) -> Result<Page, NoMemory>
    requires { length bytes.now ≤ largest_file }
    ensures { IfOk result (ShowsCheck name.now bytes.now) }
{
    match load_with_tokens(alloc, bytes) {
        Ok(loaded) => loaded_page(alloc, name, bytes, loaded),
        Err(LoadFault::Memory) => Err(NoMemory),
        Err(fault) => refused_page(alloc, name, bytes, &fault),
    }
}
