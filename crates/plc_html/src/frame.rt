// What each page begins and ends with, and where its answer stands. The style stands in the page, so that nothing is
// fetched; it has no meaning of its own: whatever a colour says is said by a word, too.
ghost use Rattle.std.specs.Prelude.{◌≡◌, IfOk, map};
ghost use Rattle.plc_html.specs.Escaping.{escaped};
ghost use Rattle.plc_html.specs.Fragments.{IsFragment};
ghost use Rattle.plc_html.specs.Frame.{beginning, ending, framed, joined};
ghost use Rattle.plc_html.specs.Laws.{NothingFetches};

use crate::badges::badge_row;
use crate::escaping::push_text;
use crate::html::Html;
use plc_base::NoMemory;
use std::alloc::{AllocError, Global};

const DOCTYPE: &[u8] = b"<!DOCTYPE html>\n<html lang=\"en\">\n<head>\n<meta charset=\"utf-8\">\n";

const VIEWPORT: &[u8] =
    b"<meta name=\"viewport\" content=\"width=device-width, initial-scale=1\">\n<title>";

const BEFORE_STYLE: &[u8] = b"</title>\n<style>\n";

const STYLE: &[u8] =
    b":root { color-scheme: light dark; --line: #8888; --mark: #c60; --soft: #8882; }
body { font: 16px/1.5 system-ui, sans-serif; margin: 0 auto; max-width: 75rem; padding: 1rem; }
h1 { font-size: 1.3rem; margin: 0 0 .5rem; overflow-wrap: anywhere; }
h2 { font-size: 1.1rem; margin: 2rem 0 .5rem; border-bottom: 1px solid var(--line); }
h3 { font-size: 1rem; margin: 1.2rem 0 .3rem; overflow-wrap: anywhere; }
p, li, summary, dd { overflow-wrap: anywhere; }
pre, code, .listing, .states, svg { font-family: ui-monospace, monospace; font-size: 13px; }
pre { margin: .3rem 0; white-space: pre-wrap; overflow-wrap: anywhere; }
.badge { border-radius: .25rem; padding: .1rem .5rem; color: #fff; background: #555; }
.badge.safe { background: #1a7035; }
.badge.open { background: #8a5300; }
.badge.race { background: #b3261e; }
.answer { border: 2px solid; padding: .5rem .75rem; }
.wide { overflow-x: auto; margin: .3rem 0; }
table { border-collapse: collapse; }
th, td { text-align: left; vertical-align: top; padding: .1rem .6rem; border-top: 1px solid var(--soft); }
.listing td, .listing th { border: 0; padding: 0 .6rem; white-space: pre; }
.listing .here { background: var(--soft); font-weight: bold; }
.steps { color: #777; }
.states td { white-space: nowrap; }
details { margin: .2rem 0; }
details > summary { cursor: pointer; }
details > :not(summary) { margin-left: 1rem; }
svg { display: block; font-size: 12px; }
.changed { font-weight: bold; fill: var(--mark); stroke: none; color: var(--mark); }
.gone { text-decoration: line-through; }
.pair { display: flex; flex-wrap: wrap; gap: 0 2.5rem; }
.pair > div { max-width: 100%; }
@media print { details::details-content { content-visibility: visible; } }
";

const AFTER_STYLE: &[u8] = b"</style>\n</head>\n<body>\n<h1>";

const AFTER_HEADING: &[u8] = b"</h1>\n";

const BEFORE_ANSWER: &[u8] =
    b"<details id=\"answer\"><summary>The answer in full</summary>\n<pre class=\"answer\">";

const AFTER_ANSWER: &[u8] = b"</pre>\n</details>\n";

const END: &[u8] = b"</body>\n</html>\n";

/// What a page is about: its title, and the answer that it shows, with its status.
#[derive(Clone, Copy)]
pub struct Subject<'a> {
    pub title: &'a [u8],
    pub status: u8,
    pub answer: &'a [u8],
}

/// What stands for a text.
fn escaped(alloc: Global, text: &[u8]) -> Result<Vec<u8>, AllocError>
    ensures { IfOk result (λ out. out.items ≡ escaped text.now) }
{
    let mut out = Vec::new(alloc);
    push_text(&mut out, text)?;
    Ok(out)
}

/// Texts one after another.
fn joined(alloc: Global, texts: &[&[u8]]) -> Result<Vec<u8>, AllocError>
    ensures { IfOk result (λ out. out.items ≡ joined (map (λ text. text.now) texts.now)) }
{
    let mut out = Vec::new(alloc);
    for text in texts {
        out.extend_from_slice(text)?;
    }
    Ok(out)
}

/// What stands before both parts.
fn beginning(alloc: Global, title: &[u8], row: &[u8]) -> Result<Vec<u8>, AllocError>
    ensures { IfOk result (λ out. out.items ≡ joined (beginning title.now row.now)) }
{
    joined(
        alloc,
        &[
            DOCTYPE,
            VIEWPORT,
            title,
            BEFORE_STYLE,
            STYLE,
            AFTER_STYLE,
            title,
            AFTER_HEADING,
            row,
        ],
    )
}

/// The answer's element, a part, and the end.
fn ending(alloc: Global, answer: &[u8], part: &[u8]) -> Result<Vec<u8>, AllocError>
    ensures { IfOk result (λ out. out.items ≡ joined (ending answer.now part.now)) }
{
    joined(alloc, &[BEFORE_ANSWER, answer, AFTER_ANSWER, part, END])
}

/// A whole page: its title, the badge and the sentence of the answer, a part, the answer as it was written, and another
/// part. The one error is that memory runs out.
pub fn whole_page(
    alloc: Global,
    subject: Subject,
    first: &Html,
    second: &Html,
) -> Result<Vec<u8>, NoMemory>
    ensures page { IfOk result (λ page. page.items ≡ framed
        subject.entry.title.now subject.entry.status subject.entry.answer.now first.now second.now) }
    ensures first { IsFragment first.now }
    ensures second { IsFragment second.now }
{
    let part = first.bytes();
    let after = second.bytes();
    let title = escaped(alloc, subject.title)?;
    let answer = escaped(alloc, subject.answer)?;
    let mut page = beginning(alloc, &title, badge_row(subject.status, subject.answer))?;
    page.extend_from_slice(part)?;
    let rest = ending(alloc, &answer, after)?;
    page.extend_from_slice(&rest)?;
    Ok(page)
}

/// The law that neither the frame, nor a badge, the style or a tag of a part, whatever its numbers are, holds one of
/// the listed texts by which a page would fetch, run or lead elsewhere. Nor is there a comment, nor does the style end
/// before its tag does, nor has a tag of a part a style, nor is it a badge or the answer's element.
pub fn pages_fetch_nothing()
    ensures { NothingFetches }
{}
