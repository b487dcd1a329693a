// The file line by line, with the steps that each line makes. Steps are sorted by their lines first, so that each line
// takes those that come next.
use crate::shown::{Shown, Written, push_point_link};
use plc_base::{NoMemory, StepId};
use plc_flow::{Flow, Step};
use plc_html::{Html, Tag};
use plc_sentences::nth_of;
use std::alloc::Global;

/// The line and the number of each step, in the order of the lines.
fn steps_by_line(alloc: Global, flow: &Flow) -> Result<Vec<(u32, u16)>, NoMemory> {
    let mut steps = Vec::new(alloc);
    for (number, step) in flow.steps.as_slice().iter().enumerate() {
        if let Ok(number) = u16::try_from(number) {
            steps.push((step.line, number))?;
        }
    }
    steps.sort()?;
    Ok(steps)
}

/// A step: its number, by which number a schedule takes it, and where it leads.
fn push_step(html: &mut Html, flow: &Flow, number: u16, step: &Step) -> Written {
    push_point_link(html, step.from.0)?;
    html.markup(" \u{2192} ")?;
    push_point_link(html, step.to.0)?;
    html.numbered(" (step ", u64::from(number))?;
    html.numbered(", K ", u64::from(nth_of(flow, StepId(number))))?;
    html.markup(")")
}

/// The steps of a line, which come first among these: how many they are.
fn push_steps(
    html: &mut Html,
    flow: Option<&Flow>,
    steps: &[(u32, u16)],
    line: u32,
) -> Result<usize, NoMemory> {
    let Some(flow) = flow else {
        return Ok(0);
    };
    let mut count = 0_usize;
    for (of_line, number) in steps {
        if *of_line != line {
            break;
        }
        if let Some(step) = flow.steps.get(*number as usize) {
            if count > 0 {
                html.markup("<br>")?;
            }
            push_step(html, flow, *number, step)?;
        }
        count = count.saturating_add(1);
    }
    Ok(count)
}

/// A line with its steps: how many of those that are left are its own.
fn push_line(
    html: &mut Html,
    flow: Option<&Flow>,
    steps: &[(u32, u16)],
    line: u32,
    text: &[u8],
    here: bool,
) -> Result<usize, NoMemory> {
    let number = u64::from(line);
    html.tag(if here {
        Tag::RowOfLineHere { number }
    } else {
        Tag::RowOfLine { number }
    })?;
    html.numbered("<td>", number)?;
    html.markup("</td><td>")?;
    html.text(text.strip_suffix(b"\r").unwrap_or(text))?;
    html.markup("</td><td class=\"steps\">")?;
    let count = push_steps(html, flow, steps, line)?;
    html.markup("</td></tr>\n")?;
    Ok(count)
}

/// The lines of the file, with the steps of a flow in the order of the lines; the line `here` is marked.
fn push_lines(
    html: &mut Html,
    bytes: &[u8],
    flow: Option<&Flow>,
    steps: &[(u32, u16)],
    here: u32,
) -> Written {
    let mut left = steps;
    let mut line = 1_u32;
    html.markup("<div class=\"wide\"><table class=\"listing\">\n")?;
    let whole = bytes.strip_suffix(b"\n").unwrap_or(bytes);
    for text in whole.split(|byte| *byte == b'\n') {
        let count = push_line(html, flow, left, line, text, line == here)?;
        left = left.get(count..).unwrap_or(&[]);
        line = line.saturating_add(1);
    }
    html.markup("</table></div>\n")
}

/// The file with its steps. The line `here` is marked; 0 marks none.
pub(crate) fn push_listing(html: &mut Html, shown: &Shown, here: u32) -> Written {
    let flow = &shown.judged.flow;
    let steps = steps_by_line(html.alloc(), flow)?;
    html.markup(
        "<h2 id=\"file\">The file</h2>\n<p>Beside each line stand the steps that it makes: from which point to which, \
         and by which number K a schedule takes the step (<code>step T K</code>).</p>\n",
    )?;
    push_lines(html, shown.bytes, Some(flow), &steps, here)
}

/// The lines of a text, each with its number, by which one comes to it: `#L5`. The line `here` is marked; 0 marks none.
/// The one error is that memory runs out.
pub fn push_numbered_lines(html: &mut Html, bytes: &[u8], here: u32) -> Written {
    push_lines(html, bytes, None, &[], here)
}

/// The file line by line, without its steps. The line `here` is marked; 0 marks none. The one error is that memory runs
/// out.
pub fn push_file(html: &mut Html, bytes: &[u8], here: u32) -> Written {
    html.markup("<h2 id=\"file\">The file</h2>\n")?;
    push_numbered_lines(html, bytes, here)
}
