// Outlines that don't hold: the first line of the answer, and that the classes which it prints are a model of the
// ground set of the obligation that it tells. Which model is printed is left open, so no row has it. Beside them a
// few samples that are larger than any file here.
ghost use Rattle.plc_vocabulary.specs.Fit.{Fits};

use crate::tests::locations::file_text;
use crate::tests::program::{answer_over, text_over};
use crate::tests::texts::{first_of, halves, text_is};
use plc_answers::unproved_text;
use plc_base::{Items, NoMemory};
use plc_check::Judged;
use plc_ground::{GroundModel, GroundSet, is_model};
use plc_oblig::{Obligation, count, ground, nth};
use plc_testing::loaded;
use std::alloc::{AllocError, Global};

// The classes that an answer prints, each at the end of a term's line.
fn classes(alloc: Global, answer: &str) -> Result<GroundModel, AllocError> {
    let mut class = Vec::new(alloc);
    for line in answer.split("\n") {
        if line.starts_with("term ") {
            if let Some((_, number)) = line.rsplit_once(" ") {
                class.push(number.parse::<u32>().unwrap_or(u32::MAX))?;
            }
        }
    }
    Ok(GroundModel {
        class: Items::from_vec(class),
    })
}

fn no_clauses(alloc: Global) -> GroundSet {
    GroundSet {
        terms: Items::from_vec(Vec::new(alloc)),
        sorts: Items::from_vec(Vec::new(alloc)),
        clauses: Items::from_vec(Vec::new(alloc)),
    }
}

// The line that tells an obligation.
fn line_of(alloc: Global, judged: &Judged, o: &Obligation) -> Result<Vec<u8>, AllocError> {
    let set = no_clauses(alloc);
    unproved_text(alloc, &judged.flow, o, &set, &[])
}

fn is_told(
    alloc: Global,
    judged: &Judged,
    o: &Obligation,
    answer: &str,
) -> Result<bool, AllocError> {
    let line = line_of(alloc, judged, o)?;
    Ok(answer.as_bytes().starts_with(&line))
}

// Whether the classes are a model of the obligation's ground set.
fn is_model_of(
    alloc: Global,
    judged: &Judged,
    o: &Obligation,
    model: &GroundModel,
) -> Result<bool, NoMemory>
    requires { Fits judged.now.flow judged.now.unit_outline }
{
    let set = ground(alloc, &judged.flow, &judged.unit_outline, o)?;
    Ok(is_model(&set, model))
}

// Whether the answer's classes are a model of the set of the obligation that its first line tells.
fn has_model(alloc: Global, judged: &Judged, answer: &str) -> Result<bool, NoMemory>
    requires { Fits judged.now.flow judged.now.unit_outline }
{
    let model = classes(alloc, answer)?;
    for i in 0..count(&judged.flow, &judged.unit_outline) {
        if let Some(o) = nth(&judged.flow, &judged.unit_outline, i) {
            if is_told(alloc, judged, &o, answer)? {
                return is_model_of(alloc, judged, &o, &model);
            }
        }
    }
    Ok(false)
}

// What `check` answers to a text, without its status.
fn answer_to(alloc: Global, text: &str) -> Result<String, AllocError> {
    text_over(alloc, &[("file", text.as_bytes())], "check file", "1\n")
}

// Whether an answer to a file tells a model.
fn tells_a_model(alloc: Global, text: &str, answer: &str) -> Result<bool, NoMemory> {
    let judged = loaded(alloc, text)?;
    let tells = has_model(alloc, &judged, answer);
    drop(judged);
    tells
}

// The first line of what is answered to a text, where its classes are a model.
fn first_line_of(alloc: Global, text: &str) -> Result<String, NoMemory> {
    let answer = answer_to(alloc, text)?;
    let told = tells_a_model(alloc, text, answer.as_str())?;
    let (line, _) = halves(answer.as_str(), "\n");
    Ok(String::from_str(alloc, if told { line } else { "" })?)
}

// The same of a file that is changed.
fn first_line(alloc: Global, name: &str) -> Result<String, NoMemory> {
    let text = file_text(alloc, name)?;
    first_line_of(alloc, text.as_str())
}

#[test]
fn what_is_printed_is_a_model(rt: HostRuntime) {
    for row in &[
        ("claimed-late", "unproved claim step 29 prim 0 line 36"),
        ("weaker", "unproved own step 6 line 15 clause 3"),
        (
            "interfered",
            "unproved other step 6 line 15 point 0 clause 0",
        ),
        ("marked-cleared", "unproved own step 1 line 3 clause 1"),
    ] {
        let (name, want) = *row;
        text_is(&rt, first_line(rt.alloc(), name), want, name);
    }
}

// The status and the first line of what is answered to words without files.
fn sampled(alloc: Global, words: &str) -> Result<String, AllocError> {
    let answer = answer_over(alloc, &[], words)?;
    first_of(alloc, answer.as_str())
}

#[test]
fn samples_have_their_verdicts(rt: HostRuntime) {
    for row in &[
        ("sample 1 46", "1 unproved own step 6 line 15 clause 3"),
        (
            "sample 4 0",
            "0 sample 4 0 points 148 steps 156 obligations 42253 safe",
        ),
        (
            "sample 8 0",
            "0 sample 8 0 points 296 steps 312 obligations 166869 safe",
        ),
    ] {
        let (words, want) = *row;
        text_is(&rt, sampled(rt.alloc(), words), want, words);
    }
}
