// Certificates: what `certify` writes is verified, and a certificate that is changed in one place has the answer
// that is due. A certificate is any valid one, so each change puts whole parts in the place of its own.
use crate::tests::files::{PUBLISHED, text_of};
use crate::tests::program::{answer_over, text_over};
use crate::tests::texts::{halves, on_one_line, text_is};
use std::alloc::{AllocError, Global};
use std::process::Abort;

// The certificate of a file's text, and no text where it has none.
fn certificate(alloc: Global, file: &str) -> Result<String, AllocError> {
    text_over(alloc, &[("file", file.as_bytes())], "certify file", "0\n")
}

// The same of a file by its name.
fn certificate_of(alloc: Global, name: &str) -> Result<String, AllocError> {
    let file = text_of(alloc, name)?;
    certificate(alloc, file.as_str())
}

// What is answered to a certificate for a file's text.
fn judged(alloc: Global, file: &str, certificate: &str) -> Result<String, AllocError> {
    let list = [
        ("file", file.as_bytes()),
        ("certificate", certificate.as_bytes()),
    ];
    answer_over(alloc, &list, "verify file certificate")
}

// What is answered to a certificate for a file.
fn verified(alloc: Global, name: &str, certificate: &str) -> Result<String, AllocError> {
    let file = text_of(alloc, name)?;
    judged(alloc, file.as_str(), certificate)
}

// A line without its end, and no text where it has none.
fn line_of(alloc: Global, line: &str) -> Result<String, AllocError> {
    String::from_str(alloc, line.strip_suffix("\n").unwrap_or(""))
}

// What is answered for a file to the certificate of another one.
fn verified_of(alloc: Global, name: &str, other: &str) -> Result<String, AllocError> {
    let certificate = certificate_of(alloc, other)?;
    verified(alloc, name, certificate.as_str())
}

#[test]
fn what_is_certified_is_verified(rt: HostRuntime) {
    for row in &[
        (
            "hazards",
            "0\nverified points 37 steps 39 obligations 2845\n",
        ),
        (
            "epochs-held",
            "0\nverified points 35 steps 36 obligations 2559\n",
        ),
        ("publish", "0\nverified points 5 steps 4 obligations 0\n"),
        ("least", "0\nverified points 0 steps 0 obligations 0\n"),
        ("labelled", "0\nverified points 7 steps 6 obligations 0\n"),
        ("protected", "0\nverified points 5 steps 4 obligations 0\n"),
        ("once", "0\nverified points 5 steps 4 obligations 0\n"),
        ("marked", "0\nverified points 4 steps 3 obligations 0\n"),
        (
            "marked-outline",
            "0\nverified points 5 steps 4 obligations 10\n",
        ),
        (
            "marked-shared",
            "0\nverified points 5 steps 4 obligations 10\n",
        ),
    ] {
        let (name, want) = *row;
        text_is(&rt, verified_of(rt.alloc(), name, name), want, name);
    }
}

/// A certificate of `marked-link` without a typing: any address may stand anywhere.
const ANYWHERE: &str =
    "{\"env\":[[[0,1],[[0,[0,1]],[0,[0,1]]]],[[0,1],[[0,[0,1]],[0,[0,1]]]],[[0,1],[[0,[0,1]],[0,[0,1]]]],\
     [[0,1],[[0,[0,1]],[0,[0,1]]]],[[0,1],[[0,[0,1]],[0,[0,1]]]],[[0,1],[[0,[0,1]],[0,[0,1]]]],\
     [[0,1],[[0,[0,1]],[0,[0,1]]]],[[0,1],[[0,[0,1]],[0,[0,1]]]]],\"trees\":[],\"version\":2}";

// Certificates that no `certify` wrote.
const WRITTEN: &[(&str, &str, &str)] = &[
    (
        "least",
        r#"{"env":[],"trees":[],"version":1}"#,
        "0\nverified points 0 steps 0 obligations 0\n",
    ),
    (
        "publish",
        PUBLISHED,
        "0\nverified points 5 steps 4 obligations 0\n",
    ),
    (
        "least",
        r#"{"env":[[[],[]]],"trees":[[]],"version":2}"#,
        "1\ninvalid version 2 1\n",
    ),
    (
        "marked",
        r#"{"env":[],"trees":[],"version":1}"#,
        "1\ninvalid version 1 2\n",
    ),
    ("marked-link", ANYWHERE, "1\ninvalid type step 2 prim 0\n"),
    ("hazards", "{}", "2\nrefused certificate field root\n"),
    ("hazards", "{", "2\nrefused certificate json\n"),
    ("stray", "{", "2\nrefused byte at 13\n"),
];

// The one line of a file's certificate, and no text where it doesn't end.
fn certificate_line(alloc: Global, name: &str) -> Result<String, AllocError> {
    let certificate = certificate_of(alloc, name)?;
    line_of(alloc, certificate.as_str())
}

#[test]
fn certificates_from_elsewhere_are_judged(rt: HostRuntime) {
    for row in WRITTEN {
        let (name, certificate, want) = *row;
        text_is(&rt, verified(rt.alloc(), name, certificate), want, name);
    }
    // There is no other one with the strongest typing.
    text_is(
        &rt,
        certificate_line(rt.alloc(), "publish"),
        PUBLISHED,
        "publish",
    );
}

// Changes of any certificate: the first place where a text stands has another one; then the answer.
const ANY_CHANGES: &str = r#"{"env": => "env": => 2 refused certificate json
"version" => "versions" => 2 refused certificate field root
{"env":[ => {"env":[[], => 2 refused certificate field env
"trees":[ => "trees":[[[2,0,0]], => 2 refused certificate field trees
"trees":[[ => "trees":[[[0,4294967295], => 1 invalid tree 0 node 0
"#;

// Changes of that of `hazards`.
const TEXT_CHANGES: &str = r#"{"env":[ => {"env":[[[],[]], => 1 invalid envs 38 37
"trees":[ => "trees":[[], => 1 invalid trees 2846 2845
"version":1 => "version":true => 2 refused certificate field version
"version":1 => "version":3 => 2 refused certificate version 3
"version":1 => "version":2 => 1 invalid version 2 1
"#;

// Changes of that of `marked-shared`. Its first environments are those of the entry and the exit of `g`, its last step
// is the one to the exit.
const MARKED_CHANGES: &str = r#"{"env":[ => {"env":[[[],[]], => 1 invalid envs 6 5
"trees":[ => "trees":[[], => 1 invalid trees 11 10
{"env":[[[0,1],[[7,[]]]] => {"env":[[[0,1],[]] => 1 invalid env 0
{"env":[[[0,1], => {"env":[[[0], => 1 invalid entry g W
[[0,[0,1]]]],[[0,1],[[7, => [[0,[0]]]],[[0,1],[[7, => 1 invalid flow step 3 p
"version":2 => "version":true => 2 refused certificate field version
"version":2 => "version":3 => 2 refused certificate version 3
"version":2 => "version":1 => 1 invalid version 1 2
"#;

fn with_text(
    alloc: Global,
    certificate: &str,
    found: &str,
    text: &str,
) -> Result<String, AllocError> {
    match certificate.split_once(found) {
        Some((before, after)) => format!(in alloc; "{before}{text}{after}"),
        None => Ok(String::new(alloc)),
    }
}

// What is answered to a certificate for a file, its status before the rest.
fn verified_line(alloc: Global, name: &str, certificate: &str) -> Result<String, AllocError> {
    let answer = verified(alloc, name, certificate)?;
    on_one_line(alloc, answer.as_str())
}

// What is answered to a certificate with another text in the place of one.
fn verified_text(
    alloc: Global,
    name: &str,
    certificate: &str,
    found: &str,
    text: &str,
) -> Result<String, AllocError> {
    let changed = with_text(alloc, certificate, found, text)?;
    verified_line(alloc, name, changed.as_str())
}

// Fails where the answer to a certificate that is changed by a row isn't the row's. Both end with their line.
fn text_has(rt: &impl Abort, alloc: Global, name: &str, certificate: &str, row: &str) {
    let (found, rest) = halves(row, " => ");
    let (text, want) = halves(rest, " => ");
    text_is(
        rt,
        verified_text(alloc, name, certificate, found, text),
        want,
        row,
    );
}

// The same of several rows.
fn texts_have(rt: &impl Abort, alloc: Global, name: &str, certificate: &str, rows: &str) {
    for row in rows.split_inclusive("\n") {
        text_has(rt, alloc, name, certificate, row);
    }
}

// The changes for any certificate, then those for this one.
fn changes_have(rt: &impl Abort, alloc: Global, name: &str, changes: &str) {
    let certificate = certificate_of(alloc, name).expect(rt, "memory");
    texts_have(rt, alloc, name, certificate.as_str(), ANY_CHANGES);
    texts_have(rt, alloc, name, certificate.as_str(), changes);
}

#[test]
fn a_certificate_with_another_text_has_its_answer(rt: HostRuntime) {
    for (name, changes) in [("hazards", TEXT_CHANGES), ("marked-shared", MARKED_CHANGES)] {
        changes_have(&rt, rt.alloc(), name, changes);
    }
}

// A point of `hazards` that is neither the first nor the last, its environment without the brackets at its two ends,
// and the answer. The points 25 and 26 stand before and after the load of `t.next`, the only step between them, which
// is step 24; the entry of `pop` is point 13. An environment with all locations and no guarantee holds wherever a step
// leads.
const ENV_CHANGES: &[(usize, &str, &str)] = &[
    // a local too few, a set that isn't within the other, an active pointer that may be retired
    (5, "0],[[0,[0", "1 invalid env 5\n"),
    (5, "0],[[0,[3]],[0,[0", "1 invalid env 5\n"),
    (5, "0,3],[[3,[3]],[0,[0", "1 invalid env 5\n"),
    (13, "0,1,2,3,4,5],[[7,[]],[7,[", "1 invalid entry pop W\n"),
    (
        25,
        "0,1,2,3,4,5,6],[[0,[0,1,2,3,4,5,6]],[0,[0,1,2,3,4,5,6",
        "1 invalid type step 24 prim 0\n",
    ),
    (
        26,
        "0,1,2,3,4,5,6],[[0,[0,1,2,3,4,5,6]],[0,[0,2,3,5",
        "1 invalid flow step 24 s\n",
    ),
];

// What stands between two environments of operations with pointer locals, with the brackets on either side.
const BETWEEN: &str = "]]]],[[";

// Writes a certificate with this environment at a point.
fn push_envs(
    out: &mut String,
    certificate: &str,
    point: usize,
    env: &str,
) -> Result<(), AllocError> {
    for (i, own) in certificate.split(BETWEEN).enumerate() {
        if i > 0 {
            out.push_str(BETWEEN)?;
        }
        out.push_str(if i == point { env } else { own })?;
    }
    Ok(())
}

fn with_env(
    alloc: Global,
    certificate: &str,
    point: usize,
    env: &str,
) -> Result<String, AllocError> {
    let mut out = String::new(alloc);
    push_envs(&mut out, certificate, point, env)?;
    Ok(out)
}

fn verified_env(
    alloc: Global,
    certificate: &str,
    point: usize,
    env: &str,
) -> Result<String, AllocError> {
    let changed = with_env(alloc, certificate, point, env)?;
    verified_line(alloc, "hazards", changed.as_str())
}

fn envs_are_told(rt: &impl Abort, alloc: Global, certificate: &str) {
    for row in ENV_CHANGES {
        let (point, env, want) = *row;
        text_is(rt, verified_env(alloc, certificate, point, env), want, env);
    }
}

// What stands before the first tree of a certificate, what stands there before the first leaf, and what stands after
// that leaf.
fn around_leaf(certificate: &str) -> (&str, &str, &str) {
    let (envs, trees) = halves(certificate, "\"trees\":[[");
    let (splits, rest) = halves(trees, "[1,");
    let (_, after) = halves(rest, "]");
    (envs, splits, after)
}

// A certificate whose first tree has another first leaf, of one term twice.
fn with_leaf(alloc: Global, certificate: &str) -> Result<String, AllocError> {
    let (envs, splits, after) = around_leaf(certificate);
    format!(in alloc; "{envs}\"trees\":[[{splits}[1,0,0]{after}")
}

// The answer that is due to it: the node of that leaf, before which there are splits alone.
fn due_to_leaf(alloc: Global, certificate: &str) -> Result<String, AllocError> {
    let (_, splits, _) = around_leaf(certificate);
    let nodes = splits.matches("[0,").count();
    format!(in alloc; "1\ninvalid tree 0 node {nodes}\n")
}

fn verified_leaf(alloc: Global, certificate: &str) -> Result<String, AllocError> {
    let changed = with_leaf(alloc, certificate)?;
    verified(alloc, "hazards", changed.as_str())
}

fn leaf_is_told(rt: &impl Abort, alloc: Global, certificate: &str) {
    let want = due_to_leaf(alloc, certificate).expect(rt, "memory");
    text_is(rt, verified_leaf(alloc, certificate), want.as_str(), "leaf");
}

// Fails where an answer to the certificate of `hazards` with another environment, or with that leaf, isn't the one that
// is due.
fn parts_are_told(rt: &impl Abort, alloc: Global) {
    let certificate = certificate_of(alloc, "hazards").expect(rt, "memory");
    envs_are_told(rt, alloc, certificate.as_str());
    leaf_is_told(rt, alloc, certificate.as_str());
}

#[test]
fn other_parts_and_certificates_of_others_are_told(rt: HostRuntime) {
    parts_are_told(&rt, rt.alloc());
    text_is(
        &rt,
        verified_of(rt.alloc(), "hazards", "epochs-held"),
        "1\ninvalid envs 35 37\n",
        "epochs-held",
    );
}
