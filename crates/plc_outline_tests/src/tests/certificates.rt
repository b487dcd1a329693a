// Certificates with their whole texts, and texts with the refusal that is due, written by hand from the format.
use plc_base::{Items, Mask, NoMemory};
use plc_cert::{Cert, CertFault, CertField, read, write};
use plc_ground::{Node, Tree};
use plc_type::Env;
use std::alloc::{AllocError, Global};

// What is read of a text, written again.
fn again(alloc: Global, text: &str) -> Result<Vec<u8>, CertFault> {
    let cert = read(alloc, text.as_bytes())?;
    match write(alloc, &cert) {
        Ok(bytes) => Ok(bytes),
        Err(NoMemory) => Err(CertFault::Memory),
    }
}

// Whether a text is answered so: by this text, or by this refusal.
fn is_answered(alloc: Global, text: &str, want: Result<&str, CertFault>) -> bool {
    match (again(alloc, text), want) {
        (Ok(bytes), Ok(written)) => bytes.as_slice() == written.as_bytes(),
        (Err(fault), Err(other)) => fault == other,
        _ => false,
    }
}

const EMPTY: &str = r#"{"env":[],"trees":[],"version":1}"#;

const EMPTY_WITH_MARKS: &str = r#"{"env":[],"trees":[],"version":2}"#;

const WHOLE: &str =
    r#"{"env":[[[0,7],[[0,[]],[1,[2]],[3,[]],[7,[0,2]]]],[[],[]]],"trees":[[[0,3],[1,0,4294967295]],[]],"version":1}"#;

// Texts with what is written of them.
const READ: &[(&str, &str)] = &[
    (EMPTY, EMPTY),
    (EMPTY_WITH_MARKS, EMPTY_WITH_MARKS),
    (WHOLE, WHOLE),
    (
        " {\"version\":1,\"trees\":[ [[1 ,2,3]] ],\r\n\t\"env\":[]}\n",
        r#"{"env":[],"trees":[[[1,2,3]]],"version":1}"#,
    ),
    (r#"{"\u0065nv":[],"trees":[],"version":1}"#, EMPTY),
    (r#"{"env":7,"env":[],"trees":[],"version":1}"#, EMPTY),
    (
        r#"{"version":1,"version":2,"trees":[],"env":[]}"#,
        EMPTY_WITH_MARKS,
    ),
];

#[test]
fn what_is_written_is_read(rt: HostRuntime) {
    for row in READ {
        let (text, written) = *row;
        assert!(rt; is_answered(rt.alloc(), text, Ok(written)), "{text}");
    }
}

// Texts that are no JSON, and parts of a certificate with texts in which the part is the first at fault.
const REFUSED: &str = r#"json => 
json => {
json => {"env":1e999,"trees":[],"version":1}
json => {"env":[],"trees":[],"version":2
root => {}
root => [[],[],1]
root => {"env":7,"trees":7,"version":2,"x":0}
root => {"env":7,"tree":7,"version":2}
env => {"env":7,"trees":7,"version":1}
env => {"env":7,"trees":7,"version":2}
env => {"env":[[[1,0],[]]],"trees":7,"version":1}
env => {"env":[[[8],[]]],"trees":7,"version":1}
env => {"env":[[[],[[2,[]]]]],"trees":7,"version":1}
trees => {"env":[],"trees":7,"version":1}
trees => {"env":[],"trees":7,"version":2}
trees => {"env":[],"trees":[[[1,0]]],"version":1}
trees => {"env":[],"trees":[[[0,4294967296]]],"version":1}
"#;

// The fault that a word names.
fn fault(word: &str) -> CertFault {
    let field = match word {
        "json" => return CertFault::NotJson,
        "root" => CertField::Root,
        "env" => CertField::Env,
        _ => CertField::Trees,
    };
    CertFault::Shape { field }
}

#[test]
fn each_refusal_comes_in_its_order(rt: HostRuntime) {
    for row in REFUSED.lines() {
        let (word, text) = row.split_once(" => ").unwrap_or(("", row));
        assert!(rt; is_answered(rt.alloc(), text, Err(fault(word))), "{row}");
    }
}

// Whether a text with this version, whose other parts are at fault too, is refused so.
fn version_is_refused(alloc: Global, version: &str, fault: CertFault) -> Result<bool, AllocError> {
    let text = format!(in alloc; "{{\"env\":7,\"trees\":7,\"version\":{version}}}")?;
    Ok(is_answered(alloc, text.as_str(), Err(fault)))
}

const BAD_VERSION: CertFault = CertFault::Shape {
    field: CertField::Version,
};

// Versions with their faults.
const VERSIONS: &[(&str, CertFault)] = &[
    ("1.0", BAD_VERSION),
    ("2.0", BAD_VERSION),
    ("-1", BAD_VERSION),
    ("18446744073709551616", BAD_VERSION),
    ("3", CertFault::Version { n: 3 }),
    ("0", CertFault::Version { n: 0 }),
    ("18446744073709551615", CertFault::Version { n: u64::MAX }),
];

// The version is judged before the environments and the trees.
#[test]
fn versions_are_refused(rt: HostRuntime) -> Result<(), AllocError> {
    for row in VERSIONS {
        let (version, fault) = *row;
        assert!(rt;
            version_is_refused(rt.alloc(), version, fault)?,
            "{version}"
        );
    }
    Ok(())
}

// One environment with a shared pointer and two locals, and one tree of a split and a leaf.
fn example(alloc: Global) -> Result<Cert, NoMemory> {
    let nodes = vec![in alloc; Node::Split(12), Node::Leaf(5, 0)]?;
    let tree = Tree {
        nodes: Items::from_vec(nodes),
    };
    let trees = vec![in alloc; tree]?;
    let env = vec![in alloc; Env::entry(alloc, 1, 2, &Mask::full(3))?]?;
    Ok(Cert {
        version: 2,
        env: Items::from_vec(env),
        trees: Items::from_vec(trees),
    })
}

fn written(alloc: Global) -> Result<Vec<u8>, NoMemory> {
    let cert = example(alloc)?;
    write(alloc, &cert)
}

// Types of shared pointers are left out.
#[test]
fn certificates_are_written_whole(rt: HostRuntime) -> Result<(), NoMemory> {
    let text = written(rt.alloc())?;
    let want = r#"{"env":[[[0,1,2],[[7,[]],[7,[]]]]],"trees":[[[0,12],[1,5,0]]],"version":2}"#;
    assert!(rt; text.as_slice() == want.as_bytes());
    Ok(())
}
