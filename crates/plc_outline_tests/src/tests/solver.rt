// Ground sets, trees, models and the solver, with verdicts that were found by hand from the definitions. Terms
// are numbered by their places; `0=1 or 2!=3; -` are two clauses, the second without a literal.
use crate::tests::texts::text_is;
use plc_base::{FieldId, Items, NoMemory};
use plc_ground::{
    GroundModel, GroundSet, GroundTerm, Lit, Map, Node, Sort, Symbol, Tree, closes, is_model,
    is_well_formed,
};
use plc_solve::{Answer, refute};
use std::alloc::{AllocError, Global};

// A number that a text writes.
fn number(text: &str) -> u32 {
    text.parse::<u32>().unwrap_or(9999)
}

fn place(text: &str) -> u16 {
    text.parse::<u16>().unwrap_or(999)
}

fn literal(text: &str) -> Lit {
    if let Some((left, right)) = text.split_once("!=") {
        return Lit {
            left: number(left),
            right: number(right),
            equal: false,
        };
    }
    let (left, right) = text.split_once("=").unwrap_or((text, ""));
    Lit {
        left: number(left),
        right: number(right),
        equal: true,
    }
}

fn clause(alloc: Global, text: &str) -> Result<Items<Lit>, AllocError> {
    let mut literals = Items::new(alloc);
    if text != "-" {
        for part in text.split(" or ") {
            literals.push(literal(part))?;
        }
    }
    Ok(literals)
}

fn clauses(alloc: Global, text: &str) -> Result<Items<Items<Lit>>, AllocError> {
    let mut all = Items::new(alloc);
    if !text.is_empty() {
        for part in text.split("; ") {
            all.push(clause(alloc, part)?)?;
        }
    }
    Ok(all)
}

// A term that a word writes: a constant, or `next` of the term of a number.
fn term(word: &str) -> GroundTerm {
    match word {
        "null" => GroundTerm::Const(Symbol::Null),
        "none" => GroundTerm::Const(Symbol::Nobody),
        "me" => GroundTerm::Const(Symbol::Me),
        _ => numbered(word),
    }
}

fn numbered(word: &str) -> GroundTerm {
    let (kind, rest) = word.split_once(".").unwrap_or((word, ""));
    match kind {
        "bound" => GroundTerm::Const(Symbol::Bound(place(rest))),
        "shared" => GroundTerm::Const(Symbol::Shared(place(rest))),
        "value" => GroundTerm::Const(Symbol::Value(place(rest))),
        "number" => GroundTerm::Const(Symbol::Number(number(rest))),
        "next" => GroundTerm::App {
            map: Map::Field(FieldId(0)),
            version: 0,
            arg: number(rest),
        },
        "ghost0" => auxiliary(0, number(rest)),
        _ => auxiliary(1, number(rest)),
    }
}

// An auxiliary field of the term of a number.
fn auxiliary(field: u16, arg: u32) -> GroundTerm {
    GroundTerm::App {
        map: Map::Ghost(field),
        version: 0,
        arg,
    }
}

fn sort(word: &str) -> Sort {
    match word {
        "node" => Sort::Node,
        "thread" => Sort::Thread,
        "number" => Sort::Number,
        "value0" => Sort::Value(0),
        _ => Sort::Value(1),
    }
}

// Terms with their sorts, and clauses; a term that stands alone has no sort.
fn set(alloc: Global, terms: &str, rows: &str) -> Result<GroundSet, AllocError> {
    let mut names = Items::new(alloc);
    let mut sorts = Items::new(alloc);
    for word in terms.split_whitespace() {
        match word.split_once(":") {
            Some((before, after)) => {
                names.push(term(after))?;
                sorts.push(sort(before))?;
            }
            None => names.push(term(word))?,
        }
    }
    Ok(GroundSet {
        terms: names,
        sorts,
        clauses: clauses(alloc, rows)?,
    })
}

// Two nodes and `next` of each, two threads, two numbers, two values of one field and one of another.
const MIXED: &str = "node:null node:bound.0 node:next.0 node:next.1 thread:none thread:me \
    number:number.0 number:number.7 value0:value.0 value0:value.1 value1:value.2";

// A tree's node: `S` with a clause, or the two terms of a leaf.
fn node(text: &str) -> Node {
    if let Some(clause) = text.strip_prefix("S") {
        return Node::Split(number(clause));
    }
    let (left, right) = text.split_once(",").unwrap_or((text, ""));
    Node::Leaf(number(left), number(right))
}

fn tree(alloc: Global, text: &str) -> Result<Tree, AllocError> {
    let mut nodes = Items::new(alloc);
    for word in text.split_whitespace() {
        nodes.push(node(word))?;
    }
    Ok(Tree { nodes })
}

// The verdict on a tree over a set.
fn verdict_over(alloc: Global, set: &GroundSet, nodes: &str) -> Result<Option<u64>, NoMemory> {
    if !is_well_formed(set) {
        return Err(NoMemory);
    }
    let tree = tree(alloc, nodes)?;
    closes(alloc, set, &tree)
}

// The verdict on a tree over five clauses, of which the fourth is empty.
fn verdict_on(alloc: Global, nodes: &str) -> Result<Option<u64>, NoMemory> {
    let set = set(alloc, MIXED, "0=1; 2!=3; 4=5; -; 0=1 or 6=7")?;
    verdict_over(alloc, &set, nodes)
}

// First bad nodes, each with the trees that have it.
const TREES: &[(Option<u64>, &str)] = &[
    (None, "S0 S1 2,3; S1 S0 3,2; S3; S2 4,5; S4 S1 2,3 6,7"),
    (Some(0), "; 4,5"),
    (Some(1), "S0 S5; S0 2,11; S0 2,3; S1 2,3; S4 6,7; S3 S3"),
    (Some(2), "S0 S1"),
    (Some(3), "S4 S1 2,3; S4 S1 2,3 2,3; S0 S1 2,3 2,3"),
];

#[test]
fn trees_close_or_have_a_first_bad_node(rt: HostRuntime) -> Result<(), NoMemory> {
    for row in TREES {
        let (bad, trees) = *row;
        for nodes in trees.split("; ") {
            assert_eq!(rt; verdict_on(rt.alloc(), nodes)?, bad, "{nodes}");
        }
    }
    Ok(())
}

fn model(alloc: Global, text: &str) -> Result<GroundModel, AllocError> {
    let mut class = Items::new(alloc);
    for word in text.split_whitespace() {
        class.push(number(word))?;
    }
    Ok(GroundModel { class })
}

// Whether these classes are a model of two clauses over the terms.
fn are_a_model(alloc: Global, classes: &str) -> Result<bool, AllocError> {
    let set = set(alloc, MIXED, "0=1; 6!=7 or 2=3")?;
    let model = model(alloc, classes)?;
    Ok(is_well_formed(&set) && is_model(&set, &model))
}

#[test]
fn classes_are_a_model_or_not(rt: HostRuntime) -> Result<(), AllocError> {
    // classes, and what is wrong with them where they are no model
    for row in &[
        ("0 0 2 2 4 5 6 7 8 9 10", ""),
        ("0 0 0 0 4 5 6 7 8 9 10", ""),
        ("0 1 2 3 4 5 6 7 8 9 10", "a false clause"),
        ("0 0 2 3 4 5 6 7 8 9 10", "no congruence"),
        ("0 0 2 2 4 4 6 7 8 9 10", "none is me"),
        ("0 0 2 2 4 5 6 6 8 9 10", "two numbers"),
        ("0 0 2 2 4 5 6 7 8 8 10", "two values"),
        ("0 0 2 2 4 5 6 7 8 9 9", "two sorts"),
        ("1 1 2 2 4 5 6 7 8 9 10", "not the least"),
        ("0 0 2 2 4 5 6 7 8 9", "a class is missing"),
    ] {
        let (classes, wrong) = *row;
        assert!(rt;
            are_a_model(rt.alloc(), classes)? == wrong.is_empty(),
            "{classes}: {wrong}"
        );
    }
    Ok(())
}

// Whether a set of these terms and one clause fits.
fn fits(alloc: Global, terms: &str, literal: &str) -> Result<bool, AllocError> {
    let set = set(alloc, terms, literal)?;
    Ok(is_well_formed(&set))
}

#[test]
fn sets_fit_or_not(rt: HostRuntime) -> Result<(), AllocError> {
    for row in &[
        ("node:null node:next.0 node:next.1", "0=1", true),
        // a term twice, a later argument, a map of another sort
        ("node:null node:shared.0 node:null", "0=1", false),
        ("node:null node:next.1 node:shared.0", "0=1", false),
        ("node:null node:next.0 number:next.1", "0=1", false),
        // no such term, two sorts, no sort
        ("node:null node:next.0 node:next.1", "0=3", false),
        ("node:null number:shared.0 node:next.0", "0=1", false),
        ("node:null node:shared.0 next.1", "0=1", false),
    ] {
        let (terms, literal, fit) = *row;
        assert!(rt;
            fits(rt.alloc(), terms, literal)? == fit,
            "{terms} {literal}"
        );
    }
    Ok(())
}

fn model_text(alloc: Global, set: &GroundSet, model: &GroundModel) -> Result<String, AllocError> {
    if !is_well_formed(set) {
        return String::from_str(alloc, "unfit");
    }
    if !is_model(set, model) {
        return String::from_str(alloc, "no model");
    }
    let class = model.class.as_slice();
    format!(in alloc; "open {class:?}")
}

fn tree_text(alloc: Global, set: &GroundSet, tree: &Tree) -> Result<String, NoMemory> {
    if !is_well_formed(set) {
        return Err(NoMemory);
    }
    let bad = closes(alloc, set, tree)?;
    let nodes = tree.nodes.as_slice();
    Ok(match bad {
        None => format!(in alloc; "closed {nodes:?}")?,
        Some(bad) => format!(in alloc; "bad {bad} {nodes:?}")?,
    })
}

// What the solver finds: its model is judged by `is_model`, its tree by `closes`.
fn found(alloc: Global, set: &GroundSet) -> Result<String, NoMemory> {
    if !is_well_formed(set) {
        return Ok(String::from_str(alloc, "unfit")?);
    }
    match refute(alloc, set)? {
        Answer::Open(model) => Ok(model_text(alloc, set, &model)?),
        Answer::Closed(tree) => tree_text(alloc, set, &tree),
    }
}

// What is found of a set of these terms.
fn solved(alloc: Global, terms: &str, rows: &str) -> Result<String, NoMemory> {
    let set = set(alloc, terms, rows)?;
    let answer = found(alloc, &set);
    drop(set);
    answer
}

const NODES: &str = "node:null node:bound.0 node:bound.1 node:next.0 node:next.1 node:next.2";

// Two threads and a term of that sort, two values of a field and a term of that sort, two numbers.
const CONSTANTS: &str =
    "node:null thread:none thread:me thread:ghost1.0 value0:value.0 value0:value.1 \
    value0:ghost0.0 number:number.0 number:number.1";

const SOLVED_NODES: &[(&str, &str)] = &[
    ("", "open"),
    ("-", "closed"),
    ("0=1", "open"),
    ("0=1; 0!=1", "closed"),
    ("0=1; 1=2; 2!=0", "closed"),
    ("0=1; 4!=3", "closed"),
    ("3=4; 0!=1", "open"),
    ("0!=0 or 1=2; 4!=5", "closed"),
    ("0=1 or 0=2", "open"),
    ("0=1 or 0=2; 3!=4", "open"),
    ("0=1 or 0=2; 3!=4; 3!=5", "closed"),
    ("0=1 or 0=2; 3!=4 or 4=5", "open"),
    ("0=1 or 0=2; 3!=4 or 4=5; 3!=5", "closed"),
];

const SOLVED_CONSTANTS: &[(&str, &str)] = &[
    ("", "open"),
    ("1=2", "closed"),
    ("7=8", "closed"),
    ("3=1; 3=2", "closed"),
    ("6=4 or 6=5; 6!=4", "open"),
    ("6=4 or 6=5; 6!=4; 6!=5", "closed"),
];

// The word before the first space.
fn first_word(text: &str) -> &str {
    match text.split_once(" ") {
        Some((word, _)) => word,
        None => text,
    }
}

// Whether a set of these terms is answered so.
fn is_solved(alloc: Global, terms: &str, rows: &str, want: &str) -> Result<bool, NoMemory> {
    let answer = solved(alloc, terms, rows)?;
    Ok(first_word(answer.as_str()) == want)
}

// Terms with sets over them, and how these are answered.
const SOLVED: &[(&str, &[(&str, &str)])] = &[(NODES, SOLVED_NODES), (CONSTANTS, SOLVED_CONSTANTS)];

#[test]
fn sets_are_solved(rt: HostRuntime) -> Result<(), NoMemory> {
    for table in SOLVED {
        let (terms, sets) = *table;
        for set in sets {
            let (rows, want) = *set;
            assert!(rt;
                is_solved(rt.alloc(), terms, rows, want)?,
                "{rows} over {terms}"
            );
        }
    }
    Ok(())
}

// In the last row the first clause has nothing to do with why there is no model; it is split first, and goes.
#[test]
fn answers_are_whole(rt: HostRuntime) -> Result<(), NoMemory> {
    for row in &[
        ("node:null node:bound.0", "0=1", "open [0, 0]"),
        ("number:number.0 number:number.1", "", "open [0, 1]"),
        (
            "node:null node:bound.0",
            "0=1; 0!=1",
            "closed [Split(0), Split(1), Leaf(0, 1)]",
        ),
        (
            "node:bound.0 node:bound.1 node:shared.0 node:shared.1 node:shared.2 node:next.0 node:next.1 node:next.2",
            "3=4 or 3=1; 0=1 or 0=2; 5!=6; 5!=7",
            "closed [Split(1), Split(2), Leaf(5, 6), Split(3), Leaf(5, 7)]",
        ),
    ] {
        let (terms, rows, want) = *row;
        text_is(&rt, solved(rt.alloc(), terms, rows), want)?;
    }
    Ok(())
}
