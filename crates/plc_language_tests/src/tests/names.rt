// Lists of names, and the names of the limits.
use crate::tests::tables::{Answers, assert_answer, assert_lines};
use plc_base::{Names, What1};
use std::alloc::{AllocError, Global};

// What each name of a text comes to, one after the other.
fn push_names(answer: &mut String, names: &mut Names, text: &str) -> Result<(), AllocError> {
    for name in text.split(" ") {
        match names.add(name.as_bytes()) {
            Ok(number) => write!(answer, "{number} ")?,
            Err(fault) => write!(answer, "{fault:?} ")?,
        }
    }
    Ok(())
}

// What the names of a text come to in a list of two.
struct ListOfTwo;

impl Answers for ListOfTwo {
    fn push(&self, alloc: Global, answer: &mut String, text: &str) -> Result<(), AllocError> {
        let mut names = Names::new(alloc, 2);
        push_names(answer, &mut names, text)
    }
}

const NAMES: &str = "\
next => 0
next value => 0 1
next value value => 0 1 Duplicate { first: 1 }
next value key => 0 1 Full { limit: 2 }
next next next value => 0 Duplicate { first: 0 } Duplicate { first: 0 } 1
";

#[test]
fn names_are_numbered_in_order(rt: HostRuntime) -> Result<(), AllocError> {
    assert_lines(&rt, rt.alloc(), &ListOfTwo, NAMES)
}

const LIMITS: &[What1] = &[
    What1::Fields,
    What1::Shared,
    What1::Calls,
    What1::Ghosts,
    What1::Lines,
    What1::Values,
    What1::Ops,
    What1::Locals,
    What1::Labels,
    What1::Prims,
    What1::News,
    What1::Nesting,
    What1::Invariants,
    What1::Items,
    What1::Literals,
    What1::Obligations,
    What1::Clauses,
    What1::Points,
];

// Each limit with its name.
struct NamedLimits;

impl Answers for NamedLimits {
    fn push(&self, _alloc: Global, answer: &mut String, _text: &str) -> Result<(), AllocError> {
        for limit in LIMITS {
            let name = limit.name();
            write!(answer, "{limit:?} {name}, ")?;
        }
        Ok(())
    }
}

#[test]
fn limits_have_names(rt: HostRuntime) -> Result<(), AllocError> {
    let want =
        "Fields fields, Shared shared, Calls calls, Ghosts ghosts, Lines lines, Values values, Ops ops, \
         Locals locals, Labels labels, Prims prims, News news, Nesting nesting, Invariants invariants, Items items, \
         Literals literals, Obligations obligations, Clauses clauses, Points points, ";
    assert_answer(&rt, rt.alloc(), &NamedLimits, "limits", want)
}
