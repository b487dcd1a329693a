// Claims of locations: what is claimed of a file is read, located and proved, or the first of these fails. A row has
// the name of a file, the claims, and the status with the first line of the answer.
use crate::tests::files::{CHANGED, changed, text_of};
use crate::tests::program::answer_over;
use crate::tests::texts::{first_of, halves, text_is};
use std::alloc::{AllocError, Global};

// Under hazard pointers and epochs: at `f` the node at `t` isn't retired, which the outline says and the type of `t`
// doesn't. Where the outline doesn't say so either, the clause that a claim adds makes up for it.
const HELD: &str = "\
hazards =>  => 0 located claims 0 obligations 2845
hazards => // none => 0 located claims 0 obligations 2845
hazards => at f t { u.held } => 0 located claims 1 obligations 2885
hazards => at f t{u . held}// it is held => 0 located claims 1 obligations 2885
hazards => at f t { u.held u.held r.held } at f t { u.held } => 0 located claims 2 obligations 2925
hazards => at d t { u.held r.kept } => 0 located claims 1 obligations 2845
hazards => at e t { r.kept u.idle u.held } => 0 located claims 1 obligations 2845
hazards => at d t { u.held } => 1 unproved own step 24 line 28 clause 8
hazards => at d t { r.kept } => 1 unproved own step 24 line 28 clause 8
hazards => at d s { u.idle u.held } => 1 unproved own step 24 line 28 clause 8
hazards => at f t { r.kept } => 1 unproved own step 26 line 32 clause 9
hazards => at d s { u.held } => 1 unlocated claim 0
hazards => at d s { r.idle r.held r.kept } => 1 unlocated claim 0
hazards => at d t { u.idle } => 1 unlocated claim 0
hazards => at d t { } => 1 unlocated claim 0
hazards => at d t { u.held } at d s { } at d t { } => 1 unlocated claim 1
unsaid =>  => 1 unproved claim step 27 prim 0 line 34
unsaid => at f t { u.held } => 0 located claims 1 obligations 2845
epochs-held => at f t { u.in } => 0 located claims 1 obligations 2596
epochs-held => at d t { r.kept u.in } => 0 located claims 1 obligations 2559
epochs-held => at d t { u.in } => 1 unproved own step 22 line 27 clause 8
epochs-held => at f t { u.held } => 2 refused claim token 6
";

// The first refusal: the file's, that of the claims' bytes, then of their tokens; then the types, the locations and the
// outline.
const ORDER: &str = "\
stray => $ => 2 refused byte at 13
brace => at => 2 refused syntax token 4 line 1
hazards => at f t { $ } => 2 refused byte at 9
hazards => x 01 => 2 refused number at 2
lost => x => 2 refused claim token 0
lost =>  => 1 untyped step 3 prim 0 line 8 deref m
unclaimed => at d s { } => 1 untyped step 24 prim 0 line 28 deref t
weaker => at d s { } => 1 unlocated claim 0
weaker => at f t { u.held } => 1 unproved own step 6 line 15 clause 3
";

// The plain observer has locations without a dot. A label in an operation without pointer locals can't be claimed at;
// where there is no other, no list of claims but the empty one is there.
const PLAIN: &str = "\
never-retired => at c p { u } => 0 located claims 1 obligations 8
never-retired => at c p { r u } => 0 located claims 1 obligations 4
never-retired => at c p { r } => 1 unlocated claim 0
never-retired => at c p { u.held } => 2 refused claim token 5
never-retired => at e p { u } => 2 refused claim token 1
never-retired => at => 2 refused claim token 1
pointerless =>  => 0 located claims 0 obligations 0
pointerless => at l x { } => 2 refused claim token 0
outline =>  => 0 located claims 0 obligations 0
outline => at => 2 refused claim token 0
publish =>  => 0 located claims 0 obligations 0
publish => at => 2 refused claim token 0
protected => at a n { u.held } => 0 located claims 1 obligations 0
protected => at a n { u.idle } => 1 unproved own step 2 line 5 clause 0
";

// Each place at which a list of claims can end to be one, by the token there, or where more would have to follow.
const STOPS: &str = "\
hazards => x => 2 refused claim token 0
hazards => { => 2 refused claim token 0
hazards => at => 2 refused claim token 1
hazards => at x t { } => 2 refused claim token 1
hazards => at pop t { } => 2 refused claim token 1
hazards => at at t { } => 2 refused claim token 1
hazards => at d => 2 refused claim token 2
hazards => at d x { } => 2 refused claim token 2
hazards => at d n { } => 2 refused claim token 2
hazards => at d v { } => 2 refused claim token 2
hazards => at d Top { } => 2 refused claim token 2
hazards => at d, e t { } => 2 refused claim token 2
hazards => at d t => 2 refused claim token 3
hazards => at d t u.held } => 2 refused claim token 3
hazards => at d t { => 2 refused claim token 4
hazards => at d t { d } => 2 refused claim token 4
hazards => at d t { u => 2 refused claim token 5
hazards => at d t { u } => 2 refused claim token 5
hazards => at d t { u. => 2 refused claim token 6
hazards => at d t { u.kept } => 2 refused claim token 6
hazards => at d t { u.held => 2 refused claim token 7
hazards => at d t { u.held . } => 2 refused claim token 7
hazards => at d t { u.held at => 2 refused claim token 7
hazards => at d t { u.held } } => 2 refused claim token 8
hazards => at d t { u.held } at => 2 refused claim token 9
";

// The text of a file that is changed, or of another one.
pub(crate) fn file_text(alloc: Global, name: &str) -> Result<String, AllocError> {
    for (changed_name, base, changes) in CHANGED {
        if *changed_name == name {
            return changed(alloc, *base, *changes);
        }
    }
    text_of(alloc, name)
}

// What is answered to claims for a file.
fn whole_answer(alloc: Global, file: &str, claims: &str) -> Result<String, AllocError> {
    let list = [("file", file.as_bytes()), ("claims", claims.as_bytes())];
    answer_over(alloc, &list, "locate file claims")
}

// The status and the first line of it.
pub(crate) fn answer(alloc: Global, file: &str, claims: &str) -> Result<String, AllocError> {
    let answer = whole_answer(alloc, file, claims)?;
    first_of(alloc, answer.as_str())
}

// The same for a file by its name.
fn answer_for(alloc: Global, name: &str, claims: &str) -> Result<String, AllocError> {
    let file = file_text(alloc, name)?;
    answer(alloc, file.as_str(), claims)
}

#[test]
fn claims_of_locations_have_their_answers(rt: HostRuntime) {
    for rows in [HELD, ORDER, PLAIN, STOPS] {
        for row in rows.lines() {
            let (name, rest) = halves(row, " => ");
            let (claims, want) = halves(rest, " => ");
            text_is(&rt, answer_for(rt.alloc(), name, claims), want, row);
        }
    }
}
