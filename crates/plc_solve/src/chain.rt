// Why two terms are equal. Each join of the branch, by an equation of it or by a map, is an edge between the two terms
// that it joined. The edges are a forest: there is one way at most between two terms. The forest grows and is cut with
// the branch. It is trusted in nothing: where equations of the branch alone lead from the one term to the other,
// `walk_back` looks at each; where a map joined two terms on the way, the ways between their arguments count as well,
// and the literals that are found so are only proposed (`explain.rt` tests them).
ghost use Rattle.std.specs.Prelude.{◌≡◌, IfSome, All, Ok, true};
ghost use Rattle.plc_ground.specs.Fit.{LitFits};
ghost use Rattle.plc_solve.specs.Search.{Explains, IsWithin, Leads};

use plc_ground::{Change, GroundSet, GroundTerm, Lit};
use std::alloc::{AllocError, Global};

/// Two terms.
#[derive(Clone, Copy)]
pub(crate) struct Pair {
    pub a: u32,
    pub b: u32,
}

/// What a root has in place of an edge, and an edge in place of an equation.
const NOWHERE: usize = usize::MAX;

/// Two terms that were joined.
#[derive(Clone, Copy)]
struct Edge {
    left: u32,
    right: u32,
    /// The place in the branch of the equation that was put then.
    place: usize,
    /// Whether a map joined the two: they are applications of it to terms that are equal.
    by_map: bool,
    /// The question for which it was gone along last.
    asked: u32,
}

/// The joins of the branch, as a forest between terms.
#[derive(Drop)]
pub(crate) struct Forest {
    /// For each term the edge that leads on to its root.
    on: Vec<usize>,
    /// The edges, the newest last.
    edges: Vec<Edge>,
    /// The number of the last question.
    question: u32,
    /// The pairs between which the way is still to be gone.
    todo: Vec<Pair>,
    /// The places in the branch of what was proposed last.
    pub places: Vec<usize>,
    /// Literals that explain why two terms are equal: those that were found last.
    pub way: Vec<Lit>,
}

impl Forest {
    /// The forest of a branch without literals.
    pub(crate) fn new(alloc: Global, set: &GroundSet) -> Result<Forest, AllocError> {
        Ok(Forest {
            on: vec![in alloc; NOWHERE; set.terms.len()]?,
            edges: Vec::new(alloc),
            question: 0,
            todo: Vec::new(alloc),
            places: Vec::new(alloc),
            way: Vec::new(alloc),
        })
    }
}

/// The edge that leads on from a term.
fn step_at(on: &[usize], at: u32) -> usize {
    let at = at as usize;
    if at < on.len() { on[at] } else { NOWHERE }
}

/// Writes the edge that leads on from a term.
fn set_step(on: &mut [usize], at: u32, k: usize) {
    let at = at as usize;
    if at < on.len() {
        on[at] = k;
    }
}

/// The other side of an equation.
fn other_side(l: Lit, at: u32) -> Option<u32>
    ensures { IfSome result (Leads l at) }
{
    if !l.equal {
        return None;
    }
    if l.left == at {
        return Some(l.right);
    }
    if l.right == at {
        return Some(l.left);
    }
    None
}

/// The other end of an edge.
fn across(edge: Edge, at: u32) -> u32 {
    if edge.left == at {
        edge.right
    } else {
        edge.left
    }
}

/// Where an edge leads from a term.
fn led_to(edges: &[Edge], k: usize, at: u32) -> Option<u32> {
    if k < edges.len() {
        return Some(across(edges[k], at));
    }
    None
}

/// Lets an edge lead on from a term, and turns the way from there to its root round.
fn turn(edges: &[Edge], on: &mut [usize], first: u32, edge: usize) {
    let (mut at, mut new) = (first, edge);
    for _ in 0..edges.len() {
        let old = step_at(on, at);
        set_step(on, at, new);
        let Some(next) = led_to(edges, old, at) else {
            return;
        };
        at = next;
        new = old;
    }
    set_step(on, at, new);
}

/// Adds an edge to the forest.
fn add_edge(forest: &mut Forest, edge: Edge) -> Result<(), AllocError> {
    let k = forest.edges.len();
    forest.edges.push(edge)?;
    turn(&forest.edges, &mut forest.on, edge.left, k);
    Ok(())
}

/// Whether a change of the table is of the same join as the change before it.
fn goes_on(trail: &[Change], k: usize) -> bool {
    if k == 0 || k >= trail.len() {
        return false;
    }
    trail[k - 1].left == trail[k].left && trail[k - 1].right == trail[k].right
}

/// The forest after one more equation, which stands at a place of the branch. The trail is the table's, and had a
/// length before.
pub(crate) fn grow(
    forest: &mut Forest,
    trail: &[Change],
    before: usize,
    place: usize,
) -> Result<(), AllocError> {
    for k in before..trail.len() {
        if k == before || !goes_on(trail, k) {
            let edge = Edge {
                left: trail[k].left,
                right: trail[k].right,
                place,
                by_map: k != before,
                asked: 0,
            };
            add_edge(forest, edge)?;
        }
    }
    Ok(())
}

/// Takes the newest edge out, where its equation stands at this place of the branch or after it.
fn pop_from(edges: &mut Vec<Edge>, stay: usize) -> Option<Edge> {
    let count = edges.len();
    if count == 0 || edges[count - 1].place < stay {
        return None;
    }
    edges.pop()
}

/// Makes a root of a term from which an edge leads on.
fn cut_at(on: &mut [usize], at: u32, k: usize) {
    if step_at(on, at) == k {
        set_step(on, at, NOWHERE);
    }
}

/// The forest of the first literals of the branch, so many as stay.
pub(crate) fn cut(forest: &mut Forest, stay: usize) {
    for _ in 0..forest.edges.len() {
        let Some(edge) = pop_from(&mut forest.edges, stay) else {
            return;
        };
        let k = forest.edges.len();
        cut_at(&mut forest.on, edge.left, k);
        cut_at(&mut forest.on, edge.right, k);
    }
}

/// The place in the branch of the equation that leads on from a term: nowhere at a root, or where a map leads on.
fn place_at(edges: &[Edge], on: &[usize], at: u32) -> usize {
    let k = step_at(on, at);
    if k < edges.len() && !edges[k].by_map {
        return edges[k].place;
    }
    NOWHERE
}

/// Goes from the second term back to the first, the root, and notes the equations on the way. False where
/// it doesn't come there by equations alone.
fn walk_back(
    set: &GroundSet,
    branch: &[Lit],
    edges: &[Edge],
    on: &[usize],
    pair: Pair,
    way: &mut Vec<Lit>,
) -> Result<bool, AllocError>
    requires fit { All (LitFits set.now) branch.now }
    requires none { IsWithin way.old.items branch.now }
    ensures { result ≡ Ok true → Explains set.now branch.now pair.a pair.b way.new.items }
{
    let _set = set; // of which the contract alone speaks
    let mut at = pair.b;
    for _ in 0..branch.len() {
        let k = place_at(edges, on, at);
        if at == pair.a || k >= branch.len() {
            return Ok(at == pair.a);
        }
        let Some(next) = other_side(branch[k], at) else {
            return Ok(false);
        };
        way.push(branch[k])?;
        at = next;
    }
    Ok(at == pair.a)
}

/// Finds the equations that lead from the one term to the other. False where none do.
pub(crate) fn chain(
    set: &GroundSet,
    branch: &[Lit],
    forest: &mut Forest,
    pair: Pair,
) -> Result<bool, AllocError>
    requires fit { All (LitFits set.now) branch.now }
    ensures { result ≡ Ok true → Explains set.now branch.now pair.a pair.b forest.new.way.items }
{
    turn(&forest.edges, &mut forest.on, pair.a, NOWHERE);
    forest.way.truncate(0);
    walk_back(
        set,
        branch,
        &forest.edges,
        &forest.on,
        pair,
        &mut forest.way,
    )
}

/// The argument of an application.
fn argument(set: &GroundSet, at: u32) -> u32 {
    match set.terms.as_slice().get(at as usize) {
        Some(GroundTerm::App { arg, .. }) => *arg,
        _ => at,
    }
}

/// Notes what an edge rests on: the place of its equation, or that the arguments are equal.
fn note_reason(set: &GroundSet, forest: &mut Forest, edge: Edge) -> Result<(), AllocError> {
    if edge.by_map {
        let (a, b) = (argument(set, edge.left), argument(set, edge.right));
        forest.todo.push(Pair { a, b })?;
        return Ok(());
    }
    forest.places.push(edge.place)?;
    Ok(())
}

/// Goes along the edge that leads on from a term, and notes what it rests on, once for a question.
fn go_along(set: &GroundSet, forest: &mut Forest, at: u32) -> Result<Option<u32>, AllocError> {
    let k = step_at(&forest.on, at);
    if k >= forest.edges.len() {
        return Ok(None);
    }
    let edge = forest.edges[k];
    if edge.asked != forest.question {
        forest.edges[k].asked = forest.question;
        note_reason(set, forest, edge)?;
    }
    Ok(Some(across(edge, at)))
}

/// Goes from the second term back to the first, the root, and notes what the edges on the way rest on.
fn go_back(set: &GroundSet, forest: &mut Forest, pair: Pair) -> Result<(), AllocError> {
    let mut at = pair.b;
    for _ in 0..forest.edges.len() {
        if at == pair.a {
            return Ok(());
        }
        let Some(next) = go_along(set, forest, at)? else {
            return Ok(());
        };
        at = next;
    }
    Ok(())
}

/// Proposes the places of equations that make two terms equal: those on the way between them, and on the ways between
/// the arguments wherever a map joined two terms on such a way.
pub(crate) fn propose(set: &GroundSet, forest: &mut Forest, pair: Pair) -> Result<(), AllocError> {
    forest.places.truncate(0);
    forest.todo.truncate(0);
    forest.question = forest.question.wrapping_add(1);
    forest.todo.push(pair)?;
    for _ in 0..forest.edges.len() + 1 {
        let Some(next) = forest.todo.pop() else {
            return Ok(());
        };
        turn(&forest.edges, &mut forest.on, next.a, NOWHERE);
        go_back(set, forest, next)?;
    }
    Ok(())
}
