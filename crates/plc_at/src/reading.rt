// Claims are read token by token. What is due next says all that is needed of what stands before, so the first token
// that isn't due is the place of the fault: before it claims could still follow, and with it none can. No token is
// looked at twice, and nothing is taken back.
ghost use Rattle.std.specs.Prelude.{◌≡◌, ◌≢◌, ◌↔◌, ◌<◌, ◌^◌, ◌++◌, ℕ, List, All, Option, Err, length};
ghost use Rattle.std.specs.Prelude.{IfOk, OnOk, IfSome, IfNone, IsTrue};
ghost use Rattle.plc_lang.specs.Fit.{FileFits};
ghost use Rattle.plc_lex.specs.declared.token.TokenKind.{TokenKind as AKind};
ghost use Rattle.plc_lex.specs.declared.token.TokenKind.TheVariants as kinds_are;
ghost use Rattle.plc_syntax.specs.Syntax.{kinds};
ghost use Rattle.plc_flow.specs.declared.flow.Flow.{Flow as AFlow};
ghost use Rattle.plc_auto.specs.declared.observer.Observer.{Observer as AnObserver};
ghost use Rattle.plc_auto.specs.Table.{count_of};
ghost use Rattle.plc_at.specs.declared.claim.LocationClaim.{LocationClaim as AClaim};
ghost use Rattle.plc_at.specs.declared.fault.ClaimFault.TheVariants as claim;
ghost use Rattle.plc_at.specs.declared.reading.Due.TheVariants as due;
ghost use Rattle.plc_at.specs.Claims.{SpellClaims, ClaimsStopAt, ClaimFits};
ghost use Rattle.plc_at.specs.Reading.{AreOps, HasSecondPart, with_location, DueFits, ended, IsStep, IsClaim};

use crate::claim::LocationClaim;
use crate::fault::ClaimFault;
use crate::names::{
    first_part, has_pointers, has_second_part, label_named, location_of_parts, location_with,
    ops_of_labels, pointer_named,
};
use plc_auto::Observer;
use plc_base::{LocId, Mask, NoMemory};
use plc_flow::Flow;
use plc_lang::label_name;
use plc_lex::{Keyword, Symbol, Token, TokenKind};
use std::alloc::Global;

/// What is due next, with what was read of the claim that hasn't ended.
#[derive(Clone, Copy)]
enum Due {
    /// A claim, or the end. The last claim has just ended.
    Claim(Option<LocationClaim>),
    /// A label's name, after `at`.
    Label,
    /// The name of a pointer local, after the name of this label.
    Local(u16),
    /// The opening brace of this claim.
    Opening(LocationClaim),
    /// The name of a location, or the closing brace.
    Location(LocationClaim),
    /// The dot in a location's name, after its first part; the number is that of a location with this first part.
    Dot(LocationClaim, u16),
    /// The second part of it, after the dot.
    Part(LocationClaim, u16),
}

/// Whether a token is this word.
fn is_word(kind: &TokenKind, word: Keyword) -> bool
    ensures { IsTrue result ↔ kind.now ≡ kinds_are.Word word }
{
    match kind {
        TokenKind::Word(found) => *found == word,
        _ => false,
    }
}

/// Whether a token is this symbol.
fn is_symbol(kind: &TokenKind, symbol: Symbol) -> bool
    ensures { IsTrue result ↔ kind.now ≡ kinds_are.Symbol symbol }
{
    match kind {
        TokenKind::Symbol(found) => *found == symbol,
        _ => false,
    }
}

/// The name that a token is, if it is one.
fn name_of(kind: &TokenKind) -> Option<&[u8]>
    ensures some { IfSome result (λ name. kind.now ≡ kinds_are.Name name.now) }
    ensures none { IfNone result ((name : List ℕ) → kind.now ≢ kinds_are.Name name) }
{
    match kind {
        TokenKind::Name(name) => Some(name.as_slice()),
        _ => None,
    }
}

/// After whole claims.
fn after_claims(flow: &Flow, ops: &[Option<usize>], kind: &TokenKind) -> Option<Due>
    requires file { FileFits flow.now.file }
    requires ops { AreOps flow.now ops.now }
    ensures { (observer : AnObserver) (last : Option AClaim)
        → IsStep flow.now observer (due.Claim last) kind.now result }
{
    if is_word(kind, Keyword::At) && has_pointers(flow, ops) {
        Some(Due::Label)
    } else {
        None
    }
}

/// After `at`.
fn after_at(flow: &Flow, ops: &[Option<usize>], kind: &TokenKind) -> Option<Due>
    requires file { FileFits flow.now.file }
    requires ops { AreOps flow.now ops.now }
    ensures { (observer : AnObserver) → IsStep flow.now observer due.Label kind.now result }
{
    let name = name_of(kind)?;
    let label = label_named(flow, ops, name)?;
    Some(Due::Local(label))
}

/// After the name of a label.
fn after_label(flow: &Flow, ops: &[Option<usize>], label: u16, kind: &TokenKind) -> Option<Due>
    requires file { FileFits flow.now.file }
    requires ops { AreOps flow.now ops.now }
    ensures { (observer : AnObserver) → IsStep flow.now observer (due.Local label) kind.now result }
{
    let name = name_of(kind)?;
    let (label, local) = pointer_named(flow, ops, label_name(&flow.file, label), name)?;
    let set = Mask::empty();
    Some(Due::Opening(LocationClaim { label, local, set }))
}

/// After the name of a local.
fn after_local(claim: LocationClaim, kind: &TokenKind) -> Option<Due>
    ensures { (flow : AFlow) (observer : AnObserver) → ClaimFits flow claim
        → IsStep flow observer (due.Opening claim) kind.now result }
{
    if is_symbol(kind, Symbol::OpenBrace) {
        Some(Due::Location(claim))
    } else {
        None
    }
}

/// The claim with one more location.
fn with_location(claim: LocationClaim, location: u16) -> LocationClaim
    requires { location < 8 }
    ensures { result ≡ with_location claim location }
{
    let mut set = claim.set;
    set.insert(LocId(location));
    LocationClaim {
        label: claim.label,
        local: claim.local,
        set,
    }
}

/// After the name of a location or the first part of one, within braces.
fn after_first_part(observer: &Observer, claim: LocationClaim, name: &[u8]) -> Option<Due>
    ensures { (flow : AFlow) → ClaimFits flow claim
        → IsStep flow observer.now (due.Location claim) (kinds_are.Name name.now) result }
{
    let location = location_with(observer, name)?;
    if has_second_part(observer, location) {
        return Some(Due::Dot(claim, location));
    }
    Some(Due::Location(with_location(claim, location)))
}

/// Within braces, after whole names of locations.
fn within_braces(observer: &Observer, claim: LocationClaim, kind: &TokenKind) -> Option<Due>
    ensures { (flow : AFlow) → ClaimFits flow claim
        → IsStep flow observer.now (due.Location claim) kind.now result }
{
    if is_symbol(kind, Symbol::CloseBrace) {
        return Some(Due::Claim(Some(claim)));
    }
    let name = name_of(kind)?;
    after_first_part(observer, claim, name)
}

/// After the first part of a location's name.
fn before_dot(claim: LocationClaim, location: u16, kind: &TokenKind) -> Option<Due>
    ensures { (flow : AFlow) (observer : AnObserver) → ClaimFits flow claim → HasSecondPart observer location
        → IsStep flow observer (due.Dot claim location) kind.now result }
{
    if is_symbol(kind, Symbol::Dot) {
        Some(Due::Part(claim, location))
    } else {
        None
    }
}

/// After the dot.
fn after_dot(
    observer: &Observer,
    claim: LocationClaim,
    location: u16,
    kind: &TokenKind,
) -> Option<Due>
    requires { location < count_of observer.now }
    ensures { (flow : AFlow) → ClaimFits flow claim
        → IsStep flow observer.now (due.Part claim location) kind.now result }
{
    let name = name_of(kind)?;
    let found = location_of_parts(observer, first_part(observer, location), name)?;
    Some(Due::Location(with_location(claim, found)))
}

/// What is due after a token, `None` where the token isn't due.
fn step(
    flow: &Flow,
    ops: &[Option<usize>],
    observer: &Observer,
    due: Due,
    kind: &TokenKind,
) -> Option<Due>
    requires file { FileFits flow.now.file }
    requires ops { AreOps flow.now ops.now }
    requires due { DueFits flow.now observer.now due }
    ensures { IsStep flow.now observer.now due kind.now result }
{
    match due {
        Due::Claim(_) => after_claims(flow, ops, kind),
        Due::Label => after_at(flow, ops, kind),
        Due::Local(label) => after_label(flow, ops, label, kind),
        Due::Opening(claim) => after_local(claim, kind),
        Due::Location(claim) => within_braces(observer, claim, kind),
        Due::Dot(claim, location) => before_dot(claim, location, kind),
        Due::Part(claim, location) => after_dot(observer, claim, location, kind),
    }
}

/// Notes the claim that has just ended, if one has.
fn note(claims: &mut Vec<LocationClaim>, due: Due) -> Result<(), NoMemory>
    ensures { OnOk result (claims.new.items ≡ claims.old.items ++ ended due) }
{
    if let Due::Claim(Some(claim)) = due {
        claims.push(claim)?;
    }
    Ok(())
}

/// Whether a claim is due, so that the tokens may end.
fn is_claim(due: Due) -> bool
    ensures { IsTrue result ↔ IsClaim due }
{
    match due {
        Due::Claim(_) => true,
        _ => false,
    }
}

/// The claims that tokens spell for a file, in their order:
///
/// ```text
/// { "at" LABEL VAR "{" { NAME [ "." NAME ] }* "}" }*
/// ```
///
/// LABEL is the name of a label, VAR that of a pointer local of the label's operation, and within the braces stand
/// names of locations of the file's observer, as `r.kept` or `u`. Where several labels have a name, the first one is
/// taken whose operation has a pointer local of the name that follows, and where several locals have that, the first of
/// them. A location that is named twice counts once. Where there are no tokens, there are no claims.
///
/// It fails with `Token` where the tokens spell no claims, with the place of the first token that no list of claims has
/// there, after the tokens before it, or with the number of tokens where a claim hasn't ended; and with `Memory` where
/// memory runs out.
pub fn read_claims(
    alloc: Global,
    tokens: &[Token],
    flow: &Flow,
    observer: &Observer,
) -> Result<Vec<LocationClaim>, ClaimFault>
    requires file { FileFits flow.now.file }
    requires tokens { length tokens.now < 2 ^ 32 }
    ensures spelled { IfOk result (λ claims. SpellClaims flow.now observer.now (kinds tokens.now) claims.items) }
    ensures fits { IfOk result (λ claims. All (ClaimFits flow.now) claims.items) }
    ensures stops { (at : ℕ) → result ≡ Err (claim.Token at)
        → ClaimsStopAt flow.now observer.now (kinds tokens.now) at }
{
    let ops = ops_of_labels(alloc, flow)?;
    let mut claims = Vec::new(alloc);
    let mut due = Due::Claim(None);
    for (at, token) in tokens.iter().enumerate() {
        let Some(next) = step(flow, &ops, observer, due, &token.kind) else {
            return Err(ClaimFault::Token { at: at as u32 });
        };
        due = next;
        note(&mut claims, next)?;
    }
    if !is_claim(due) {
        return Err(ClaimFault::Token {
            at: tokens.len() as u32,
        });
    }
    Ok(claims)
}

/// Tokens stop being claims at one place, and tokens that stop at one spell no claims.
pub fn claim_faults_are_one()
    ensures one { (flow : AFlow) (observer : AnObserver) (ts : List AKind) (a b : ℕ)
        → ClaimsStopAt flow observer ts a → ClaimsStopAt flow observer ts b → a ≡ b }
    ensures none { (flow : AFlow) (observer : AnObserver) (ts : List AKind) (a : ℕ) (claims : List AClaim)
        → ClaimsStopAt flow observer ts a → SpellClaims flow observer ts claims → ⊥ }
{}
