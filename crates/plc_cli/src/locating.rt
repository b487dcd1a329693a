// Whether claims of locations are true in every run of a file's program. The claims add to the file's outline what the
// types leave open, so the verdict is that of `check` on another outline; no copy of the file is made for it, and the
// file's own outline is moved out of what was loaded. The first refusal on the way is the answer: the bytes of the
// file, those of the claims, the types, the claims under them, the limits of the longer outline.
ghost use Rattle.std.specs.Prelude.{◌≡◌, ◌<◌, ◌≤◌, ◌^◌, IfOk, All, length};
ghost use Rattle.plc_base.specs.FileSizes.{largest_file};
ghost use Rattle.plc_vocabulary.specs.Fit.{Fits};
ghost use Rattle.plc_at.specs.Claims.{ClaimFits};
ghost use Rattle.plc_check.specs.Strongest.{IsStrongestTyping};
ghost use Rattle.plc_check.specs.Verdicts.{IsVerdictOn};
ghost use Rattle.plc_answers.specs.Claims.{unlocated_text};
ghost use Rattle.plc_answers.specs.Refusals.{limit_text};
ghost use Rattle.plc_answers.specs.Untyped.{untyped_text};
ghost use Rattle.plc_cli.specs.Files.{IsTold};
ghost use Rattle.plc_cli.specs.Locations.{located_verdict_text, IsAnsweredWith, AreClaimsAnswered, IsLocationAnswered};
ghost use Rattle.plc_cli.specs.Statuses.{fails, refused};
ghost use Rattle.plc_cli.specs.Verdicts.{verdict_status};
ghost use Rattle.plc_cli.specs.Views.{AreReadClaims, AreReadTokens, IsExtension};
ghost use Rattle.plc_cli.specs.declared.locating.ReadClaims.TheVariants.{Refused};

use crate::answer::{Answer, refuse};
use crate::asking::PairQuestion;
use crate::checking::{verdict_status, verdict_text};
use crate::status::FAILS;
use plc_answers::{
    FailedCondition, claim_fault_text, lex_fault_text, limit_text, located_text, unlocated_text,
    untyped_text,
};
use plc_at::{AtFault, ClaimFault, LocationClaim, extend, read_claims};
use plc_base::{Items, NoMemory, What1};
use plc_check::{Judged, OutlineFault, Typed, Verdict, check, strongest_typing, with_outline};
use plc_lex::{LexFault, Token, tokens};
use plc_logic::Outline;
use plc_type::Env;
use std::alloc::{AllocError, Global};
use std::mem;

/// The text of a verdict: one line where the claims are true.
fn located_verdict_text(
    alloc: Global,
    judged: &Judged,
    claims: &[LocationClaim],
    verdict: &Verdict,
) -> Result<Vec<u8>, AllocError>
    ensures { IfOk result (λ text. text.items ≡ located_verdict_text judged.now claims.now verdict.now) }
{
    match verdict {
        Verdict::Safe { obligations, .. } => located_text(alloc, claims.len() as u64, *obligations),
        Verdict::Untyped { .. } | Verdict::Unproved { .. } => verdict_text(alloc, judged, verdict),
    }
}

/// The answer that says a verdict.
fn located_answer(
    alloc: Global,
    judged: &Judged,
    claims: &[LocationClaim],
    verdict: &Verdict,
) -> Result<Answer, NoMemory>
    ensures { IfOk result (λ answer. (answer.status ≡ verdict_status verdict.now)
        × (answer.text.items ≡ located_verdict_text judged.now claims.now verdict.now)) }
{
    Ok(Answer {
        status: verdict_status(verdict),
        text: located_verdict_text(alloc, judged, claims, verdict)?,
    })
}

/// The answer to claims for what is lent, by the verdict on it.
fn verdict_on_claims(
    alloc: Global,
    judged: &Judged,
    claims: &[LocationClaim],
) -> Result<Answer, NoMemory>
    requires { Fits judged.now.flow judged.now.unit_outline }
    ensures { IfOk result (λ answer. IsTold (IsVerdictOn judged.now) verdict_status
        (located_verdict_text judged.now claims.now) answer.status answer.text.items) }
{
    let verdict = check(alloc, judged)?;
    let answer = located_answer(alloc, judged, claims, &verdict);
    drop(verdict);
    answer
}

/// The answer to claims for a file with an outline that says what they need.
fn judge_claims(alloc: Global, judged: Judged, claims: &[LocationClaim]) -> Result<Answer, NoMemory>
    requires { Fits judged.flow judged.unit_outline }
    ensures { IfOk result (λ answer. IsTold (IsVerdictOn judged) verdict_status
        (located_verdict_text judged claims.now) answer.status answer.text.items) }
{
    let answer = verdict_on_claims(alloc, &judged, claims);
    drop(judged);
    answer
}

/// The answer where a limit is passed.
fn limit_answer(alloc: Global, what: What1, count: u32) -> Result<Answer, NoMemory>
    ensures { IfOk result (λ answer. (answer.status ≡ refused) × (answer.text.items ≡ limit_text what count)) }
{
    Ok(refuse(limit_text(alloc, what, count)?))
}

/// The answer where a claim isn't located.
fn unlocated_answer(alloc: Global, claim: u32) -> Result<Answer, NoMemory>
    ensures { IfOk result (λ answer. (answer.status ≡ fails) × (answer.text.items ≡ unlocated_text claim)) }
{
    Ok(Answer {
        status: FAILS,
        text: unlocated_text(alloc, claim)?,
    })
}

/// The answer to claims by an outline that says what they need, in the place of the one that is judged.
fn answer_with(
    alloc: Global,
    judged: Judged,
    outline: Outline,
    claims: &[LocationClaim],
) -> Result<Answer, NoMemory>
    requires { Fits judged.flow outline }
    ensures { IfOk result (λ answer.
        IsAnsweredWith judged outline claims.now answer.status answer.text.items) }
{
    match with_outline(judged, outline) {
        Ok(judged) => judge_claims(alloc, judged, claims),
        Err(OutlineFault::Limit { what, count }) => limit_answer(alloc, what, count),
    }
}

/// An outline that says nothing.
fn no_outline(alloc: Global) -> Outline {
    Outline {
        depth: 0,
        invariants: Items::new(alloc),
        items: Items::new(alloc),
    }
}

/// The answer to a file that has no typing.
fn untyped_answer(
    alloc: Global,
    judged: &Judged,
    failed: FailedCondition,
) -> Result<Answer, NoMemory>
    ensures { IfOk result (λ answer. (answer.status ≡ fails)
        × (answer.text.items ≡ untyped_text judged.now.flow failed.step.0 failed.prim failed.fault)) }
{
    Ok(Answer {
        status: FAILS,
        text: untyped_text(alloc, &judged.flow, failed)?,
    })
}

/// What bytes come to before a verdict.
#[derive(Drop)]
enum Extension {
    /// The claims that they spell, and the outline that says what these need.
    Extended {
        claims: Items<LocationClaim>,
        outline: Outline,
    },
    /// The answer where there is no such outline.
    Answered(Answer),
}

/// What claims come to under the strongest typing. What is judged has no outline of its own then.
fn extension_under(
    alloc: Global,
    judged: &mut Judged,
    claims: Items<LocationClaim>,
    typing: &[Env],
) -> Result<Extension, NoMemory>
    requires fits { Fits judged.old.flow judged.old.unit_outline }
    requires claims { All (ClaimFits judged.old.flow) claims }
    requires typing { IsStrongestTyping judged.old typing.now }
    ensures { IfOk result (IsExtension (AreClaimsAnswered judged.old claims) judged.new) }
{
    let own = mem::replace(&mut judged.unit_outline, no_outline(alloc));
    match extend(
        alloc,
        claims.as_slice(),
        &judged.flow,
        &judged.observer,
        typing,
        own,
    ) {
        Ok(outline) => Ok(Extension::Extended { claims, outline }),
        Err(AtFault::Unlocated { claim }) => {
            Ok(Extension::Answered(unlocated_answer(alloc, claim)?))
        }
        Err(AtFault::Items { count }) => {
            Ok(Extension::Answered(limit_answer(alloc, What1::Items, count)?))
        }
        Err(AtFault::Memory) => Err(NoMemory),
    }
}

/// What claims that were read come to.
fn extension_by(
    alloc: Global,
    judged: &mut Judged,
    claims: Items<LocationClaim>,
) -> Result<Extension, NoMemory>
    requires fits { Fits judged.old.flow judged.old.unit_outline }
    requires claims { All (ClaimFits judged.old.flow) claims }
    ensures { IfOk result (IsExtension (AreClaimsAnswered judged.old claims) judged.new) }
{
    match strongest_typing(alloc, judged)? {
        Typed::Typing(typing) => extension_under(alloc, judged, claims, typing.env.as_slice()),
        Typed::Untyped { step, prim, fault } => {
            let failed = FailedCondition { step, prim, fault };
            Ok(Extension::Answered(untyped_answer(alloc, judged, failed)?))
        }
    }
}

/// What bytes are read as: claims, or the answer where they spell none.
#[derive(Drop)]
enum ReadClaims {
    /// The claims that they spell.
    Claims(Items<LocationClaim>),
    /// The answer to bytes that spell none.
    Refused(Answer),
}

/// The answer to bytes that spell no claims.
fn refuse_claims(text: Vec<u8>) -> ReadClaims
    ensures { result ≡ Refused (record { status = refused; text = text }) }
{
    ReadClaims::Refused(refuse(text))
}

/// The claims that tokens spell.
fn claims_in(alloc: Global, judged: &Judged, found: &[Token]) -> Result<ReadClaims, NoMemory>
    requires fits { Fits judged.now.flow judged.now.unit_outline }
    requires few { length found.now < 2 ^ 32 }
    ensures { IfOk result (AreReadTokens judged.now found.now) }
{
    match read_claims(alloc, found, &judged.flow, &judged.observer) {
        Ok(claims) => Ok(ReadClaims::Claims(Items::from_vec(claims))),
        Err(ClaimFault::Token { at }) => Ok(refuse_claims(claim_fault_text(alloc, at)?)),
        Err(ClaimFault::Memory) => Err(NoMemory),
    }
}

/// The claims that bytes spell.
fn claims_of(alloc: Global, judged: &Judged, bytes: &[u8]) -> Result<ReadClaims, NoMemory>
    requires fits { Fits judged.now.flow judged.now.unit_outline }
    requires short { length bytes.now ≤ largest_file }
    ensures { IfOk result (AreReadClaims judged.now bytes.now) }
{
    match tokens(alloc, bytes) {
        Ok(found) => claims_in(alloc, judged, &found),
        Err(LexFault::Memory) => Err(NoMemory),
        Err(fault) => Ok(refuse_claims(lex_fault_text(alloc, fault)?)),
    }
}

/// What bytes come to for a file.
fn extension_of(alloc: Global, judged: &mut Judged, bytes: &[u8]) -> Result<Extension, NoMemory>
    requires fits { Fits judged.old.flow judged.old.unit_outline }
    requires short { length bytes.now ≤ largest_file }
    ensures { IfOk result (IsExtension (IsLocationAnswered judged.old bytes.now) judged.new) }
{
    match claims_of(alloc, judged, bytes)? {
        ReadClaims::Claims(claims) => extension_by(alloc, judged, claims),
        ReadClaims::Refused(answer) => Ok(Extension::Answered(answer)),
    }
}

/// The question whether the bytes of a second file are claims that are true for a file.
pub(crate) struct ForLocations;

impl PairQuestion for ForLocations {
    ghost limit = { λ _. largest_file };

    ghost due = { λ _ judged second. IsLocationAnswered judged second };

    fn answer(&self, alloc: Global, mut judged: Judged, second: &[u8]) -> Result<Answer, NoMemory> {
        match extension_of(alloc, &mut judged, second) {
            Ok(Extension::Extended { claims, outline }) => {
                answer_with(alloc, judged, outline, claims.as_slice())
            }
            Ok(Extension::Answered(answer)) => {
                drop(judged);
                Ok(answer)
            }
            Err(NoMemory) => {
                drop(judged);
                Err(NoMemory)
            }
        }
    }
}
