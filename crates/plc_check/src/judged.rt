// What is judged: the flow of a file with its outline, its observer and its schemes, and why bytes give none.
// That memory ran out in a lower call is always told as `Memory`, and never wrapped in another fault.
ghost use Rattle.plc_check.specs.declared.judged.LoadFault.TheVariants.{Memory};

use plc_auto::{Observer, Scheme};
use plc_base::{Items, What1};
use plc_flow::Flow;
use plc_lex::{LexFault, Token};
use plc_logic::Outline;
use plc_scope::ParseFault;

/// A file that was read and lowered.
#[derive(Drop)]
pub struct Judged {
    /// What is said of the nodes, which fits the file.
    pub unit_outline: Outline,
    /// What says when the reclaimer may free.
    pub observer: Observer,
    /// What the reclaimer is told: one scheme where the file uses hazard pointers or epochs, else none.
    pub schemes: Items<Scheme>,
    /// The file and its control flow.
    pub flow: Flow,
}

/// A file that was loaded, with the tokens that its bytes spell.
#[derive(Drop)]
pub struct Loaded {
    /// What is judged of the file.
    pub judged: Judged,
    /// Its tokens, for whoever shows where something stands in it.
    pub tokens: Items<Token>,
}

/// Why bytes are refused.
#[derive(Debug, Drop)]
pub enum LoadFault {
    /// The bytes spell no tokens.
    Lex(LexFault),
    /// The tokens spell no unit: a fault at a place, with the line of the token there, or of the end
    /// where the place is after the last token. It is neither `Limit` nor `Memory`.
    Parse { fault: ParseFault, line: u32 },
    /// A limit on what a file may hold is passed: by the tokens, or else by the points of the flow, by the
    /// obligations of the outline or by the clauses of a ground set; the count is the limit plus one.
    Limit { what: What1, count: u32 },
    /// Memory ran out.
    Memory,
}
