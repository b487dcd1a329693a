// Types of pointers in words. A location says whether the node is retired and how far the thread's protection has come,
// so words are needed for a pair of locations, too: where a node may stand in both, whether it is retired isn't known.
use plc_answers::push;
use plc_auto::{Observer, R_KEPT};
use plc_base::{LocId, Mask};
use plc_type::PtrType;
use std::alloc::AllocError;

/// The words for a node that isn't retired, for one that is, and for one that may be either.
type Pair = [&'static str; 3];

/// Under `plain`.
const PLAIN: Pair = ["not retired", "retired", "maybe retired"];

/// Under hazard pointers: `u.idle` and `r.idle`, `u.pend` and `r.pend`, `u.held` and `r.held`.
const HAZARD: [Pair; 3] = [
    [
        "not retired and not held",
        "retired and not held",
        "maybe retired and not held",
    ],
    [
        "not retired and about to be held",
        "retired and about to be held",
        "maybe retired and about to be held",
    ],
    [
        "held and not retired",
        "held too late (it was retired before)",
        "held but maybe retired before",
    ],
];

/// `r.kept` under hazard pointers.
const HAZARD_KEPT: &str = "kept since it was retired while it was held";

/// Under epochs: `u.out` and `r.out`, `u.coming` and `r.coming`, `u.in` and `r.in`.
const EPOCH: [Pair; 3] = [
    [
        "not retired (thread outside)",
        "retired (thread outside)",
        "maybe retired (thread outside)",
    ],
    [
        "not retired (thread coming in)",
        "retired (thread coming in)",
        "maybe retired (thread coming in)",
    ],
    [
        "not retired (thread inside)",
        "retired before the thread came in",
        "maybe retired before the thread came in",
    ],
];

/// `r.kept` under epochs.
const EPOCH_KEPT: &str = "kept since it was retired while the thread was inside";

/// The locations under `plain`, by their numbers in its table: `u` and `r`.
const PLAIN_AT: [LocId; 2] = [LocId(0), LocId(1)];

/// Where a thread protects nodes, the locations of nodes that aren't retired, in the order of the pairs.
const UNRETIRED_AT: [LocId; 3] = [LocId(0), LocId(1), LocId(2)];

/// The locations of retired nodes, in the same order; `r.kept` is another.
const RETIRED_AT: [LocId; 3] = [LocId(3), LocId(4), LocId(5)];

/// The words of a pair for a node that may stand in these of its locations.
fn chosen(pair: &Pair, unretired: bool, retired: bool) -> Option<&'static str> {
    let [not_retired, only_retired, either] = pair;
    match (unretired, retired) {
        (true, false) => Some(*not_retired),
        (false, true) => Some(*only_retired),
        (true, true) => Some(*either),
        (false, false) => None,
    }
}

/// What is said of a node that may stand in these locations, in order: a phrase for each pair, and one for `r.kept`.
type Phrases = [Option<&'static str>; 4];

/// The phrases under `plain`.
fn plain_phrases(set: Mask) -> Phrases {
    let [u, r] = PLAIN_AT;
    let at = chosen(&PLAIN, set.has(u), set.has(r));
    [at, None, None, None]
}

/// The phrases where a thread protects nodes.
fn protected_phrases(table: &[Pair; 3], kept: &'static str, set: Mask) -> Phrases {
    let [unprotected, asked, granted] = table;
    let [u_none, u_asked, u_granted] = UNRETIRED_AT;
    let [r_none, r_asked, r_granted] = RETIRED_AT;
    [
        chosen(unprotected, set.has(u_none), set.has(r_none)),
        chosen(asked, set.has(u_asked), set.has(r_asked)),
        chosen(granted, set.has(u_granted), set.has(r_granted)),
        if set.has(LocId(R_KEPT)) {
            Some(kept)
        } else {
            None
        },
    ]
}

/// The phrases for a set of locations of an observer.
fn phrases(observer: &Observer, set: Mask) -> Phrases {
    match observer {
        Observer::Plain => plain_phrases(set),
        Observer::Hazard(_) => protected_phrases(&HAZARD, HAZARD_KEPT, set),
        Observer::Epoch(_, _) => protected_phrases(&EPOCH, EPOCH_KEPT, set),
    }
}

/// Phrases as a list: `A`, `A, or B`, `A, B, or C`.
fn push_phrases(out: &mut Vec<u8>, phrases: &[Option<&'static str>]) -> Result<(), AllocError> {
    let mut left = phrases.iter().filter(|p| p.is_some()).count();
    let mut begun = false;
    for phrase in phrases {
        if let Some(words) = phrase {
            left = left.saturating_sub(1);
            if begun {
                push(out, if left == 0 { ", or " } else { ", " })?;
            }
            push(out, words)?;
            begun = true;
        }
    }
    Ok(())
}

/// Where a node may stand.
fn push_locations(out: &mut Vec<u8>, observer: &Observer, set: Mask) -> Result<(), AllocError> {
    push_phrases(out, &phrases(observer, set))
}

/// The type of a pointer that guarantees nothing.
fn push_unknown(out: &mut Vec<u8>, observer: &Observer, set: Mask) -> Result<(), AllocError> {
    if set.bits() == observer.all().bits() {
        return push(out, "nothing is known");
    }
    push(out, "not known to be safe: ")?;
    push_locations(out, observer, set)
}

/// The type of a pointer, as what is known of it:
///
/// - `null`, where it stands in no location;
/// - `nobody else's, not retired`;
/// - `safe: held and not retired, or kept since it was retired while it was held`: it is safe, and where it may stand;
/// - `not known to be safe: ..` and where it may stand, or `nothing is known` where it may stand in every location.
///
/// What is said of a pointer holds where it isn't null. The one error is that memory runs out.
pub fn push_type(out: &mut Vec<u8>, observer: &Observer, t: &PtrType) -> Result<(), AllocError> {
    if t.m.bits() == 0 {
        push(out, "null")
    } else if t.g.is_local() {
        push(out, "nobody else's, not retired")
    } else if t.g.is_safe() {
        push(out, "safe: ")?;
        push_locations(out, observer, t.m)
    } else {
        push_unknown(out, observer, t.m)
    }
}

/// In which of the observer's locations any node may be, as a list: `maybe retired and not held, or held and not
/// retired`. Where there is none, no thread comes to the point. The one error is that memory runs out.
pub fn push_anywhere(out: &mut Vec<u8>, observer: &Observer, w: Mask) -> Result<(), AllocError> {
    if w.bits() == 0 {
        push(out, "no thread comes here")
    } else {
        push_locations(out, observer, w)
    }
}
