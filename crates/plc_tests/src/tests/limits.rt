// The limits: what has as many parts as there may be is judged, and what has one more is refused with that count.
// `check` is asked for all, each command that reads files for those that are tested after the parse. The texts are made
// here, part by part.
use crate::tests::files::files_of;
use crate::tests::program::{Part, answers_are};
use std::alloc::{AllocError, Global};
use std::process::Abort;

// The words of commands over the file `made`; how many parts that has, what stands before them, a part, in which `$`
// is its number, and what stands after them; then the status and the first line of each answer to so many parts, and
// of each answer to one more.
const PARTS: &str = "\
# check made|64|struct |N| { }
|0 safe points 0 steps 0 locations 2 obligations 0|2 refused name at 7
# check made|8|struct N { |ptr a$; |}
|0 safe points 0 steps 0 locations 2 obligations 0|2 refused limit fields 9
# check made|16|struct N { } |shared a$; |
|0 safe points 0 steps 0 locations 2 obligations 0|2 refused limit shared 17
# check made|16|struct N { } |call a$(); |
|0 safe points 0 steps 0 locations 2 obligations 0|2 refused limit calls 17
# check made|4|struct N { } |ghost a$ thread; |
|0 safe points 0 steps 0 locations 2 obligations 0|2 refused limit ghosts 5
# check made|15|struct N { } ghost g { v|, a$| };
|0 safe points 0 steps 0 locations 2 obligations 0|2 refused limit values 17
# check made|32|struct N { } |op a$() { } |
|0 safe points 64 steps 32 locations 2 obligations 0|2 refused limit ops 33
# check made|32|struct N { } op f() { |data a$; |}
|0 safe points 2 steps 1 locations 2 obligations 0|2 refused limit locals 33
# check made|31|struct N { } op f(v|, a$|) { }
|0 safe points 2 steps 1 locations 2 obligations 0|2 refused limit locals 33
# check made|31|struct N { } op f(v) { |ptr a$; |}
|0 safe points 2 steps 1 locations 2 obligations 0|2 refused limit locals 33
# check made|256|struct N { } op f() { |label a$; |}
|0 at a0 W {u r}|2 refused limit labels 257
# check made|255|struct N { } call e(); op f() { e() during l; |label a$; |}
|0 at l W {u r}|2 refused limit labels 257
# check made|64|struct N { } op f() { data x; atomic { |x := $; skip; |} }
|0 safe points 3 steps 2 locations 2 obligations 0|2 refused limit prims 65
# check made|64|struct N { data d; } shared T; init { |T.d := $; |}
|0 safe points 0 steps 0 locations 2 obligations 0|2 refused limit prims 65
# check made|1|struct N { } op f() { ptr n; atomic { |n := new; |} }
|0 safe points 3 steps 2 locations 2 obligations 0|2 refused limit news 2
# check made|1|struct N { } shared T; init { |T := new; |}
|0 safe points 0 steps 0 locations 2 obligations 0|2 refused limit news 2
# check made|64|struct N { } op f() { |loop { |
} } } } } } } } } } } } } } } } } } } } } } } } } } } } } } } }
} } } } } } } } } } } } } } } } } } } } } } } } } } } } } } } } }
|0 safe points 130 steps 129 locations 2 obligations 0|2 refused limit nesting 65
# check made|64|struct N { } outline { |inv null == null; |}
|0 safe points 0 steps 0 locations 2 obligations 64|2 refused limit invariants 65
# check made|256|struct N { } op f() { label c; } outline { inv null == null; |at c: null == null; |}
|0 at c W {u r}|2 refused limit items 257
# check made|256|struct N { } op f() { } outline { inv null == null; |over f: null == null; |}
|0 safe points 2 steps 1 locations 2 obligations 514|2 refused limit items 257
# check made|15|struct N { } outline { inv 7 == 7| or 7 == 7|; }
|0 safe points 0 steps 0 locations 2 obligations 1|2 refused limit literals 17
# check made|1|struct N { } outline { inv all x|, x$|: x == x; }
|0 safe points 0 steps 0 locations 2 obligations 1|2 refused syntax token 11 line 1
";

// The points of all operations together, and the lines of a schedule, its first one included.
const POINTS_AND_LINES: &str = "\
# check made|4089|struct N { } op a() { } op b() { skip; } op f() { |skip; |}
|0 safe points 4096 steps 4093 locations 2 obligations 0|2 refused limit points 4097
# check made|4089|struct N { } op a() { } op b() { skip; } op f() { |skip; |} outline { }
|0 safe points 4096 steps 4093 locations 2 obligations 0|2 refused limit points 4097
# replay plain made leak|99999|threads 1
|tick
||0 end lines 100000 events 0 freed 0|2 refused limit lines 100001
";

// The clauses of one ground set: 251 nodes in the place of each name of the premises make 63001, 2510 and 22
// clauses, to which the denied conclusion adds 3.
const CLAUSES: &str = "\
# check made|22|struct N { ptr a; ptr b; ptr c; ptr d; ptr e; ptr f; ptr g; ptr h; }
shared S0; shared S1; shared S2; shared S3; shared S4; shared S5; shared S6; shared S7;
shared S8; shared S9; shared S10; shared S11; shared S12; shared S13; shared S14; shared S15;
op go() { ptr p0; ptr p1; ptr p2; ptr p3; ptr p4; ptr p5; ptr p6; ptr p7; ptr p8; }
outline { depth 1; inv all x, y: x == y;
inv all x: x == null; inv all x: x == null; inv all x: x == null; inv all x: x == null; inv all x: x == null;
inv all x: x == null; inv all x: x == null; inv all x: x == null; inv all x: x == null; inv all x: x == null;
|inv S0 == null; |}
|0 safe points 2 steps 1 locations 2 obligations 66|2 refused limit clauses 65537
# check made, print made, certify made, verify made plain, replay made plain leak, suggest made, locate made plain|3|
struct N { ptr a; ptr b; ptr c; ptr d; ptr e; ptr f; ptr g; ptr h; }
shared A; shared B; shared C; shared D; shared E; shared F; shared G; shared H;
shared I; shared J; shared K; shared L; shared M; shared O; shared P; shared Q;
op r() { skip; } outline { depth 1; |inv all x, y: x == y; |}
|2 refused limit clauses 65537
";

// With s steps in `f` a clause over it comes to s * s + s obligations, an invariant to s + 1, and a claim to one. Each
// command refuses what has too many.
const OBLIGATIONS: &str = "\
# check made|998|struct N { } op f() { ptr p; |skip; |} outline { over f: p == null; }
|0 safe points 1000 steps 999 locations 2 obligations 999000|2 refused limit obligations 1000001
# print made, certify made, verify made plain, replay made plain leak, suggest made, locate made plain|999|
struct N { } op f() { ptr p; |skip; |}
outline { over f: p == null; }|2 refused limit obligations 1000001
";

// Two claims, each of which adds an item and with it s + 1 obligations: to 254 items and to 255; then to 997,002 and
// 998,001 obligations of `f` and an invariant, which with those of the claims are as many as there may be, and more.
const EXTENDED: &str = "\
# locate made claims|254|struct N { } shared T; op f() { ptr p; p := T; label c; }
outline { inv all y: not retired(y); |at c: null == null; |}
|0 located claims 2 obligations 771|2 refused limit items 257
# locate made claims|996|struct N { } shared T; op f() { ptr p; p := T; label c; |skip; |}
outline { inv null != null; over f: null == null; }
|1 unproved start clause 0|2 refused limit obligations 1000001
# locate made others|255|struct N { } shared T; op f() { ptr p; p := T; label c; }
outline { inv all y: not retired(y); |at c: null == null; |}
|1 unlocated claim 2|1 unlocated claim 2
";

// Claims for these: of `p` its type knows no location at `c`. Of the others the last is unlocated.
const CLAIMS: &str = "at c p { u } at c p { u }";

const OTHERS: &str = "at c p { u } at c p { u r } at c p { r }";

// A step with a primitive has a spot for each pointer: in `g` two, in `f` one. A `skip` and the end of an operation
// have none.
const SPOTS: &str = "\
# suggest made|4078|struct N { } op h() { ptr p; skip; }
op g() { ptr p; ptr q; p := q; p := q; p := q; p := q; p := q; p := q; p := q; p := q; p := q; }
op f() { ptr p; |p := null; |}
|0 suggested 0|2 refused limit places 4097
";

// As many obligations as there may be, and one claim more.
const MOST_OBLIGATIONS: &str = "\
# check made|997|struct N { } op f() { ptr p; skip; |skip; |} outline { inv null != null; over f: p == null; }
|1 unproved start clause 0
# check made|997|struct N { } op f() { ptr p; active p; |skip; |} outline { inv null != null; over f: p == null; }
|2 refused limit obligations 1000001
";

// Commands over a file of so many blanks, with the answer to each.
const SIZES: &[(&str, usize, &str)] = &[
    ("check made", 1_048_576, "2 refused syntax token 0 line 1"),
    (
        "check made, print made, certify made, verify made absent, replay made absent leak, suggest made",
        1_048_577,
        "4 read too long",
    ),
    (
        "locate plain made",
        1_048_576,
        "0 located claims 0 obligations 0",
    ),
    (
        "locate plain made, locate made absent",
        1_048_577,
        "4 read too long",
    ),
    (
        "replay plain made leak",
        4_194_304,
        "2 refused schedule line 1",
    ),
    ("replay plain made leak", 4_194_305, "4 read too long"),
    (
        "verify plain made",
        16_777_216,
        "2 refused certificate json",
    ),
    ("verify plain made", 16_777_217, "4 read too long"),
];

// The greatest number that may stand in a schedule or in words, and the next one. A schedule has no parts here, and to
// a sample no text is handed.
const NUMBERS: &str = "\
# replay plain made leak|0|threads 64
|||0 end lines 1 events 0 freed 0
# replay plain made leak|0|threads 65
|||2 refused schedule line 1
# replay plain made leak|0|threads 1
start 0 f
step 0 0 4096
|||0 end lines 3 events 0 freed 0
# replay plain made leak|0|threads 1
start 0 f
step 0 0 4097
|||2 refused schedule line 3
# sample 16 717|0||||2 refused syntax token 4996 line 717
# sample 16 718|0||||3 words refused
# sample 17 0|0||||3 words refused
";

const PLAIN: &str = "struct N { } op f() { ptr p; p := new; }";

// Fails where the status and the first line of what is answered to one of these commands over `made`, a plain file and
// claims aren't as is wanted.
fn answers_over(rt: &impl Abort, alloc: Global, commands: &str, made: &[u8], want: &str) {
    let list = [
        ("plain", PLAIN.as_bytes()),
        ("claims", CLAIMS.as_bytes()),
        ("others", OTHERS.as_bytes()),
        ("made", made),
    ];
    let mut files = files_of(alloc, &list).expect(rt, "memory");
    answers_are(rt, alloc, &mut files, commands, Part::Head, want);
}

// A part, with its number in the place of `$`.
fn numbered(alloc: Global, part: &str, i: u32) -> Result<String, AllocError> {
    match part.split_once("$") {
        Some((left, right)) => format!(in alloc; "{left}{i}{right}"),
        None => String::from_str(alloc, part),
    }
}

fn push_part(alloc: Global, text: &mut String, part: &str, i: u32) -> Result<(), AllocError> {
    let part = numbered(alloc, part, i)?;
    text.push_str(part.as_str())
}

// Writes a text, then so many parts, then another text.
fn push_parts(
    alloc: Global,
    text: &mut String,
    before: &str,
    part: &str,
    count: u32,
    after: &str,
) -> Result<(), AllocError> {
    text.push_str(before)?;
    for i in 0..count {
        push_part(alloc, text, part, i)?;
    }
    text.push_str(after)
}

fn parts(
    alloc: Global,
    before: &str,
    part: &str,
    count: u32,
    after: &str,
) -> Result<String, AllocError> {
    let mut text = String::new(alloc);
    push_parts(alloc, &mut text, before, part, count, after)?;
    Ok(text)
}

// A field of a row.
fn field(row: &str, n: usize) -> &str {
    row.split("|").nth(n).unwrap_or("")
}

// The text of a row with so many parts more.
fn made_text(alloc: Global, row: &str, more: u32) -> Result<String, AllocError> {
    let count = field(row, 1).parse::<u32>().unwrap_or(0);
    parts(
        alloc,
        field(row, 2),
        field(row, 3),
        count.wrapping_add(more),
        field(row, 4),
    )
}

// Fails where an answer to that text isn't this one.
fn text_has(rt: &impl Abort, alloc: Global, row: &str, more: u32, want: &str) {
    let text = made_text(alloc, row, more).expect(rt, "memory");
    answers_over(rt, alloc, field(row, 0), text.as_bytes(), want);
}

// Fails where an answer of a row isn't as is wanted: one to its text, or where the row has a second one, one to the
// text with a part more.
fn row_is(rt: &impl Abort, alloc: Global, row: &str) {
    text_has(rt, alloc, row, 0, field(row, 5).trim_end());
    if let Some(want) = row.split("|").nth(6) {
        text_has(rt, alloc, row, 1, want.trim_end());
    }
}

fn rows_are(rt: &impl Abort, alloc: Global, rows: &str) {
    for row in rows.split("# ") {
        if !row.is_empty() {
            row_is(rt, alloc, row);
        }
    }
}

#[test]
fn parts_have_limits(rt: HostRuntime) {
    for rows in [PARTS, CLAUSES, POINTS_AND_LINES, EXTENDED, SPOTS] {
        rows_are(&rt, rt.alloc(), rows);
    }
}

// Apart from the others, since it takes longest: some of its files have a million obligations.
#[test]
fn obligations_have_a_limit(rt: HostRuntime) {
    for rows in [OBLIGATIONS, MOST_OBLIGATIONS] {
        rows_are(&rt, rt.alloc(), rows);
    }
}

// Fails where an answer to one of these commands over so many blanks isn't as is wanted.
fn blanks_are(rt: &impl Abort, alloc: Global, commands: &str, count: usize, want: &str) {
    let made = vec![in alloc; b' '; count].expect(rt, "memory");
    answers_over(rt, alloc, commands, &made, want);
}

#[test]
fn files_have_sizes(rt: HostRuntime) {
    for row in SIZES {
        let (commands, count, want) = *row;
        blanks_are(&rt, rt.alloc(), commands, count, want);
    }
}

#[test]
fn numbers_have_limits(rt: HostRuntime) {
    rows_are(&rt, rt.alloc(), NUMBERS);
}
