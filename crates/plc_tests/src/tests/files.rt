// Files and schedules, a certificate and a claim. A file is a section of a text: its name stands after `#`, its lines
// are the file. A schedule is a name and the pieces of its text. Some files differ from others in a few lines, and
// some are made.
use crate::tests::rows::OUTLINED;
use plc_cli::MemFiles;
use plc_testing::{EPOCHS, HAZARDS};
use std::alloc::{AllocError, Global};

// `dead` and `endless`: no step leads to the statements after a `return`, or after a loop without a
// `break`; they are typed all the same. `rounds`: what is read of `T` comes to `c` in the third turn.
// `stack`: nodes are put, taken, and looked at through a hazard pointer or without one.
pub(crate) const FILES: &str = "# publish
struct Node { ptr next; data val; }
shared Top;
op f(v) { ptr n; n := new; n.val := v; Top := n; }
# lost
struct Node { ptr next; data val; }
shared Top;
op f() {
ptr n; ptr m;
n := new;
m := n;
Top := n;
m.val := 1;
}
# least
struct N { }
# empty
# stray
struct N { } $
# brace
struct N { } }
# unknown
struct N { } op f() { ptr n; n := m; }
# loop
struct N { } op f() { loop { skip; } }
# claim
struct N { } op f() { ptr n; active n; }
# outline
struct N { } outline { }
# entered
struct N { } shared T; op f() { } outline { over f: T == null; }
# unknown-claim
struct N { } op f() { ptr n; active m; }
# unknown-outline
struct N { } outline { inv m == null; }
# open-outline
struct N { } outline {
# dead
struct N { ptr f; }
shared T;
op g() { ptr a; ptr b; return; a := T; b := a.f; }
# endless
struct N { ptr f; }
shared T;
op g() { ptr a; ptr b; loop { skip; } a := T; b := a.f; }
# rounds
struct N { ptr f; }
shared T;
op g() { ptr a; ptr b; ptr c; ptr d; loop { d := c.f; c := b; b := a; a := T; } }
# labelled
struct N { ptr f; }
shared T;
op g() { ptr a; ptr b; ptr c; loop { label l; c := b; b := a; a := T; } }
# protected
struct Node { ptr next; }
shared Top;
call protect(ptr);
use hazard(protect);
op f() { ptr n; n := new; protect(n); label a; }
# two-words
struct N{ptr f;}
# unknown-local
struct N { } op f ( ) { ptr n ; m := n ; }
# pointless
struct N { } call a ( ) ; use hazard ( a ) ;
# watched-retire
struct N { } use hazard ( retire ) ;
# twice-watched
struct N { } call a ( ptr ) ; use hazard ( a ) ; use hazard ( a ) ;
# number
4294967296
# name
a123456789b123456789c123456789d123456789e123456789f123456789g1234
# sorts
struct N { ptr f; data d; } op g() { ptr p; p := p.d; }
# calls
struct N { } op f() {
retire(null); }
# twice-declared
struct N { ptr N; }
# compared
struct N { ptr f; } shared T;
op g() { ptr p; p := T; assume p == T; }
# epochs
struct N { ptr f; }
shared T;
call enter();
call leave();
use epoch(enter, leave);
op g() { ptr t; ptr s; enter(); t := T; s := t.f; leave(); }
# taken
struct Node { ptr next; } shared Top;
call protect(ptr); use hazard(protect);
op put() { ptr n; n := new; Top := n; }
op take() { ptr t; t := Top; Top := null; retire(t); }
# once
struct Node { ptr next; }
op once() { ptr t; t := new; retire(t); }
# twice
struct Node { ptr next; }
op twice() { ptr t; t := new; retire(t); retire(t); }
# marked
struct N { ptr next; }
shared T;
op f() { ptr n; n := mark T; T := n; }
# marked-brace
struct N { } op f() { ptr n; n := mark n; } }
# marked-byte
struct N { } $ op f() { ptr n; n := mark n; }
# marked-name
mark
# marked-field
struct N { ptr marked; }
# marked-operation
struct N { } op unmark() { }
# marked-sort
struct N { data d; } op f(v) { ptr p; p := mark v; }
# marked-put
struct Node { ptr next; }
shared Top;
op put() { ptr n; ptr m; n := new; m := mark n; Top := m; if (marked m) { m := unmark m; } if (m == n) { return; } }
# marked-init
struct N { ptr next; } shared T; shared U;
init { T := new; U := mark T; T.next := U; T := unmark U; }
op f() { ptr p; p := T; assume unmarked p; p := U; assume marked p; }
# marked-null
struct N { ptr next; }
op f() { ptr p; ptr q; p := null; q := mark p; assume q == null; assume marked q; assume q != p; }
# marked-link
struct N { ptr next; }
op f() { ptr p; ptr q; p := new; q := mark p; p.next := q; p := p.next; assume marked p; p := unmark p; }
# marked-else
struct N { ptr next; }
op f() { ptr p; ptr q; p := new; q := mark p; if (marked q) { p := null; } else { p := q; }
if (unmarked q) { p := q; } else { } }
# marked-outline
struct N { ptr next; }
shared T;
ghost st { made, linked };
op f() { ptr p; ptr m; p := new; m := mark p; label a; atomic { ghost p.st := linked; T := m; } }
outline { inv T == null or T.st == linked; at a: m == p; }
# marked-different
struct N { }
op f() { ptr p; ptr q; p := new; assume p != q; label a; p := mark p; }
outline { at a: p == null or p != q; }
# marked-shared
struct N { ptr f; }
shared T;
op g() { ptr p; p := new; p := mark p; label a; T := p; }
outline { inv T == null or marked(T); at a: marked(p); }
# blocked
struct N { ptr f; } shared T; init { T.f := null; }
# read-twice
struct N { ptr f; } shared T; op g() { ptr p; ptr q; atomic { p := T; q := p.f; p := q.f; } }
# compared-read
struct N { ptr f; } shared T; op g() { ptr p; ptr q; atomic { p := T; q := p.f; assume q == p; } }
# never-retired
struct N { } shared T; op f() { ptr p; p := T; label c; } op g() { data x; label e; }
outline { inv all y: not retired(y); }
# pointerless
struct N { } op f() { data x; label l; }
# stack
struct Node { ptr next; }
shared Top;
call protect(ptr);
use hazard(protect);
op put() { ptr n; n := new; Top := n; }
op take() { ptr t; t := Top; Top := null; retire(t); }
op look() { ptr t; ptr s; t := Top; protect(t); t ?= Top; s := t.next; }
op peek() { ptr t; ptr s; t := Top; s := t.next; }
";

// Stacks with their outlines, whose nodes hazard pointers or epochs protect.
pub(crate) const STACKS: &[&str] = &["hazards", "epochs-held"];

// Files that differ from another in some lines, each by its number and with what stands in its place.
pub(crate) const CHANGED: &[(&str, &str, &[(usize, &str)])] = &[
    ("unclaimed", "hazards", &[(27, "atomic { t ?= Top; }\n")]),
    ("unsaid", "hazards", &[(56, "\n")]),
    (
        "retired-again",
        "hazards",
        &[(34, "retire(active t);\nretire(t);\n")],
    ),
    (
        "claimed-late",
        "hazards",
        &[
            (
                34,
                "retire(active t) during h;\nlabel g;\nretire(active t);\n",
            ),
            (54, "at f, g, h: t.st == cut;\n"),
            (55, "at f, g, h: t.owner == me;\n"),
        ],
    ),
    (
        "left-early",
        "epochs-held",
        &[(27, "leave();\ns := t.next;\n")],
    ),
    (
        "unchecked",
        "hazards",
        &[(23, "atomic { t := Top; active t; }\n"), (27, "")],
    ),
    ("weaker", "hazards", &[(46, "")]),
    ("interfered", "hazards", &[(49, "")]),
    (
        "marked-cleared",
        "marked-shared",
        &[(
            3,
            "op g() { ptr p; p := new; p := unmark p; label a; T := p; }\n",
        )],
    ),
];

// What schedules share: thread 1 puts a node, takes it, whereupon the reclaimer is asked, and ends that
// operation to put a node at the same address.
pub(crate) const PUT: &str = "threads 2
start 1 put
step 1 0 1
step 1 0
step 1 0
return 1
";

pub(crate) const TAKE: &str = "start 1 take
step 1 0
step 1 0
step 1 0
tick
";

const PUT_AGAIN: &str = "step 1 0
step 1 0
return 1
start 1 put
step 1 0 1
step 1 0
";

// One thread puts a node and takes it.
pub(crate) const PUT_AND_TAKE: &str = "start 0 put
step 0 0 1
step 0 0
step 0 0
return 0
start 0 take
step 0 0
step 0 0
step 0 0
";

// The rest of that operation, after which the reclaimer is asked: with what stands before it thirteen lines, of which
// three are events.
const FREED: &str = "step 0 0
step 0 0
return 0
tick
";

// `reused`: the node is freed and its address is allocated again between the read of `Top` and the look
// after it; `stale`: the same without a hazard pointer; `kept`: the reclaimer is asked while a hazard
// pointer keeps the node.
pub(crate) const SCHEDULES: &[(&str, &[&str])] = &[
    (
        "reused",
        &[
            PUT,
            "start 0 look\nstep 0 0\n",
            TAKE,
            PUT_AGAIN,
            "step 0 0\nstep 0 0\nstep 0 0\nstep 0 0\n",
        ],
    ),
    (
        "stale",
        &[
            PUT,
            "start 0 peek\nstep 0 0\n",
            TAKE,
            PUT_AGAIN,
            "step 0 0\n",
        ],
    ),
    (
        "kept",
        &[PUT, "start 0 look\nstep 0 0\nstep 0 0\nstep 0 0\n", TAKE],
    ),
    (
        "double",
        &["threads 1\nstart 0 twice\nstep 0 0 5\nstep 0 0\nstep 0 0\nstep 0 0\n"],
    ),
    (
        "freed",
        &["threads 1\nstart 0 twice\nstep 0 0 5\nstep 0 0\ntick\nstep 0 0\nstep 0 0\n"],
    ),
    (
        "addressless",
        &["threads 1\nstart 0 twice\nstep 0 0\nstep 0 0\nstep 0 0\nstep 0 0\n"],
    ),
    (
        "marked-start",
        &["threads 1\nstart 0 f\nstep 0 0\nstep 0 0\nstep 0 0\nstep 0 0\nstep 0 0\nreturn 0\n"],
    ),
    (
        "marked-steps",
        &[
            "threads 1\nstart 0 f\nstep 0 0\nstep 0 0\nstep 0 0\nstep 0 0\nstep 0 0\nstep 0 0\nreturn 0\n",
        ],
    ),
    (
        "marked-loads",
        &[
            "threads 1\nstart 0 f\nstep 0 0 1\nstep 0 0\nstep 0 0\nstep 0 0\nstep 0 0\nstep 0 0\nstep 0 0\nreturn 0\n",
        ],
    ),
    (
        "marked-sides",
        &[
            "threads 1\nstart 0 f\nstep 0 0 1\nstep 0 0\nstep 0 0\nstep 0 0\nstep 0 0\n",
            "step 0 1\nstep 0 0\nstep 0 0\nreturn 0\n",
        ],
    ),
    (
        "marked-side",
        &["threads 1\nstart 0 f\nstep 0 0 1\nstep 0 0\nstep 0 0\nstep 0 0\nstep 0 0\nstep 0 0\n"],
    ),
    (
        "marked-putting",
        &[
            "threads 1\nstart 0 put\nstep 0 0 1\nstep 0 0\nstep 0 0\nstep 0 0\nstep 0 0\n",
            "step 0 0\nstep 0 0\nstep 0 0\nreturn 0\n",
        ],
    ),
    (
        "marked-otherwise",
        &["threads 1\nstart 0 put\nstep 0 0 1\nstep 0 0\nstep 0 0\nstep 0 1\n"],
    ),
    ("no-threads", &["threads 0\n"]),
    ("one", &["threads 1\n"]),
    ("no-operation", &["threads 1\nstart 0 loop\n"]),
];

// A certificate of `publish` with its strongest typing: a node that is made is local until it is shared, and then
// it may be retired.
pub(crate) const PUBLISHED: &str =
    "{\"env\":[[[0,1],[[7,[]]]],[[0,1],[[0,[0,1]]]],[[0,1],[[7,[0]]]],[[0,1],[[7,[0]]]],[[0,1],[[0,[0,1]]]]],\
     \"trees\":[],\"version\":1}";

// That certificate, and a claim that is true of `hazards`.
const JUDGED: &[(&str, &[&str])] = &[
    ("certificate", &[PUBLISHED]),
    ("claims", &["at f t { u.held }"]),
];

// A node is put, taken and freed again and again, each time at the same address: nearly as many lines as a
// schedule may have, so that a free which costs the length of the history would not end in time.
fn push_reuses(text: &mut String) -> Result<(), AllocError> {
    text.push_str("threads 1\n")?;
    for _ in 0..7_692 {
        text.push_str(PUT_AND_TAKE)?;
        text.push_str(FREED)?;
    }
    Ok(())
}

fn reuses(alloc: Global) -> Result<Vec<u8>, AllocError> {
    let mut text = String::new(alloc);
    push_reuses(&mut text)?;
    Ok(text.into_bytes())
}

// A file that ends within a block, on its first line.
const OPEN: &str = "struct N { } op f ( ) { ptr n ; atomic { n := new ;";

pub(crate) type Entries = Vec<(String, Vec<u8>)>;

pub(crate) fn put(
    alloc: Global,
    files: &mut Entries,
    name: &str,
    bytes: Vec<u8>,
) -> Result<(), AllocError> {
    files.push((String::from_str(alloc, name)?, bytes))?;
    Ok(())
}

// The same with a copy of these bytes.
fn put_copy(
    alloc: Global,
    files: &mut Entries,
    name: &str,
    bytes: &[u8],
) -> Result<(), AllocError> {
    put(alloc, files, name, Vec::from_slice(alloc, bytes)?)
}

// Files by their names and bytes.
pub(crate) type Listed<'a> = &'a [(&'a str, &'a [u8])];

fn put_listed(alloc: Global, files: &mut Entries, list: Listed<'_>) -> Result<(), AllocError> {
    for (name, bytes) in list {
        put_copy(alloc, files, *name, *bytes)?;
    }
    Ok(())
}

// These files, of which each is read without a fault.
pub(crate) fn files_of(alloc: Global, list: Listed<'_>) -> Result<MemFiles, AllocError> {
    let mut files = Vec::new(alloc);
    put_listed(alloc, &mut files, list)?;
    Ok(MemFiles::new(alloc, files, Vec::new(alloc)))
}

pub(crate) fn put_sections(
    alloc: Global,
    files: &mut Entries,
    text: &str,
) -> Result<(), AllocError> {
    for section in text.split("# ") {
        if let Some((name, lines)) = section.split_once("\n") {
            put_copy(alloc, files, name, lines.as_bytes())?;
        }
    }
    Ok(())
}

// A list of texts, each by its name and its pieces.
pub(crate) type Pieces = &'static [(&'static str, &'static [&'static str])];

pub(crate) fn put_pieces(
    alloc: Global,
    files: &mut Entries,
    list: Pieces,
) -> Result<(), AllocError> {
    for (name, pieces) in list {
        put(alloc, files, *name, pieces.concat(alloc)?.into_bytes())?;
    }
    Ok(())
}

// The bytes of a file that no section has: a stack, or one of these.
fn made_bytes(alloc: Global, name: &str) -> Result<Vec<u8>, AllocError> {
    match name {
        "reuses" => reuses(alloc),
        "open-atomic" => Vec::from_slice(alloc, OPEN.as_bytes()),
        "outlined" => Vec::from_slice(alloc, OUTLINED.as_bytes()),
        "byte" => Vec::from_slice(alloc, &[200]),
        _ => Ok(text_of(alloc, name)?.into_bytes()),
    }
}

const MADE: &[&str] = &[
    "reuses",
    "open-atomic",
    "outlined",
    "byte",
    "hazards",
    "epochs-held",
];

fn put_made(alloc: Global, files: &mut Entries) -> Result<(), AllocError> {
    for row in MADE {
        let name = *row;
        put(alloc, files, name, made_bytes(alloc, name)?)?;
    }
    Ok(())
}

// The text of a file that a section has.
fn section(name: &str) -> &'static str {
    for section in FILES.split("# ") {
        if let Some((head, lines)) = section.split_once("\n") {
            if head == name {
                return lines;
            }
        }
    }
    ""
}

// The text of a stack, or of a file that a section has.
pub(crate) fn text_of(alloc: Global, name: &str) -> Result<String, AllocError> {
    match name {
        "hazards" => HAZARDS.concat(alloc),
        "epochs-held" => EPOCHS.concat(alloc),
        _ => String::from_str(alloc, section(name)),
    }
}

// What stands in the place of a line, if something else does.
fn change_at(changes: &'static [(usize, &'static str)], number: usize) -> Option<&'static str> {
    for (at, text) in changes {
        if *at == number {
            return Some(*text);
        }
    }
    None
}

// Writes a text with some of its lines put otherwise.
fn push_lines(
    out: &mut String,
    text: &str,
    changes: &'static [(usize, &'static str)],
) -> Result<(), AllocError> {
    for (i, line) in text.split_inclusive("\n").enumerate() {
        out.push_str(change_at(changes, i.wrapping_add(1)).unwrap_or(line))?;
    }
    Ok(())
}

fn with_lines(
    alloc: Global,
    text: &str,
    changes: &'static [(usize, &'static str)],
) -> Result<String, AllocError> {
    let mut out = String::new(alloc);
    push_lines(&mut out, text, changes)?;
    Ok(out)
}

// A file with some of its lines put otherwise.
pub(crate) fn changed(
    alloc: Global,
    base: &str,
    changes: &'static [(usize, &'static str)],
) -> Result<String, AllocError> {
    let text = text_of(alloc, base)?;
    with_lines(alloc, text.as_str(), changes)
}

fn put_changed(alloc: Global, files: &mut Entries) -> Result<(), AllocError> {
    for (name, base, changes) in CHANGED {
        let text = changed(alloc, *base, *changes)?;
        put(alloc, files, *name, text.into_bytes())?;
    }
    Ok(())
}

// All files, schedules, certificates and claims.
pub(crate) fn put_all(alloc: Global, files: &mut Entries) -> Result<(), AllocError> {
    put_sections(alloc, files, FILES)?;
    put_pieces(alloc, files, SCHEDULES)?;
    put_pieces(alloc, files, JUDGED)?;
    put_made(alloc, files)?;
    put_changed(alloc, files)
}
