// Pages of small files, and of files that would be markup if a page let them.
use plc_cli::{MemFiles, VecSink};
use plc_view::show;
use std::alloc::{AllocError, Global};

struct Row {
    words: &'static str,
    file: &'static str,
    status: u8,
    shows: &'static str,
    hides: &'static str,
}

// What is told in place of an answer.
struct Cause {
    words: &'static str,
    status: u8,
    told: &'static str,
}

const SMALL: &str = "struct Node { ptr next; data val; }
shared Top;
op f(v) { ptr n; n := new; n.val := v; Top := n; }
";

// A comment, and nothing else, may hold any bytes.
const MARKUP: &str =
    "struct Node { ptr next; } // </td><script>alert('1')</script><img src=\"x\" onerror=alert(2)>
shared Top; // &amp; <b>
op f() { ptr n; n := Top; n := n.next; }
";

const REFUSED: &str = "struct Node { <script>alert(1)</script> }";

const BROKEN: &str = "struct Node { ptr next; }
shared Top;
ghost st { made, linked };
op put() { ptr n; n := new; Top := n; }
outline { inv Top == null or Top.st == linked; /* */ }
";

const UNPROVED: &str = "struct Node { ptr next; }
shared Top;
ghost st { made, linked };
op put() {
    ptr n;
    n := new;
    Top := n;
}
outline { inv Top == null or Top.st == linked; }
";

const ROWS: [Row; 14] = [
    Row {
        words: "file",
        file: SMALL,
        status: 0,
        shows: "<h1>file</h1>\n<p><b class=\"badge safe\">SAFE</b> In no run of this program",
        hides: "<script",
    },
    Row {
        words: "file",
        file: SMALL,
        status: 0,
        shows: "</details>\n<details id=\"answer\"><summary>The answer in full</summary>\n<pre class=\"answer\">\
                safe points 5 steps 4 locations 2 obligations 0\n</pre>\n</details>\n</body>",
        hides: "src=",
    },
    Row {
        words: "file",
        file: MARKUP,
        status: 1,
        shows: "// &lt;/td&gt;&lt;script&gt;alert(&#39;1&#39;)&lt;/script&gt;&lt;img src=&quot;x&quot; \
                onerror=alert(2)&gt;",
        hides: "<script",
    },
    Row {
        words: "file",
        file: MARKUP,
        status: 1,
        shows: "// &amp;amp; &lt;b&gt;",
        hides: "<img",
    },
    Row {
        words: "file",
        file: REFUSED,
        status: 2,
        shows: "<tr class=\"here\" id=\"L1\">",
        hides: "<script",
    },
    Row {
        words: "file",
        file: UNPROVED,
        status: 1,
        shows: "<b class=\"badge open\">UNPROVED</b>",
        hides: "SAFE",
    },
    Row {
        words: "--plain file",
        file: UNPROVED,
        status: 1,
        shows: "file:7: ",
        hides: "<",
    },
    Row {
        words: "--plain file",
        file: SMALL,
        status: 0,
        shows: "",
        hides: "file",
    },
    Row {
        words: "--plain file",
        file: BROKEN,
        status: 2,
        shows: "file:5: refused byte at 152\n",
        hides: "<",
    },
    Row {
        words: "file schedule leak",
        file: SMALL,
        status: 1,
        shows: "<h1>file schedule leak</h1>\n<p><b class=\"badge\">IMPOSSIBLE</b> A line of the \
                schedule can't be taken.</p>\n",
        hides: "SAFE",
    },
    Row {
        words: "file schedule list",
        file: SMALL,
        status: 1,
        shows: "<div><code>Top</code>: null \u{2192} 3</div>",
        hides: "dangl",
    },
    Row {
        words: "file schedule hazard",
        file: SMALL,
        status: 1,
        shows: "the steps that leave the point of the thread are 1, counted from 0",
        hides: "<img",
    },
    Row {
        words: "file schedule epoch",
        file: MARKUP,
        status: 1,
        shows: "is impossible: the operation has another number of parameters: 0.",
        hides: "<script",
    },
    Row {
        words: "file schedule leak",
        file: REFUSED,
        status: 2,
        shows: "<tr class=\"here\" id=\"L1\">",
        hides: "<script",
    },
];

const CAUSES: [Cause; 5] = [
    Cause {
        words: "--plain",
        status: 3,
        told: "words refused\n",
    },
    Cause {
        words: "file schedule other",
        status: 3,
        told: "words refused\n",
    },
    Cause {
        words: "--plain schedule leak",
        status: 3,
        told: "words refused\n",
    },
    Cause {
        words: "none",
        status: 4,
        told: "read failed\n",
    },
    Cause {
        words: "file none leak",
        status: 4,
        told: "read failed\n",
    },
];

// What each file may be replayed by. Its last line takes a step that isn't there.
const SCHEDULE: &str = "threads 2
start 1 f 7
step 1 0 3
step 1 0
step 1 0
step 1 5
";

// The words of a line, which blanks part.
fn words_of(alloc: Global, line: &str) -> Result<Vec<String>, AllocError> {
    let mut words = Vec::new(alloc);
    for word in line.split(' ') {
        words.push(String::from_str(alloc, word)?)?;
    }
    Ok(words)
}

// The file and the schedule.
fn files_of(alloc: Global, file: &str) -> Result<MemFiles, AllocError> {
    let mut files = Vec::new(alloc);
    files.push((
        String::from_str(alloc, "schedule")?,
        Vec::from_slice(alloc, SCHEDULE.as_bytes())?,
    ))?;
    files.push((
        String::from_str(alloc, "file")?,
        Vec::from_slice(alloc, file.as_bytes())?,
    ))?;
    Ok(MemFiles::new(alloc, files, Vec::new(alloc)))
}

// What words come to: a status, what is written, and what is told in its place.
#[derive(Drop)]
struct Shown {
    status: u8,
    written: Vec<u8>,
    told: Vec<u8>,
}

// What words come to over a file and the schedule.
fn shown_of(alloc: Global, line: &str, file: &str) -> Result<Shown, AllocError> {
    let words = words_of(alloc, line)?;
    let mut files = files_of(alloc, file)?;
    let mut out = VecSink::new(alloc);
    let mut causes = VecSink::new(alloc);
    let status = show(alloc, &words, &mut files, &mut out, &mut causes);
    let written = Vec::from_slice(alloc, out.written())?;
    let told = Vec::from_slice(alloc, causes.written())?;
    Ok(Shown {
        status,
        written,
        told,
    })
}

// Whether a page is as the row says.
fn is_so(row: &Row, shown: &Shown) -> bool {
    match str::from_utf8(&shown.written) {
        Ok(text) => {
            shown.status == row.status
                && shown.told.is_empty()
                && text.contains(row.shows)
                && !text.contains(row.hides)
        }
        Err(_) => false,
    }
}

// Whether what is written for the row is as it says.
fn row_is(alloc: Global, row: &Row) -> Result<bool, AllocError> {
    let shown = shown_of(alloc, row.words, row.file)?;
    let so = is_so(row, &shown);
    drop(shown);
    Ok(so)
}

// Whether what is told is as the row says, and nothing is written.
fn is_told(row: &Cause, shown: &Shown) -> bool {
    shown.status == row.status
        && shown.written.is_empty()
        && shown.told.as_slice() == row.told.as_bytes()
}

// Whether what is told for the row is as it says.
fn cause_is(alloc: Global, row: &Cause) -> Result<bool, AllocError> {
    let shown = shown_of(alloc, row.words, SMALL)?;
    let so = is_told(row, &shown);
    drop(shown);
    Ok(so)
}

#[test]
fn pages_are_as_the_rows_say(rt: HostRuntime) -> Result<(), AllocError> {
    for (at, row) in ROWS.iter().enumerate() {
        let so = row_is(rt.alloc(), row)?;
        assert!(rt; so, "row {at}");
    }
    Ok(())
}

#[test]
fn causes_are_told_apart(rt: HostRuntime) -> Result<(), AllocError> {
    for (at, row) in CAUSES.iter().enumerate() {
        let so = cause_is(rt.alloc(), row)?;
        assert!(rt; so, "row {at}");
    }
    Ok(())
}
