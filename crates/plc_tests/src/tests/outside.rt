// Files and sinks: that each call which takes memory succeeds where there is enough of it, what a fault
// prints, and what the system does after its handle.
use crate::tests::files::put_sections;
use crate::tests::texts::text_is;
use plc_outside::{
    FailSink, FileFault, Files, MemFiles, OutSink, RealFiles, Sink, SinkFault, VecSink, write_text,
};
use std::alloc::{AllocError, Global};
use std::io::Write;
use std::{env, fs, io, process};

// Bytes as a text; where they are all `x`, as their count.
fn bytes_text(alloc: Global, bytes: &[u8]) -> Result<String, AllocError> {
    if bytes.iter().any(|byte| *byte != b'x') || bytes.is_empty() {
        let text = str::from_utf8(bytes).unwrap_or("?");
        return format!(in alloc; "'{text}' ");
    }
    let count = bytes.len();
    format!(in alloc; "{count} times x ")
}

// A read's answer, through the bound alone.
fn read_text<F: Files>(
    alloc: Global,
    files: &mut F,
    name: &str,
    max: usize,
) -> Result<String, AllocError> {
    match files.read(name, max) {
        Ok(bytes) => bytes_text(alloc, &bytes),
        Err(fault) => format!(in alloc; "{fault} "),
    }
}

// Three entries, the first and the last under one name; the fourth call fails.
fn some_files(alloc: Global) -> Result<MemFiles, AllocError> {
    let mut files = Vec::new(alloc);
    put_sections(alloc, &mut files, "# a\nabc# b\n# a\nlater")?;
    Ok(MemFiles::new(alloc, files, vec![in alloc; 4]?))
}

fn push_read<F: Files>(
    alloc: Global,
    text: &mut String,
    files: &mut F,
    name: &str,
    max: usize,
) -> Result<(), AllocError> {
    let read = read_text(alloc, files, name, max)?;
    text.push_str(read.as_str())
}

// The answers of these reads, each of a name and so many bytes at most.
fn push_reads<F: Files>(
    alloc: Global,
    text: &mut String,
    files: &mut F,
    reads: &[(&str, usize)],
) -> Result<(), AllocError> {
    for read in reads {
        let (name, max) = *read;
        push_read(alloc, text, files, name, max)?;
    }
    Ok(())
}

fn reads_text<F: Files>(
    alloc: Global,
    files: &mut F,
    reads: &[(&str, usize)],
) -> Result<String, AllocError> {
    let mut text = String::new(alloc);
    push_reads(alloc, &mut text, files, reads)?;
    Ok(text)
}

// Seven reads, each of a name and so many bytes at most, and their answers.
const READS: &[(&str, usize)] = &[
    ("a", 3),
    ("a", 2),
    ("b", 0),
    ("a", 9),
    ("a", 9),
    ("c", 9),
    ("", 0),
];

const ANSWERS: &str = "'abc' too long '' failed 'abc' failed failed ";

fn memory_text(alloc: Global) -> Result<String, AllocError> {
    let mut files = some_files(alloc)?;
    reads_text(alloc, &mut files, READS)
}

#[test]
fn files_in_memory(rt: HostRuntime) {
    text_is(&rt, memory_text(rt.alloc()), ANSWERS, "seven reads");
}

// What a sink answers to a text.
fn outcome(written: Result<(), SinkFault>) -> &'static str {
    match written {
        Ok(()) => "ok",
        Err(SinkFault::Failed) => "failed",
        Err(SinkFault::Memory) => "no memory",
    }
}

// What a growing sink answers, and what it holds.
fn growing_text(alloc: Global) -> Result<String, AllocError> {
    let mut out = VecSink::new(alloc);
    let none = out.put(b"");
    let two = out.put(b"ab");
    let rest = outcome(write_text(&mut out, b"cde"));
    let text = str::from_utf8(out.written()).unwrap_or("?");
    format!(in alloc; "{none:?} {two:?} {rest} {text}")
}

// What a sink that takes so many bytes and fails at a call answers to `abc`, and what it holds.
fn failing_text(alloc: Global, most: usize, failing: u64) -> Result<String, AllocError> {
    let mut out = FailSink::new(alloc, most, vec![in alloc; failing]?);
    let answer = outcome(write_text(&mut out, b"abc"));
    let text = str::from_utf8(out.written()).unwrap_or("?");
    format!(in alloc; "{answer} {text}")
}

#[test]
fn sinks_in_memory(rt: HostRuntime) {
    text_is(
        &rt,
        growing_text(rt.alloc()),
        "Ok(0) Ok(2) ok abcde",
        "growing",
    );
    for row in &[
        ("ok abc", 1, 0),
        ("ok abc", 2, 0),
        ("failed a", 1, 2),
        ("failed ab", 2, 2),
        ("failed ", 9, 1),
        ("failed ", 0, 0),
    ] {
        let (want, most, failing) = *row;
        text_is(&rt, failing_text(rt.alloc(), most, failing), want, want);
    }
}

const FILE_FAULTS: &[(FileFault, &str)] = &[
    (FileFault::Failed, "failed"),
    (FileFault::TooLong, "too long"),
    (FileFault::Memory, "no memory"),
];

const SINK_FAULTS: &[(SinkFault, &str)] = &[
    (SinkFault::Failed, "failed"),
    (SinkFault::Memory, "no memory"),
];

#[test]
fn faults_print_their_cause(rt: HostRuntime) {
    for (fault, want) in FILE_FAULTS {
        text_is(&rt, format!(in rt.alloc(); "{fault}"), *want, *want);
    }
    for (fault, want) in SINK_FAULTS {
        text_is(&rt, format!(in rt.alloc(); "{fault}"), *want, *want);
    }
}

// What the system's file is read as, of which all bytes are `x`, and what other names are.
fn systems_text<F: Files>(alloc: Global, files: &mut F, name: &str) -> Result<String, AllocError> {
    let reads = [
        (name, 5000),
        (name, usize::MAX),
        (name, 4999),
        (name, 0),
        ("", 9),
        ("/", 9),
    ];
    reads_text(alloc, files, &reads)
}

// A name of the system's own for a file that no one else has.
fn own_name(rt: &HostRuntime) -> io::Result<String> {
    let folder = env::temp_dir(rt)?;
    let folder = folder.to_str().unwrap_or("");
    Ok(format!(in rt.alloc(); "{folder}/plc_outside_{}", process::id(rt.process()))?)
}

// Pieces of the system's reads are shorter than this file.
fn write_long(rt: &HostRuntime, name: &str) -> io::Result<()> {
    let text = vec![in rt.alloc(); b'x'; 5000]?;
    fs::write(rt, name, text.as_slice())
}

// What is read of such a file through the system.
fn real_text(rt: &HostRuntime, name: &str) -> io::Result<String> {
    let mut files = RealFiles::new(rt.alloc(), rt.clone()?);
    Ok(systems_text(rt.alloc(), &mut files, name)?)
}

// The same of a file that is written before and removed after.
fn written_text(rt: &HostRuntime, name: &str) -> io::Result<String> {
    write_long(rt, name)?;
    let answers = real_text(rt, name);
    fs::remove_file(rt, name)?;
    answers
}

#[test]
fn files_of_the_system(rt: HostRuntime) {
    let name = own_name(&rt).expect(&rt, "a name");
    text_is(
        &rt,
        written_text(&rt, name.as_str()),
        "5000 times x 5000 times x too long too long failed failed ",
        "written",
    );
    text_is(
        &rt,
        real_text(&rt, name.as_str()),
        "failed failed failed failed failed failed ",
        "removed",
    );
}

// A writer that takes one byte a call, until it is full; then it takes nothing, or fails.
#[derive(Drop)]
struct Narrow {
    taken: Vec<u8>,
    room: usize,
    fails: bool,
}

impl Write for Narrow {
    fn write(&mut self, piece: &[u8]) -> io::Result<usize> {
        if self.taken.len() < self.room && !piece.is_empty() {
            self.taken.push(piece[0])?;
            return Ok(1);
        }
        if self.fails {
            return Err(io::Error::from(io::ErrorKind::BrokenPipe));
        }
        Ok(0)
    }

    fn flush(&mut self) -> io::Result<()> {
        Ok(())
    }
}

// What a writer of std answers to `abc`.
fn narrow_text(alloc: Global, room: usize, fails: bool) -> &'static str {
    let taken = Vec::new(alloc);
    let mut out = OutSink::new(Narrow { taken, room, fails });
    outcome(write_text(&mut out, b"abc"))
}

#[test]
fn writers_of_std(rt: HostRuntime) {
    for (room, fails, want) in [(3, true, "ok"), (2, true, "failed"), (2, false, "failed")] {
        assert_eq!(rt; narrow_text(rt.alloc(), room, fails), want);
    }
}
