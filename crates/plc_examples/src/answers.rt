// A command answered in memory: the files are real, the output is kept.
use plc_base::LARGEST_FILE;
use plc_cli::{Files, MemFiles, RealFiles, VecSink, run_with_own};
use plc_hunting::hunt;
use plc_view::show;
use std::alloc::{AllocError, Global};
use std::io;

/// Files in memory, each by its name.
type Entries = Vec<(String, Vec<u8>)>;

/// The words of a line, which blanks part.
fn words_of(alloc: Global, line: &str) -> Result<Vec<String>, AllocError> {
    let mut words = Vec::new(alloc);
    for word in line.split(' ') {
        words.push(String::from_str(alloc, word)?)?;
    }
    Ok(words)
}

/// How often a piece stands in a text.
fn count_of(text: &str, piece: &str) -> usize {
    text.matches(piece).count()
}

/// The first line of an answer that doesn't tell the types at a label.
fn first_line_of(text: &str) -> &str {
    for line in text.lines() {
        if !line.starts_with("at ") {
            return line;
        }
    }
    ""
}

/// The status that words end with for `plc-hunt`; what it says beside the run, or in place of an answer, is let go.
fn hunt_status<F: Files>(alloc: Global, words: &[String], files: &mut F, out: &mut VecSink) -> u8 {
    let mut said = VecSink::new(alloc);
    let status = hunt(alloc, words, files, out, &mut said);
    drop(said);
    status
}

/// The status that words end with for `plc-show`; what it tells in place of an answer is let go.
fn show_status<F: Files>(alloc: Global, words: &[String], files: &mut F, out: &mut VecSink) -> u8 {
    let mut causes = VecSink::new(alloc);
    let status = show(alloc, words, files, out, &mut causes);
    drop(causes);
    status
}

/// The status that words end with: those after `show` are for `plc-show`, those after `hunt` for `plc-hunt`, others for
/// `plc`.
fn status_of<F: Files>(alloc: Global, words: &[String], files: &mut F, out: &mut VecSink) -> u8 {
    match words {
        [first, others @ ..] if first.as_str() == "show" => show_status(alloc, others, files, out),
        [first, others @ ..] if first.as_str() == "hunt" => hunt_status(alloc, others, files, out),
        _ => run_with_own(alloc, words, files, out),
    }
}

/// The status that words end with, and what they write.
fn written<F: Files>(
    alloc: Global,
    words: &[String],
    files: &mut F,
) -> Result<(u8, Vec<u8>), AllocError> {
    let mut out = VecSink::new(alloc);
    let status = status_of(alloc, words, files, &mut out);
    let bytes = Vec::from_slice(alloc, out.written());
    drop(out);
    Ok((status, bytes?))
}

/// The status that a command ends with, and what it writes.
fn answer<F: Files>(alloc: Global, line: &str, files: &mut F) -> Result<(u8, Vec<u8>), AllocError> {
    let words = words_of(alloc, line)?;
    let answer = written(alloc, &words, files);
    drop(words);
    answer
}

/// Adds a file under a name.
fn put(alloc: Global, files: &mut Entries, name: &str, bytes: Vec<u8>) -> Result<(), AllocError> {
    files.push((String::from_str(alloc, name)?, bytes))?;
    Ok(())
}

/// Adds the file of a name as `file`, if it is read.
fn put_file(
    alloc: Global,
    files: &mut RealFiles<HostRuntime>,
    name: &str,
    both: &mut Entries,
) -> Result<(), AllocError> {
    match files.read(name, LARGEST_FILE) {
        Ok(bytes) => put(alloc, both, "file", bytes),
        Err(_) => Ok(()),
    }
}

/// The answer to `certify` of a name.
fn certified<F: Files>(
    alloc: Global,
    files: &mut F,
    name: &str,
) -> Result<(u8, Vec<u8>), AllocError> {
    let command = format!(in alloc; "certify {name}")?;
    let certified = answer(alloc, command.as_str(), files);
    drop(command);
    certified
}

/// The answer of `verify` to a file and its certificate.
fn verified(alloc: Global, both: Entries) -> Result<(u8, Vec<u8>), AllocError> {
    let mut files = MemFiles::new(alloc, both, Vec::new(alloc));
    let answer = answer(alloc, "verify file certificate", &mut files);
    drop(files);
    answer
}

/// The answer of `verify` to the file of a name and what `certify` writes of it.
fn certified_answer(
    alloc: Global,
    files: &mut RealFiles<HostRuntime>,
    name: &str,
) -> Result<(u8, Vec<u8>), AllocError> {
    let mut both = Vec::new(alloc);
    put(
        alloc,
        &mut both,
        "certificate",
        certified(alloc, files, name)?.1,
    )?;
    put_file(alloc, files, name, &mut both)?;
    verified(alloc, both)
}

/// The answer of `replay` under a reclaimer to a file and a schedule.
fn replay_answer(
    alloc: Global,
    both: Entries,
    reclaimer: &str,
) -> Result<(u8, Vec<u8>), AllocError> {
    let mut files = MemFiles::new(alloc, both, Vec::new(alloc));
    let answer = match format!(in alloc; "replay file schedule {reclaimer}") {
        Ok(line) => answer(alloc, line.as_str(), &mut files),
        Err(fault) => Err(fault),
    };
    drop(files);
    answer
}

/// The answer of `replay` to what `plc-hunt` writes to a line of `hunt`, the name of a file, and a reclaimer.
fn hunted_answer(
    alloc: Global,
    files: &mut RealFiles<HostRuntime>,
    line: &str,
    words: &[String],
) -> Result<(u8, Vec<u8>), AllocError> {
    let (name, reclaimer) = match words {
        [_, name, reclaimer] => (name.as_str(), reclaimer.as_str()),
        _ => ("", ""),
    };
    let mut both = Vec::new(alloc);
    put(alloc, &mut both, "schedule", answer(alloc, line, files)?.1)?;
    put_file(alloc, files, name, &mut both)?;
    replay_answer(alloc, both, reclaimer)
}

/// The answer to a command; to `certify FILE, verify` that of `verify` to what `certify` writes, and to `hunt FILE
/// RECLAIMER, replay` that of `replay` to what `plc-hunt` writes.
fn kept_answer(
    alloc: Global,
    files: &mut RealFiles<HostRuntime>,
    line: &str,
) -> Result<(u8, Vec<u8>), AllocError> {
    if let Some(certify) = line.strip_suffix(", verify") {
        let name = certify.strip_prefix("certify ").unwrap_or("");
        return certified_answer(alloc, files, name);
    }
    if let Some(hunt) = line.strip_suffix(", replay") {
        let words = words_of(alloc, hunt)?;
        let answer = hunted_answer(alloc, files, hunt, &words);
        drop(words);
        return answer;
    }
    answer(alloc, line, files)
}

/// A command with what tells its answer, and the status: of a page how many parts can be opened and how many drawings
/// there are, of lines for editors all of them, else a line.
fn text_of(alloc: Global, line: &str, status: u8, text: &str) -> Result<String, AllocError> {
    if line.starts_with("show --plain ") {
        return format!(in alloc; "{line} => {status}\n{text}");
    }
    if line.starts_with("show ") {
        let parts = count_of(text, "<details");
        let drawings = count_of(text, "<svg");
        return format!(in alloc;
            "{line} => a page of {parts} parts and {drawings} drawings, {status}"
        );
    }
    let text = first_line_of(text);
    format!(in alloc; "{line} => {text}, {status}")
}

/// The command with what tells its answer, and the status.
fn line_of(alloc: Global, line: &str, status: u8, written: &[u8]) -> Result<String, AllocError> {
    match str::from_utf8(written) {
        Ok(text) => text_of(alloc, line, status, text),
        Err(_) => format!(in alloc; "{line} => no text, {status}"),
    }
}

/// A command with its answer, over files that are lent.
fn line_over(
    alloc: Global,
    files: &mut RealFiles<HostRuntime>,
    line: &str,
) -> Result<String, AllocError> {
    let (status, written) = kept_answer(alloc, files, line)?;
    let text = line_of(alloc, line, status, &written);
    drop(written);
    text
}

/// The command with the line that tells its answer, and the status.
pub(crate) fn line_with_answer(rt: &HostRuntime, line: &str) -> io::Result<String> {
    let mut files = RealFiles::new(rt.alloc(), rt.clone()?);
    let text = line_over(rt.alloc(), &mut files, line);
    drop(files);
    Ok(text?)
}
