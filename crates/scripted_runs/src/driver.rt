//! Files, words, and what comes of them.
use crate::faltering::Faltering;
use crate::given::Given;
use crate::refused::refused_text;
use crate::scripted::Scripted;
use crate::told::told;
use crate::way::{Telling, Way};
use crate::whole::told_whole;
use just_run::{Collected, Device, Entry, Fault, Out, Outcome, Recorded, drive};
use scripted_files::Unchanged;
use std::alloc::{AllocError, Global};

/// What came of it, in words, and where a refusal stands, if that is told.
fn answer_text(
    alloc: Global,
    is_placed: bool,
    answer: Result<Outcome, Fault>,
) -> Result<String, AllocError> {
    match answer {
        Ok(Outcome::Ran) => String::from_str(alloc, "ran"),
        Ok(Outcome::Planned) => String::from_str(alloc, "planned"),
        Ok(Outcome::Evaluated) => String::from_str(alloc, "evaluated"),
        Ok(Outcome::Dumped) => String::from_str(alloc, "dumped"),
        Ok(Outcome::Listed) => String::from_str(alloc, "listed"),
        Ok(Outcome::Formatted { text, .. }) => Ok(text.into_string()),
        Err(fault) => refused_text(alloc, is_placed, &fault),
    }
}

/// The entries, told in this way.
fn told_entries(alloc: Global, telling: Telling, entries: &[Entry]) -> Result<String, AllocError> {
    match telling {
        Telling::Short => told(alloc, entries),
        _ => told_whole(alloc, entries),
    }
}

/// The entries, whether the record is exhausted, the output and the answer.
fn told_of(
    alloc: Global,
    way: Way<'_>,
    host: &Recorded<Scripted>,
    written: &[u8],
    answer: Result<Outcome, Fault>,
) -> Result<String, AllocError> {
    let answer = answer_text(alloc, way.is_placed, answer)?;
    let mut text = told_entries(alloc, way.telling, host.entries())?;
    if host.exhausted() {
        text.push_str("exhausted; ")?;
    }
    text.push_str(std::str::from_utf8(written).unwrap_or("not text"))?;
    text.push_str(answer.as_str())?;
    Ok(text)
}

/// The blocks, in bytes, by which what refuses memory sees where the call begins and where it ends.
const BEGINS: usize = 7_340_033;

const ENDS: usize = 7_340_035;

/// Takes a block of that size and frees it, unused.
fn mark(alloc: Global, size: usize) {
    let block: Result<Vec<u8>, AllocError> = Vec::with_capacity(alloc, size);
    drop(block);
}

/// What comes of the call with this output.
pub(crate) fn drive_into<'g, O: Out>(
    alloc: Global,
    way: Way<'_>,
    given: &'g Given,
    host: &mut Recorded<Scripted<'_>>,
    out: &mut O,
) -> Result<Outcome, Fault<'g>> {
    mark(alloc, BEGINS);
    let answer = drive(
        alloc,
        &given.config,
        &Unchanged,
        &given.sources,
        &given.roots,
        given.words.as_slice(),
        way.action,
        host,
        out,
    );
    mark(alloc, ENDS);
    answer
}

/// A host that answers in this way.
pub(crate) fn host<'a>(alloc: Global, way: Way<'a>) -> Recorded<Scripted<'a>> {
    let scripted = Scripted {
        alloc,
        answers: way.answers,
        pairs: way.pairs,
        confirmation: way.confirmation,
        failing: way.failing,
        left: way.failing_place,
        asked: 0,
    };
    Recorded::new(alloc, scripted)
}

/// What is told where the output takes all.
fn told_with_output(alloc: Global, way: Way<'_>, given: &Given) -> Result<String, AllocError> {
    let mut host = host(alloc, way);
    let mut out = Collected::new(alloc);
    let answer = drive_into(alloc, way, given, &mut host, &mut out);
    told_of(alloc, way, &host, out.bytes(), answer)
}

/// What is told where the output fails after so many writes.
fn told_with_failing_output(
    alloc: Global,
    way: Way<'_>,
    given: &Given,
    writes: usize,
) -> Result<String, AllocError> {
    let mut host = host(alloc, way);
    let mut out = Device::new(alloc, Faltering { left: writes });
    let answer = drive_into(alloc, way, given, &mut host, &mut out);
    told_of(alloc, way, &host, out.bytes(), answer)
}

/// What is told of the call: what was asked and handed over, then what was written, then what came of
/// it.
pub(crate) fn told_driven(
    alloc: Global,
    way: Way<'_>,
    given: &Given,
) -> Result<String, AllocError> {
    match way.writes {
        Some(writes) => told_with_failing_output(alloc, way, given, writes),
        None => told_with_output(alloc, way, given),
    }
}
