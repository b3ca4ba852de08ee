//! What comes of a run, in few words, with its status.
use crate::driver::{drive_into, host};
use crate::given::Given;
use crate::way::Way;
use just_run::{Collected, Entry, Fault, Outcome};
use std::alloc::{AllocError, Global};

/// Writes the entries: commands and what is shown.
fn tell(told: &mut String, entries: &[Entry]) -> Result<(), AllocError> {
    for entry in entries {
        let (mark, text) = match entry {
            Entry::Line(job, _) => ("", job.command.as_str()),
            Entry::Show(shown) => ("show ", shown.as_str()),
            _ => ("", "another"),
        };
        told.push_str(mark)?;
        told.push_str(text)?;
        told.push_str("; ")?;
    }
    Ok(())
}

/// The answer, with its status where it is a fault.
fn answer_text(alloc: Global, answer: Result<Outcome, Fault>) -> Result<String, AllocError> {
    match answer {
        Ok(Outcome::Ran) => String::from_str(alloc, "ran"),
        Ok(_) => String::from_str(alloc, "did not run"),
        Err(fault) => {
            let status = fault.status();
            format!(in alloc; "{fault} ({status})")
        }
    }
}

/// What is handed over and shown, each after the other, then what came of it.
pub(crate) fn told_plain(alloc: Global, way: Way<'_>, given: &Given) -> Result<String, AllocError> {
    let mut host = host(alloc, way);
    let mut out = Collected::new(alloc);
    let answer = drive_into(alloc, way, given, &mut host, &mut out);
    let answer = answer_text(alloc, answer)?;
    let mut told = String::new(alloc);
    tell(&mut told, host.entries())?;
    told.push_str(answer.as_str())?;
    Ok(told)
}
