//! Drives the files on standard input as the words after the first say, under a host that answers by
//! a script, and writes what comes of them: what tests/scripted compares.

use crate::input::read_text;
use anyhow::{Context, Result, bail};
use scripted_runs::{first_unknown, tell};
use std::env;

/// The words after the first.
fn read_words(rt: &HostRuntime) -> Result<Vec<String>> {
    let mut words = Vec::new(rt.alloc());
    let mut given = env::args(rt).context("could not read the words")?;
    let _name = given.next();
    let _counted = given.next();
    for word in given {
        words.push(word)?;
    }
    Ok(words)
}

/// Writes what comes of the files.
pub(crate) fn run(rt: &HostRuntime) -> Result<()> {
    let words = read_words(rt)?;
    if let Some(word) = first_unknown(&words) {
        bail!("the word '{word}' says nothing");
    }
    let files = read_text(rt)?;
    let outcome = tell(rt.alloc(), &words, &files)?;
    print!(rt; "{outcome}")?;
    Ok(())
}
