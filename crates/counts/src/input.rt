//! What the program is given: the text on standard input, and how often it is read.

use anyhow::{Context, Result, anyhow};
use std::env;
use std::io::Read;

/// The text on standard input.
pub(crate) fn read_text(rt: &HostRuntime) -> Result<String> {
    let mut bytes = Vec::new(rt.alloc());
    rt.stdin()
        .read_to_end(&mut bytes)
        .context("could not read standard input")?;
    match String::from_utf8(bytes) {
        Ok(text) => Ok(text),
        Err(_) => Err(anyhow!("standard input is not UTF-8")),
    }
}

/// How often to read the text: what the second word says, or once.
pub(crate) fn rounds(rt: &HostRuntime) -> Result<u32> {
    let mut given = env::args(rt).context("could not read the words")?;
    let _name = given.next();
    let _counted = given.next();
    match given.next() {
        Some(word) => Ok(
            word.parse::<u32>()
                .context("the second word is not a number")?,
        ),
        None => Ok(1),
    }
}
