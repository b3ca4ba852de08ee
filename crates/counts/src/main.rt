//! Counts what the first word says: the tokens or the items of the text on standard input, what comes
//! of lists of texts, or the bytes that tokens and the parts of trees take. benches/lex, benches/parse
//! and benches/values measure it. After `scripted` it writes what comes of files that are driven under a
//! host which answers by a script: tests/scripted compares it.
//!
//! A second word after `tokens` or `items` is how often it is done (default: once).
#![tactic(auto)]

mod input;
mod items;
mod keyed;
mod scripted;
mod sizes;
mod tokens;
mod values;

use anyhow::{Context, Result, bail};
use std::env;
use std::process::ExitCode;

/// What is counted.
#[derive(Clone, Copy)]
enum Counted {
    Tokens,
    Items,
    Values,
    Sizes,
    Scripted,
}

/// What the word names, if anything.
fn find_counted(word: &str) -> Option<Counted> {
    match word {
        "tokens" => Some(Counted::Tokens),
        "items" => Some(Counted::Items),
        "values" => Some(Counted::Values),
        "sizes" => Some(Counted::Sizes),
        "scripted" => Some(Counted::Scripted),
        _ => None,
    }
}

/// What the first word names.
fn read_counted(rt: &HostRuntime) -> Result<Option<Counted>> {
    let mut given = env::args(rt).context("could not read the words")?;
    let _name = given.next();
    match given.next() {
        Some(word) => Ok(find_counted(&word)),
        None => Ok(None),
    }
}

fn run(rt: &HostRuntime) -> Result<()> {
    match read_counted(rt)? {
        Some(Counted::Tokens) => tokens::run(rt),
        Some(Counted::Items) => items::run(rt),
        Some(Counted::Values) => values::run(rt),
        Some(Counted::Sizes) => sizes::run(rt),
        Some(Counted::Scripted) => scripted::run(rt),
        None => bail!("the first word is 'tokens', 'items', 'values', 'sizes' or 'scripted'"),
    }
}

fn main(rt: HostRuntime) -> ExitCode {
    match run(&rt) {
        Ok(()) => ExitCode::SUCCESS,
        Err(error) => {
            let _ = eprintln!(rt; "error: {error:#}");
            ExitCode::FAILURE
        }
    }
}
