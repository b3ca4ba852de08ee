//! Parses the justfile on standard input as often as the second word says, and prints how many items
//! it has, or why it is refused: what benches/parse measures.

use crate::input::{read_text, rounds};
use anyhow::{Result, anyhow};
use justfile_syntax::{ExpandFault, Expander, Numerator, Parser, Text};
use semver::Version;
use std::alloc::Global;

/// Gives each text as it is.
struct Unexpanded;

impl Expander for Unexpanded {
    ghost use Rattle.std.specs.Prelude.{Ok};

    ghost expansion = { λ _ text. Ok text };

    fn expand(&self, alloc: Global, text: &str) -> Result<Text, ExpandFault> {
        Ok(Text::from_text(alloc, text)?)
    }
}

/// How many items the justfile has.
fn count(alloc: Global, version: &Version, source: &str) -> Result<usize> {
    let mut numerator = Numerator::new(29);
    match Parser::parse_source(
        alloc,
        "justfile",
        source,
        &Unexpanded,
        version,
        &mut numerator,
    ) {
        Ok(file) => Ok(file.items.len()),
        Err(error) => Err(anyhow!("{} in line {}", error.kind, error.token.line)),
    }
}

/// Parses standard input as often as asked, and prints how many items it has.
pub(crate) fn run(rt: &HostRuntime) -> Result<()> {
    let source = read_text(rt)?;
    let version = Version::new(1, 58, 0);
    let mut items = 0;
    for _ in 0..rounds(rt)? {
        items = count(rt.alloc(), &version, &source)?;
    }
    println!(rt; "{items}")?;
    Ok(())
}
