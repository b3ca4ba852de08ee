//! Prints how many bytes a token and the parts of trees take: what benches/parse shows.

use anyhow::Result;
use just_value::Bound;
use justfile_syntax::{Attribute, Expression, Item, Parameter, StringLiteral, Token};

/// The parts, each with its bytes.
const SIZES: [(&str, usize); 7] = [
    ("token", size_of::<Token>()),
    ("string", size_of::<StringLiteral>()),
    ("expression", size_of::<Expression>()),
    ("attribute", size_of::<Attribute>()),
    ("parameter", size_of::<Parameter>()),
    ("item", size_of::<Item>()),
    ("binding", size_of::<Bound>()),
];

/// Writes a line for each part.
pub(crate) fn run(rt: &HostRuntime) -> Result<()> {
    for (part, bytes) in SIZES {
        println!(rt; "{part} {bytes}")?;
    }
    Ok(())
}
