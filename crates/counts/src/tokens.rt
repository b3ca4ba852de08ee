//! Cuts standard input into tokens as often as the second word says, and prints their number and a
//! digest of their places: what benches/lex measures.

use crate::input::{read_text, rounds};
use anyhow::Result;
use just_lexer::Lexer;
use just_text::Token;

/// A number that differs where places do.
fn digest(tokens: &[Token]) -> u64 {
    let mut sum: u64 = 0;
    for token in tokens {
        for part in [token.offset, token.length, token.line, token.column] {
            sum = sum.wrapping_mul(31).wrapping_add(u64::from(part));
        }
    }
    sum
}

/// Cuts standard input into tokens as often as asked, and prints their number and digest, or where
/// the text is refused.
pub(crate) fn run(rt: &HostRuntime) -> Result<()> {
    let source = read_text(rt)?;
    let mut count = 0;
    let mut sum = 0;
    for _ in 0..rounds(rt)? {
        match Lexer::lex(rt.alloc(), "justfile", &source) {
            Ok(tokens) => {
                count = tokens.len();
                sum = digest(&tokens);
            }
            Err(error) => {
                println!(rt; "error at {}", error.token.offset)?;
                return Ok(());
            }
        }
    }
    println!(rt; "{count} {sum}")?;
    Ok(())
}
