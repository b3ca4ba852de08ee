//! Excerpts of places that no file has.

use just_lexer::Excerpt;
use just_text::{Token, TokenKind};
use std::alloc::Global;
use std::test::Fail;

/// A part of a source, if both its ends are between characters.
fn part<'src>(
    src: &'src str,
    offset: u32,
    length: u32,
    line: u32,
    column: u32,
) -> Option<Token<'src>> {
    let end = offset.checked_add(length)?;
    if !src.is_char_boundary(offset as usize) || !src.is_char_boundary(end as usize) {
        return None;
    }
    Some(Token {
        column,
        kind: TokenKind::Text,
        length,
        line,
        offset,
        path: "justfile",
        src,
    })
}

/// Whether the first line of what is printed of the token is that.
fn begins_with(alloc: Global, token: &Token, expected: &str) -> Result<bool, Fail> {
    let printed = format!(in alloc; "{}", Excerpt(token))?;
    Ok(match printed.as_str().split_once('\n') {
        Some((first, _)) => first == expected,
        None => false,
    })
}

#[test]
fn numbers_do_not_end_at_the_largest(rt: HostRuntime) -> Result<(), Fail> {
    let token = part("x", 0, 1, u32::MAX, u32::MAX).ok_or("cut inside a character")?;
    let expected = "          --> justfile:4294967296:4294967296";
    assert!(rt; begins_with(rt.alloc(), &token, expected)?);
    Ok(())
}
