//! Tokens and names of whole texts, and lists of texts.

use just_text::{Name, Token, TokenKind};
use std::alloc::{AllocError, Global};

/// The token of a whole text, which has less than 4 GiB.
pub(crate) fn token(src: &str, kind: TokenKind) -> Token<'_> {
    Token {
        column: 0,
        kind,
        length: u32::try_from(src.len()).unwrap_or(0),
        line: 0,
        offset: 0,
        path: "justfile",
        src,
    }
}

/// The name of a whole text.
pub(crate) fn name(src: &str) -> Name<'_> {
    Name::from_token(token(src, TokenKind::Identifier))
}

/// Texts that each end with a semicolon.
pub(crate) fn texts(alloc: Global, listed: &str) -> Result<Vec<String>, AllocError> {
    let mut texts = Vec::new(alloc);
    for text in listed.split(';') {
        texts.push(String::from_str(alloc, text)?)?;
    }
    let _behind = texts.pop();
    Ok(texts)
}
