//! What lexing and parsing make of a text, in words.
use crate::files::Unchanged;
use just_lexer::Lexer;
use just_text::{CompileError, Token, TokenKind};
use justfile_syntax::{Ast, Numerator, Parser};
use semver::Version;
use std::alloc::{AllocError, Global};

/// A letter for the token's kind, or the mark itself.
fn letter<'src>(token: &Token<'src>) -> &'src str {
    match token.kind {
        TokenKind::Backtick => "b",
        TokenKind::ByteOrderMark => "^",
        TokenKind::Comment => "#",
        TokenKind::Dedent => "<",
        TokenKind::Eof => ".",
        TokenKind::Eol => "n",
        TokenKind::FormatStringContinue => "m",
        TokenKind::FormatStringEnd => "e",
        TokenKind::FormatStringStart => "f",
        TokenKind::Identifier => "i",
        TokenKind::Indent => ">",
        TokenKind::StringToken => "s",
        TokenKind::Text => "t",
        TokenKind::Whitespace => "w",
        _ => token.lexeme(),
    }
}

/// What is told of a text's tokens.
#[derive(Clone, Copy)]
pub enum Subject {
    /// Their letters.
    Kinds,
    /// Their texts, a bar after each.
    Lexemes,
    /// Their places and texts.
    Places,
    /// Nothing: the refusal and its place alone.
    Refusal,
}

fn kinds(alloc: Global, tokens: &[Token]) -> Result<String, AllocError> {
    let mut text = String::new(alloc);
    for token in tokens {
        text.push_str(letter(token))?;
    }
    Ok(text)
}

fn lexemes(alloc: Global, tokens: &[Token]) -> Result<String, AllocError> {
    let mut text = String::new(alloc);
    for token in tokens {
        text.push_str(token.lexeme())?;
        text.push('|')?;
    }
    Ok(text)
}

fn places(alloc: Global, tokens: &[Token]) -> Result<String, AllocError> {
    let mut text = String::new(alloc);
    for token in tokens {
        let lexeme = token.lexeme();
        write!(
            text,
            "{}:{}:{} {lexeme:?};",
            token.line, token.column, token.offset
        )?;
    }
    Ok(text)
}

fn refusal(alloc: Global, error: &CompileError) -> Result<String, AllocError> {
    let place = error.token;
    format!(in alloc;
        "{} at {}:{}:{}",
        error.kind, place.line, place.column, place.offset
    )
}

fn tokens_told(alloc: Global, subject: Subject, tokens: &[Token]) -> Result<String, AllocError> {
    match subject {
        Subject::Kinds => kinds(alloc, tokens),
        Subject::Lexemes => lexemes(alloc, tokens),
        Subject::Places => places(alloc, tokens),
        Subject::Refusal => Ok(String::new(alloc)),
    }
}

/// What is told of the text's tokens, or why it is refused, and where: the line, the column and the
/// byte, all from 0.
pub fn told_tokens(alloc: Global, subject: Subject, text: &str) -> Result<String, AllocError> {
    match Lexer::lex(alloc, "justfile", text) {
        Ok(tokens) => tokens_told(alloc, subject, tokens.as_slice()),
        Err(error) => refusal(alloc, &error),
    }
}

/// The file as it is printed.
fn printed(alloc: Global, file: Ast) -> Result<String, AllocError> {
    file.to_string(alloc)
}

/// The file as it is printed, or its refusal.
pub fn told_printed(alloc: Global, text: &str) -> Result<String, AllocError> {
    let version = Version::new(1, 58, 0);
    let mut numerator = Numerator::new(29);
    match Parser::parse_source(
        alloc,
        "justfile",
        text,
        &Unchanged,
        &version,
        &mut numerator,
    ) {
        Ok(file) => printed(alloc, file),
        Err(error) => error.kind.to_string(alloc),
    }
}
