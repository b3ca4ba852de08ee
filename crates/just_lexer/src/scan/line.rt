//! The token in a line outside bodies, or in an expression.

ghost use Rattle.std.specs.Prelude.{◌≡◌};
ghost use Rattle.just_lexer.specs.Lexing.{line_token, word_token, blank_token};
ghost use Rattle.just_lexer.specs.Modes.{in_brackets};

use crate::fault::Fault;
use crate::mode::{Open, in_brackets};
use crate::scan::bytes::{
    at_line_end, blank_len, first, is_blank, is_letter, is_quote, line_end_len, line_len, word_len,
};
use crate::scan::marks::mark_token;
use crate::scan::strings::{command_token, opens_string, string_token};
use just_text::TokenKind;

/// White space, a line end, a comment, or a mark.
#[tactic(auto, unfolding(crate::specs::Lexing::blank_token))]
fn blank_token(inner: Option<Open>, text: &[u8]) -> Result<(TokenKind, usize), Fault>
    ensures { result ≡ blank_token inner text.now }
{
    if is_blank(first(text)) {
        return Ok((TokenKind::Whitespace, blank_len(text)));
    }
    if at_line_end(text) {
        let kind = if in_brackets(inner) {
            TokenKind::Whitespace
        } else {
            TokenKind::Eol
        };
        return Ok((kind, line_end_len(text)));
    }
    if first(text) == b'#' {
        Ok((TokenKind::Comment, line_len(text)))
    } else {
        mark_token(inner, text)
    }
}

/// A string, a command or a name, or what else begins here.
#[tactic(auto, unfolding(crate::specs::Lexing::word_token))]
fn word_token(inner: Option<Open>, text: &[u8]) -> Result<(TokenKind, usize), Fault>
    ensures { result ≡ word_token inner text.now }
{
    let byte = first(text);
    if is_quote(byte) {
        string_token(TokenKind::StringToken, false, 0, text)
    } else if opens_string(b'x', text) {
        string_token(TokenKind::StringToken, false, 1, text)
    } else if opens_string(b'f', text) {
        string_token(TokenKind::FormatStringStart, true, 1, text)
    } else if byte == b'`' {
        command_token(text)
    } else if is_letter(byte) {
        Ok((TokenKind::Identifier, word_len(text)))
    } else {
        blank_token(inner, text)
    }
}

/// The token in a line outside bodies, or in an expression.
#[tactic(auto, unfolding(crate::specs::Lexing::line_token))]
pub fn line_token(inner: Option<Open>, text: &[u8]) -> Result<(TokenKind, usize), Fault>
    ensures { result ≡ line_token inner text.now }
{
    if text.is_empty() {
        Ok((TokenKind::Eof, 0))
    } else {
        word_token(inner, text)
    }
}
