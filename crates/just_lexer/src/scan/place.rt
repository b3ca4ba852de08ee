//! The token at a place.

ghost use Rattle.std.specs.Prelude.{◌≡◌};
ghost use Rattle.just_lexer.specs.Modes.{has_indentation, indent_width};
ghost use Rattle.just_lexer.specs.Lexing as spec;

use crate::fault::Fault;
use crate::mode::{Indentation, Line, Open};
use crate::scan::bytes::{
    at_byte_order_mark, at_line_end, blank_len, breaks_off, first, is_blank, is_blank_line,
    is_mixed, line_end_len, run_len, text_len,
};
use crate::scan::line::line_token;
use just_text::TokenKind;

fn has_indentation(indentation: Indentation, text: &[u8]) -> bool
    ensures { result ≡ has_indentation indentation text.now }
{
    match indentation {
        Indentation::Spaces(width) => width <= run_len(text, b' '),
        Indentation::Tabs(width) => width <= run_len(text, b'\t'),
    }
}

fn indent_width(indentation: Indentation) -> usize
    ensures { result ≡ indent_width indentation }
{
    match indentation {
        Indentation::Spaces(width) | Indentation::Tabs(width) => width,
    }
}

#[tactic(auto, unfolding(crate::specs::Lexing::start_token))]
fn start_token(
    body_may_come: bool,
    inner: Option<Open>,
    text: &[u8],
) -> Result<(TokenKind, usize), Fault>
    ensures { result ≡ spec.start_token body_may_come inner text.now }
{
    if !is_blank(first(text)) || is_blank_line(text) {
        line_token(inner, text)
    } else if body_may_come && is_mixed(text) {
        Err(Fault::MixedIndentation)
    } else {
        Ok((TokenKind::Indent, blank_len(text)))
    }
}

#[tactic(auto, unfolding(crate::specs::Lexing::begin_token))]
fn begin_token(inner: Option<Open>, text: &[u8]) -> Result<(TokenKind, usize), Fault>
    ensures { result ≡ spec.begin_token inner text.now }
{
    if at_byte_order_mark(text) {
        Ok((TokenKind::ByteOrderMark, 3))
    } else {
        start_token(false, inner, text)
    }
}

#[tactic(auto, unfolding(crate::specs::Lexing::body_start_token))]
fn body_start_token(indentation: Indentation, text: &[u8]) -> Result<(TokenKind, usize), Fault>
    ensures { result ≡ spec.body_start_token indentation text.now }
{
    if at_line_end(text) {
        Ok((TokenKind::Eol, line_end_len(text)))
    } else if !is_blank(first(text)) {
        Ok((TokenKind::Dedent, 0))
    } else if is_blank_line(text) {
        Ok((TokenKind::Whitespace, blank_len(text)))
    } else if has_indentation(indentation, text) {
        Ok((TokenKind::Whitespace, indent_width(indentation)))
    } else {
        Err(Fault::OtherIndentation)
    }
}

#[tactic(auto, unfolding(crate::specs::Lexing::body_line_token))]
fn body_line_token(text: &[u8]) -> Result<(TokenKind, usize), Fault>
    ensures { result ≡ spec.body_line_token text.now }
{
    if text.is_empty() {
        return Ok((TokenKind::Dedent, 0));
    }
    if at_line_end(text) {
        return Ok((TokenKind::Eol, line_end_len(text)));
    }
    match text_len(text) {
        0 => Ok((TokenKind::InterpolationStart, 2)),
        length => Ok((TokenKind::Text, length)),
    }
}

#[tactic(auto, unfolding(crate::specs::Lexing::interpolation_token))]
fn interpolation_token(inner: Option<Open>, text: &[u8]) -> Result<(TokenKind, usize), Fault>
    ensures { result ≡ spec.interpolation_token inner text.now }
{
    if breaks_off(text) {
        Err(Fault::UnclosedInterpolation)
    } else {
        line_token(inner, text)
    }
}

/// The kind and the length of the token at the front of the text.
#[tactic(auto, unfolding(crate::specs::Lexing::token_at))]
pub fn token_at(line: Line, inner: Option<Open>, text: &[u8]) -> Result<(TokenKind, usize), Fault>
    ensures { result ≡ spec.token_at line inner text.now }
{
    match line {
        Line::Begin => begin_token(inner, text),
        Line::Start(body_may_come) => start_token(body_may_come, inner, text),
        Line::Ahead(_) | Line::Inside(_) => line_token(inner, text),
        Line::BodyStart(indentation) => body_start_token(indentation, text),
        Line::BodyLine(_) if inner.is_some() => interpolation_token(inner, text),
        Line::BodyLine(_) => body_line_token(text),
        Line::Over => Ok((TokenKind::Eof, 0)),
    }
}
