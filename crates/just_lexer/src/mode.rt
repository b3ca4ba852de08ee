//! What the tokens before a place say of it.

ghost use Rattle.std.specs.Prelude.{◌≡◌, ◌++◌, OnOk};
ghost use Rattle.just_lexer.specs.Modes as spec;

use crate::quotes::Quotes;
use crate::scan::bytes::first;
use crate::scan::strings::{ends_in_format_interpolation, quotes_at};
use just_text::{Delimiter, TokenKind};
use std::alloc::AllocFailed;

/// The white space that each line of a body begins with.
#[derive(Clone, Copy, Debug, PartialEq, Eq)]
pub enum Indentation {
    Spaces(usize),
    Tabs(usize),
}

/// What is open at a place.
#[derive(Clone, Copy, Debug, PartialEq, Eq)]
pub enum Open {
    Bracket(Delimiter),
    /// An expression of a body line.
    Interpolation,
    /// An expression of a format string with these quotes, and whether a bracket is open around it.
    FormatInterpolation(Quotes, bool),
}

/// Where in a line, and in or outside a body, a place is.
#[derive(Clone, Copy, Debug, PartialEq, Eq)]
pub enum Line {
    /// The start of the text, where a byte order mark may come.
    Begin,
    /// The first column of a line outside bodies, and whether a body may begin there.
    Start(bool),
    /// After nothing but white space or a comment line, and the same.
    Ahead(bool),
    /// Further in such a line, and whether a body may come after it.
    Inside(bool),
    /// The first column of a line in a body.
    BodyStart(Indentation),
    /// After the indentation of such a line.
    BodyLine(Indentation),
    /// After the last token.
    Over,
}

fn indentation_of(lexeme: &str) -> Indentation
    ensures { result ≡ spec.indentation_of lexeme.now }
{
    if first(lexeme.as_bytes()) == b' ' {
        Indentation::Spaces(lexeme.len())
    } else {
        Indentation::Tabs(lexeme.len())
    }
}

/// The innermost of what is open.
pub fn innermost(opened: &[Open]) -> Option<Open>
    ensures { result ≡ spec.innermost opened.now }
{
    opened.last().copied()
}

/// Whether a bracket is open, be it around a format string's expression.
pub fn in_brackets(inner: Option<Open>) -> bool
    ensures { result ≡ spec.in_brackets inner }
{
    match inner {
        Some(Open::Bracket(_)) => true,
        Some(Open::FormatInterpolation(_, around)) => around,
        _ => false,
    }
}

/// Opens an expression after a format string's start, unless the whole string is read.
fn open_format_interpolation(opened: &mut Vec<Open>, lexeme: &str) -> Result<(), AllocFailed<Open>>
    ensures { OnOk result (opened.new.items ≡ opened.old.items ++ spec.format_interpolations_of (spec.innermost opened.old.items) lexeme.now) }
{
    let bytes = lexeme.as_bytes();
    if !ends_in_format_interpolation(bytes.len(), bytes) {
        return Ok(());
    }
    let around = in_brackets(innermost(opened));
    opened.push(Open::FormatInterpolation(quotes_at(&bytes[1..]), around))
}

/// Opens and closes what a token does.
#[tactic(auto, unfolding(crate::specs::Modes::open_after))]
pub fn step_open(
    opened: &mut Vec<Open>,
    kind: TokenKind,
    lexeme: &str,
) -> Result<(), AllocFailed<Open>>
    ensures { OnOk result (opened.new.items ≡ spec.open_after opened.old.items kind lexeme.now) }
{
    match kind {
        TokenKind::ParenL => opened.push(Open::Bracket(Delimiter::Paren)),
        TokenKind::BracketL => opened.push(Open::Bracket(Delimiter::Bracket)),
        TokenKind::BraceL => opened.push(Open::Bracket(Delimiter::Brace)),
        TokenKind::InterpolationStart => opened.push(Open::Interpolation),
        TokenKind::FormatStringStart => open_format_interpolation(opened, lexeme),
        TokenKind::ParenR
        | TokenKind::BracketR
        | TokenKind::BraceR
        | TokenKind::InterpolationEnd
        | TokenKind::FormatStringEnd => {
            opened.pop();
            Ok(())
        }
        _ => Ok(()),
    }
}

/// The place after a token at the first column outside bodies.
#[tactic(auto, unfolding(crate::specs::Modes::start_after))]
fn start_after(body_may_come: bool, kind: TokenKind, lexeme: &str) -> Line
    ensures { result ≡ spec.start_after body_may_come kind lexeme.now }
{
    match kind {
        TokenKind::ByteOrderMark | TokenKind::Eol => Line::Start(body_may_come),
        TokenKind::Whitespace | TokenKind::Comment => Line::Ahead(body_may_come),
        TokenKind::Colon => Line::Inside(true),
        TokenKind::Indent if body_may_come => Line::BodyLine(indentation_of(lexeme)),
        TokenKind::Eof => Line::Over,
        _ => Line::Inside(false),
    }
}

impl Line {
    /// Whether the last token was taken.
    pub fn is_over(self) -> bool
        ensures { result ≡ spec.is_over self }
    {
        match self {
            Line::Over => true,
            _ => false,
        }
    }

    /// The place in the line after a token, of which `inner` was the innermost open.
    #[tactic(auto, unfolding(crate::specs::Modes::line_after))]
    pub fn after(self, inner: Option<Open>, kind: TokenKind, lexeme: &str) -> Line
        ensures { result ≡ spec.line_after self inner kind lexeme.now }
    {
        match self {
            Line::Begin => start_after(false, kind, lexeme),
            Line::Start(may) => start_after(may, kind, lexeme),
            Line::Ahead(may) => match kind {
                TokenKind::Eol => Line::Start(may),
                TokenKind::Whitespace => Line::Ahead(may),
                TokenKind::Colon => Line::Inside(true),
                TokenKind::Eof => Line::Over,
                _ => Line::Inside(false),
            },
            Line::Inside(may) => match kind {
                TokenKind::Eol if inner.is_some() => Line::Inside(false),
                TokenKind::Eol => Line::Start(may),
                TokenKind::Colon => Line::Inside(may || !in_brackets(inner)),
                TokenKind::Eof => Line::Over,
                _ => Line::Inside(may),
            },
            Line::BodyStart(indentation) | Line::BodyLine(indentation) => match kind {
                TokenKind::Eol => Line::BodyStart(indentation),
                TokenKind::Dedent => Line::Start(false),
                _ => Line::BodyLine(indentation),
            },
            Line::Over => Line::Over,
        }
    }
}
