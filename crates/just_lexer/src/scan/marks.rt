//! Marks at the front of a text.

ghost use Rattle.std.specs.Prelude.{◌≡◌};
ghost use Rattle.just_lexer.specs.Lexing as spec;

use crate::fault::Fault;
use crate::mode::Open;
use crate::scan::bytes::{at_closing_braces, continued_len, first, second};
use crate::scan::strings::{ended_len, part_token};
use just_text::{Delimiter, TokenKind};

/// The shorter mark, or the two that go on with another byte.
fn mark_of(
    shorter: TokenKind,
    a: u8,
    with_a: TokenKind,
    b: u8,
    with_b: TokenKind,
    byte: u8,
) -> Result<(TokenKind, usize), Fault>
    ensures { result ≡ spec.mark_of shorter a with_a b with_b byte }
{
    if byte == a {
        Ok((with_a, 2))
    } else if byte == b {
        Ok((with_b, 2))
    } else {
        Ok((shorter, 1))
    }
}

fn twice(kind: TokenKind, a: u8, byte: u8) -> Result<(TokenKind, usize), Fault>
    ensures { result ≡ spec.twice kind a byte }
{
    if byte == a {
        Ok((kind, 2))
    } else {
        Err(Fault::Alone(char::from(a)))
    }
}

fn single_kind(byte: u8) -> Option<TokenKind>
    ensures { result ≡ spec.single_kind byte }
{
    match byte {
        b'$' => Some(TokenKind::Dollar),
        b'(' => Some(TokenKind::ParenL),
        b'*' => Some(TokenKind::Asterisk),
        b',' => Some(TokenKind::Comma),
        b'/' => Some(TokenKind::Slash),
        b'?' => Some(TokenKind::QuestionMark),
        b'@' => Some(TokenKind::At),
        b'[' => Some(TokenKind::BracketL),
        b'{' => Some(TokenKind::BraceL),
        _ => None,
    }
}

fn closer_of(byte: u8) -> Option<Delimiter>
    ensures { result ≡ spec.closer_of byte }
{
    match byte {
        b')' => Some(Delimiter::Paren),
        b']' => Some(Delimiter::Bracket),
        b'}' => Some(Delimiter::Brace),
        _ => None,
    }
}

fn closer_kind(closer: Delimiter) -> TokenKind
    ensures { result ≡ spec.closer_kind closer }
{
    match closer {
        Delimiter::Paren => TokenKind::ParenR,
        Delimiter::Bracket => TokenKind::BracketR,
        Delimiter::Brace => TokenKind::BraceR,
    }
}

fn close_token(inner: Option<Open>, closer: Delimiter) -> Result<(TokenKind, usize), Fault>
    ensures { result ≡ spec.close_token inner closer }
{
    match inner {
        Some(Open::Bracket(opener)) => {
            if opener.close() == closer.close() {
                Ok((closer_kind(closer), 1))
            } else {
                Err(Fault::Mismatched(opener, closer))
            }
        }
        _ => Err(Fault::Unexpected(closer)),
    }
}

/// A closing mark: two braces may end an expression.
#[tactic(auto, unfolding(crate::specs::Lexing::closing_token))]
fn closing_token(
    inner: Option<Open>,
    closer: Delimiter,
    text: &[u8],
) -> Result<(TokenKind, usize), Fault>
    ensures { result ≡ spec.closing_token inner closer text.now }
{
    if !at_closing_braces(text) {
        return close_token(inner, closer);
    }
    match inner {
        Some(Open::Interpolation) => Ok((TokenKind::InterpolationEnd, 2)),
        Some(Open::FormatInterpolation(quotes, _)) => part_token(
            ended_len(true, quotes, 2, text),
            text,
        ),
        _ => close_token(inner, closer),
    }
}

/// A backslash, a carriage return, or what no token begins with.
#[tactic(auto, unfolding(crate::specs::Lexing::other_token))]
fn other_token(text: &[u8]) -> Result<(TokenKind, usize), Fault>
    ensures { result ≡ spec.other_token text.now }
{
    let continued = continued_len(text);
    if 0 < continued {
        return Ok((TokenKind::Whitespace, 1 + continued));
    }
    match first(text) {
        b'\\' => Err(Fault::Escape),
        b'\r' => Err(Fault::UnpairedReturn),
        _ => Err(Fault::UnknownStart),
    }
}

/// A mark of one byte, or one that closes.
#[tactic(auto, unfolding(crate::specs::Lexing::single_token))]
fn single_token(inner: Option<Open>, text: &[u8]) -> Result<(TokenKind, usize), Fault>
    ensures { result ≡ spec.single_token inner text.now }
{
    let byte = first(text);
    match single_kind(byte) {
        Some(kind) => Ok((kind, 1)),
        None => match closer_of(byte) {
            Some(closer) => closing_token(inner, closer, text),
            None => other_token(text),
        },
    }
}

/// A mark.
#[tactic(auto, unfolding(crate::specs::Lexing::mark_token))]
pub fn mark_token(inner: Option<Open>, text: &[u8]) -> Result<(TokenKind, usize), Fault>
    ensures { result ≡ spec.mark_token inner text.now }
{
    use TokenKind as Kind;

    let next = second(text);
    match first(text) {
        b':' => mark_of(
            Kind::Colon,
            b':',
            Kind::ColonColon,
            b'=',
            Kind::ColonEquals,
            next,
        ),
        b'=' => mark_of(
            Kind::Equals,
            b'=',
            Kind::EqualsEquals,
            b'~',
            Kind::EqualsTilde,
            next,
        ),
        b'!' => mark_of(
            Kind::Bang,
            b'=',
            Kind::BangEquals,
            b'~',
            Kind::BangTilde,
            next,
        ),
        b'+' => mark_of(Kind::Plus, b'+', Kind::PlusPlus, b'+', Kind::PlusPlus, next),
        b'&' => twice(Kind::AmpersandAmpersand, b'&', next),
        b'|' => twice(Kind::BarBar, b'|', next),
        _ => single_token(inner, text),
    }
}
