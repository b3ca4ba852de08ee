//! Strings and commands at the front of a text.

ghost use Rattle.std.specs.Prelude.{◌≡◌, ◌+◌, ◌≤◌, false, length, drop};
ghost use Rattle.just_lexer.specs.Strings as spec;
ghost use Rattle.just_lexer.specs.Lexing.{sized, part_token};
ghost use Rattle.just_lexer.specs.declared.fault.Fault.TheVariants.{UnclosedString, UnclosedCommand};
ghost use Rattle.just_text.specs.declared.token_kind.TokenKind.TheVariants.{Backtick};

use crate::fault::Fault;
use crate::quotes::{Quote, Quotes};
use crate::scan::bytes::{at_braces, byte_at, first, is_quote, opens_format_interpolation, second};
use just_text::TokenKind;

fn at_three(text: &[u8]) -> bool
    ensures { result ≡ spec.at_three text.now }
{
    second(text) == first(text) && byte_at(text, 2) == first(text)
}

/// The quotes that open here: three if there are three.
pub fn quotes_at(text: &[u8]) -> Quotes
    ensures { result ≡ spec.quotes_at text.now }
{
    Quotes {
        quote: Quote::from_byte(first(text)),
        tripled: at_three(text),
    }
}

fn at_quotes(quotes: Quotes, text: &[u8]) -> bool
    ensures { result ≡ spec.at_quotes quotes text.now }
{
    first(text) == quotes.quote.byte() && (!quotes.tripled || at_three(text))
}

fn ends_part(is_format: bool, quotes: Quotes, text: &[u8]) -> bool
    ensures { result ≡ spec.ends_part is_format quotes text.now }
{
    at_quotes(quotes, text) || is_format && opens_format_interpolation(text)
}

fn part_takes(is_format: bool, quotes: Quotes, text: &[u8]) -> usize
    ensures { result ≡ spec.part_takes is_format quotes text.now }
{
    if quotes.has_escapes() && first(text) == b'\\' {
        1
    } else if is_format && at_braces(text) {
        3
    } else {
        0
    }
}

/// How many bytes stand in front of the part's end, or of the end of the text.
fn part_len(is_format: bool, quotes: Quotes, text: &[u8]) -> usize
    ensures { result ≡ spec.part_len is_format quotes text.now }
{
    let mut skip: usize = 0;
    for i in 0..text.len() {
        if skip > 0 {
            skip -= 1;
            continue;
        }
        let rest = &text[i..];
        if ends_part(is_format, quotes, rest) {
            return i;
        }
        skip = part_takes(is_format, quotes, rest);
    }
    text.len()
}

fn end_len(quotes: Quotes, text: &[u8]) -> usize
    ensures { result ≡ spec.end_len quotes text.now }
{
    if at_quotes(quotes, text) {
        quotes.len()
    } else {
        2
    }
}

/// The length up to and with the end of the part after `start` bytes, or 0 where it has none.
#[tactic(auto, unfolding(crate::specs::Strings::ended_len))]
pub fn ended_len(is_format: bool, quotes: Quotes, start: usize, text: &[u8]) -> usize
    requires { start ≤ length text.now }
    ensures { result ≡ spec.ended_len is_format quotes start text.now }
{
    let rest = &text[start..];
    let length = part_len(is_format, quotes, rest);
    if length < rest.len() {
        start + length + end_len(quotes, &rest[length..])
    } else {
        0
    }
}

/// The same where quotes open after `letters` bytes.
fn opened_len(is_format: bool, letters: usize, text: &[u8]) -> usize
    requires { letters + spec.quotes_len (spec.quotes_at (drop letters text.now)) ≤ length text.now }
    ensures { result ≡ spec.opened_len is_format letters text.now }
{
    let quotes = quotes_at(&text[letters..]);
    ended_len(is_format, quotes, letters + quotes.len(), text)
}

pub fn opens_string(letter: u8, text: &[u8]) -> bool
    ensures { result ≡ spec.opens_string letter text.now }
{
    first(text) == letter && is_quote(second(text))
}

pub fn ends_in_format_interpolation(length: usize, text: &[u8]) -> bool
    ensures { result ≡ spec.ends_in_format_interpolation length text.now }
{
    byte_at(text, length.saturating_sub(1)) == b'{'
}

/// A token of this length, unless it is 0.
fn sized(kind: TokenKind, fault: Fault, length: usize) -> Result<(TokenKind, usize), Fault>
    ensures { result ≡ sized kind fault length }
{
    if length == 0 {
        Err(fault)
    } else {
        Ok((kind, length))
    }
}

/// A string of this kind, whose quotes open after `letters` bytes.
pub fn string_token(
    kind: TokenKind,
    is_format: bool,
    letters: usize,
    text: &[u8],
) -> Result<(TokenKind, usize), Fault>
    requires { letters + spec.quotes_len (spec.quotes_at (drop letters text.now)) ≤ length text.now }
    ensures { result ≡ sized kind UnclosedString (spec.opened_len is_format letters text.now) }
{
    let length = opened_len(is_format, letters, text);
    sized(kind, Fault::UnclosedString, length)
}

/// A command, whose quotes open here.
pub fn command_token(text: &[u8]) -> Result<(TokenKind, usize), Fault>
    requires { spec.quotes_len (spec.quotes_at text.now) ≤ length text.now }
    ensures { result ≡ sized Backtick UnclosedCommand (spec.opened_len false 0 text.now) }
{
    let length = opened_len(false, 0, text);
    sized(TokenKind::Backtick, Fault::UnclosedCommand, length)
}

/// The part of a format string after an expression in it.
pub fn part_token(length: usize, text: &[u8]) -> Result<(TokenKind, usize), Fault>
    ensures { result ≡ part_token length text.now }
{
    let kind = if ends_in_format_interpolation(length, text) {
        TokenKind::FormatStringContinue
    } else {
        TokenKind::FormatStringEnd
    };
    sized(kind, Fault::UnclosedString, length)
}
