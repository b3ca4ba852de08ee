//! What the escapes of a double quoted string stand for.
ghost use Rattle.std.specs.Prelude.{◌≡◌, ◌-◌, ◌≤◌, length, take};
ghost use Rattle.std.specs.Str.{IsCharBoundary};
ghost use Rattle.tree_expressions.specs.Escaping as spec;
ghost use Rattle.tree_expressions.specs.Answering.{Answers, IsRefusal};

use just_text::{CompileErrorKind, Text};
use std::alloc::Global;

/// The most digits that an escape has.
const MAX_DIGITS: u32 = 6;

/// How far an escape is read.
#[derive(Clone, Copy, PartialEq, Eq)]
pub enum Escape {
    Outside,
    /// After a backslash.
    Backslash,
    /// After `\u`.
    Unicode,
    /// After `\u{` and so many digits of this value.
    Digits(u32, u32),
}

/// What a character does.
#[derive(Clone, Copy, PartialEq, Eq)]
pub enum Step {
    /// It is this character, or ends an escape of it.
    Adds(char),
    /// It ends an escape of nothing.
    Skips,
    /// It is part of an escape.
    Reads(Escape),
    /// It makes what was begun no escape.
    Breaks,
}

fn behind_backslash(c: char) -> Step
    ensures step { result ≡ spec.behind_backslash c }
    ensures place { spec.LeadsOn result }
{
    match c {
        'u' => Step::Reads(Escape::Unicode),
        '\n' => Step::Skips,
        'n' => Step::Adds('\n'),
        'r' => Step::Adds('\r'),
        't' => Step::Adds('\t'),
        '"' => Step::Adds('"'),
        '\\' => Step::Adds('\\'),
        _ => Step::Breaks,
    }
}

fn behind_digits(count: u32, value: u32, c: char) -> Step
    requires { spec.IsDigits count value }
    ensures step { result ≡ spec.behind_digits count value c }
    ensures place { spec.LeadsOn result }
{
    if c == '}' {
        return match char::from_u32(value) {
            Some(d) if 0 < count => Step::Adds(d),
            _ => Step::Breaks,
        };
    }
    match c.to_digit(16) {
        Some(digit) if count < MAX_DIGITS => Step::Reads(Escape::Digits(
            count + 1,
            value * 16 + digit,
        )),
        _ => Step::Breaks,
    }
}

/// What a character does at its place.
#[tactic(auto, unfolding(crate::specs::Escaping::turn))]
fn turn(escape: Escape, c: char) -> Step
    requires { spec.IsPlace escape }
    ensures step { result ≡ spec.turn escape c }
    ensures place { spec.LeadsOn result }
{
    match escape {
        Escape::Outside if c == '\\' => Step::Reads(Escape::Backslash),
        Escape::Outside => Step::Adds(c),
        Escape::Backslash => behind_backslash(c),
        Escape::Unicode if c == '{' => Step::Reads(Escape::Digits(0, 0)),
        Escape::Unicode => Step::Breaks,
        Escape::Digits(count, value) => behind_digits(count, value, c),
    }
}

/// The refusal of an escape: the text up to where this rest begins.
fn refusal(alloc: Global, text: &str, rest: &str) -> CompileErrorKind
    requires { IsCharBoundary text.now (length text.now - length rest.now) }
    ensures { IsRefusal (take (length text.now - length rest.now) text.now) result }
{
    let escape = &text[..text.len().saturating_sub(rest.len())];
    match Text::from_text(alloc, escape) {
        Ok(escape) => CompileErrorKind::InvalidEscapeSequence(escape),
        Err(_) => CompileErrorKind::OutOfMemory,
    }
}

/// What the text inside of a double quoted string stands for.
///
/// Refused at the first backslash that begins no escape, and where memory runs out. The refusal has
/// the text from this backslash to the first character that fits no escape, or to the text's end.
pub fn unescape(alloc: Global, text: &str) -> Result<Text, CompileErrorKind>
    ensures { Answers (spec.unescaped text.now) result }
{
    let mut unescaped = String::new(alloc);
    let mut escape = Escape::Outside;
    let mut begun = text;
    let mut rest = text.chars();
    while let Some(c) = rest.next() {
        match turn(escape, c) {
            Step::Reads(next) => escape = next,
            Step::Breaks => return Err(refusal(alloc, begun, rest.as_str())),
            Step::Skips => {
                escape = Escape::Outside;
                begun = rest.as_str();
            }
            Step::Adds(d) => {
                if unescaped.push(d).is_err() {
                    return Err(CompileErrorKind::OutOfMemory);
                }
                escape = Escape::Outside;
                begun = rest.as_str();
            }
        }
    }
    match escape {
        Escape::Outside => Ok(Text::from_string(unescaped)),
        _ => Err(refusal(alloc, begun, "")),
    }
}
