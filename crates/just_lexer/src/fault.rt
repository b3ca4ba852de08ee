//! Why no token stands at a place.

ghost use Rattle.std.specs.Prelude.{◌≡◌, IfOk, take, encode_utf8};
ghost use Rattle.std.specs.List.{flat_map};
ghost use Rattle.std.specs.Str.{chars};
ghost use Rattle.std.specs.String.{string_bytes};
ghost use Rattle.just_lexer.specs.Lexing as spec;

use just_text::{CompileErrorKind, Delimiter, Text};
use std::alloc::{AllocError, Global};

/// Why no token stands at a place.
#[derive(Clone, Copy, Debug, PartialEq, Eq)]
pub enum Fault {
    /// No token begins with the character.
    UnknownStart,
    /// The character is a mark only twice.
    Alone(char),
    UnclosedString,
    UnclosedCommand,
    UnclosedInterpolation,
    /// A backslash in front of anything but a line end.
    Escape,
    /// The bracket that is open, and the one that closes.
    Mismatched(Delimiter, Delimiter),
    Unexpected(Delimiter),
    UnpairedReturn,
    MixedIndentation,
    OtherIndentation,
}

/// The backslash at the front and the character after it.
fn escape(alloc: Global, rest: &str) -> Result<Text, AllocError>
    ensures { IfOk result (λ text. text ≡ flat_map encode_utf8 (take 2 (chars rest.now))) }
{
    let mut escape = String::new(alloc);
    for character in rest.chars().take(2) {
        escape.push(character)?;
    }
    Ok(Text::from_string(escape))
}

/// The refusal that a fault is, in front of the rest of the text.
pub fn kind_of(alloc: Global, fault: Fault, rest: &str) -> Result<CompileErrorKind, AllocError>
    ensures { IfOk result (λ kind. kind ≡ spec.kind_of fault rest.now) }
{
    Ok(match fault {
        Fault::UnknownStart => {
            let start = rest.chars().next().unwrap_or('\0');
            CompileErrorKind::UnknownStartOfToken(start)
        }
        Fault::Alone(expected) => CompileErrorKind::UnexpectedCharacter(expected),
        Fault::UnclosedString => CompileErrorKind::UnterminatedString,
        Fault::UnclosedCommand => CompileErrorKind::UnterminatedBacktick,
        Fault::UnclosedInterpolation => CompileErrorKind::UnterminatedInterpolation,
        Fault::Escape => CompileErrorKind::InvalidEscapeSequence(escape(alloc, rest)?),
        Fault::Mismatched(opener, closer) => {
            CompileErrorKind::MismatchedClosingDelimiter(opener, closer)
        }
        Fault::Unexpected(closer) => CompileErrorKind::UnexpectedClosingDelimiter(closer),
        Fault::UnpairedReturn => CompileErrorKind::UnpairedCarriageReturn,
        Fault::MixedIndentation => CompileErrorKind::MixedLeadingWhitespace,
        Fault::OtherIndentation => CompileErrorKind::InconsistentLeadingWhitespace,
    })
}
