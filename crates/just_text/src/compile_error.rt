//! Why a source is refused.
ghost use Rattle.std.specs.Prelude.{Some};

use crate::delimiter::Delimiter;
use crate::text::Text;
use crate::token::Token;
use crate::token_kind::TokenKind;
use std::alloc::{AllocError, AllocFailed};
use std::fmt;

/// What is wrong with a source. It prints its name in lower case, and its fields between backticks.
#[derive(Debug, Drop)]
pub enum CompileErrorKind {
    /// Memory ran out. It has no place in the source.
    OutOfMemory,
    /// No 32-bit number is left for a binding or a recipe. It has no place in the source.
    NumbersUsed,
    /// No token begins with this character.
    UnknownStartOfToken(char),
    /// This character is expected after the one before, which is no token alone.
    UnexpectedCharacter(char),
    /// A string that no mark closes.
    UnterminatedString,
    /// A command that no mark closes.
    UnterminatedBacktick,
    /// An interpolation of a body that does not end in its line.
    UnterminatedInterpolation,
    /// A backslash and what stands after it, which no rule reads.
    InvalidEscapeSequence(Text),
    /// The bracket that is open, and another that closes.
    MismatchedClosingDelimiter(Delimiter, Delimiter),
    /// A closing bracket where none is open.
    UnexpectedClosingDelimiter(Delimiter),
    /// Why the text of a string after `x` is not expanded.
    ShellExpansion(Text),
    /// A carriage return outside strings, comments and commands, and no newline after it.
    UnpairedCarriageReturn,
    /// The white space that begins a body has both spaces and tabs.
    MixedLeadingWhitespace,
    /// A body line begins with other white space than the body does.
    InconsistentLeadingWhitespace,
    /// A body line begins with more white space than the body does.
    ExtraLeadingWhitespace,
    /// No rule of the grammar takes this token here.
    UnexpectedToken(TokenKind),
    /// An expression that nests deeper than 256 levels.
    ParsingRecursionDepthExceeded,
    /// A command that begins with `#!`.
    BacktickShebang,
    /// No setting has this name.
    UnknownSetting(Text),
    /// No attribute has this name.
    UnknownAttribute(Text),
    /// An attribute, and a number of arguments that it doesn't take.
    AttributeArgumentCount(Text, usize),
    /// An attribute, and the name of the item that it doesn't fit.
    InvalidAttribute(Text, Text),
    /// An attribute that an item has twice, though it may have one.
    DuplicateAttribute(Text),
    /// The name of two parameters.
    DuplicateParameter(Text),
    /// A parameter after one that takes all values that remain.
    ParameterFollowsVariadic(Text),
    /// A parameter without a default after one that has one.
    RequiredParameterFollowsDefault(Text),
    /// The version that the file asks for, and the lower one that reads it.
    MinimumVersion(Text, Text),
    /// A body line that begins with both marks, the guard's and that of infallible lines.
    GuardAndInfallible,
    /// A dependency with more than one starred argument.
    TwoStars,
    /// A setting, and a text that is no value of it.
    InvalidSetting(Text, Text),
}

/// A refusal and its place.
#[derive(Debug, Drop)]
pub struct CompileError<'src> {
    pub token: Token<'src>,
    pub kind: CompileErrorKind,
}

impl<'src> CompileError<'src> {
    ghost use Rattle.std.specs.Prelude.{◌≡◌};
    ghost use Rattle.just_text.specs.Tokens.{place_of};

    /// A refusal that has no place: it stands at the start of an empty text.
    pub fn without_place(kind: CompileErrorKind) -> CompileError<'static>
        ensures { result.kind ≡ kind }
    {
        CompileError {
            token: Token {
                column: 0,
                kind: TokenKind::Eof,
                length: 0,
                line: 0,
                offset: 0,
                path: "",
                src: "",
            },
            kind,
        }
    }

    /// Where the refusal stands. Want of memory and of numbers has no place.
    pub fn place(&self) -> Option<Token<'src>>
        ensures { result ≡ place_of self.now }
    {
        match self.kind {
            CompileErrorKind::OutOfMemory | CompileErrorKind::NumbersUsed => None,
            _ => Some(self.token),
        }
    }
}

impl CompileErrorKind {
    ghost use Rattle.std.specs.Prelude.{◌≡◌};
    ghost use Rattle.std.specs.Fmt.{WritesOnOk};
    ghost use Rattle.just_text.specs.Fields.{fields_behind};
    ghost use Rattle.just_text.specs.Texts.{error_fields, error_name};

    /// Its name, without what it names.
    fn name(&self) -> &'static str
        ensures { result.now ≡ error_name self.now }
    {
        match self {
            CompileErrorKind::OutOfMemory => "out of memory",
            CompileErrorKind::NumbersUsed => "numbers used",
            CompileErrorKind::UnknownStartOfToken(_) => "unknown start of token",
            CompileErrorKind::UnexpectedCharacter(_) => "unexpected character",
            CompileErrorKind::UnpairedCarriageReturn => "unpaired carriage return",
            CompileErrorKind::UnterminatedString => "unterminated string",
            CompileErrorKind::UnterminatedBacktick => "unterminated backtick",
            CompileErrorKind::UnterminatedInterpolation => "unterminated interpolation",
            CompileErrorKind::InvalidEscapeSequence(_) => "invalid escape sequence",
            CompileErrorKind::MixedLeadingWhitespace => "mixed leading whitespace",
            CompileErrorKind::InconsistentLeadingWhitespace => "inconsistent leading whitespace",
            CompileErrorKind::ExtraLeadingWhitespace => "extra leading whitespace",
            CompileErrorKind::UnexpectedToken(_) => "unexpected token",
            CompileErrorKind::MismatchedClosingDelimiter(_, _) => "mismatched closing delimiter",
            CompileErrorKind::UnexpectedClosingDelimiter(_) => "unexpected closing delimiter",
            CompileErrorKind::ShellExpansion(_) => "shell expansion",
            CompileErrorKind::ParsingRecursionDepthExceeded => "parsing recursion depth exceeded",
            CompileErrorKind::BacktickShebang => "backtick shebang",
            CompileErrorKind::UnknownSetting(_) => "unknown setting",
            CompileErrorKind::UnknownAttribute(_) => "unknown attribute",
            CompileErrorKind::AttributeArgumentCount(_, _) => "attribute argument count",
            CompileErrorKind::InvalidAttribute(_, _) => "invalid attribute",
            CompileErrorKind::DuplicateAttribute(_) => "duplicate attribute",
            CompileErrorKind::DuplicateParameter(_) => "duplicate parameter",
            CompileErrorKind::ParameterFollowsVariadic(_) => "parameter follows variadic",
            CompileErrorKind::RequiredParameterFollowsDefault(_) =>
                "required parameter follows default",
            CompileErrorKind::MinimumVersion(_, _) => "minimum version",
            CompileErrorKind::GuardAndInfallible => "guard and infallible",
            CompileErrorKind::TwoStars => "two stars",
            CompileErrorKind::InvalidSetting(_, _) => "invalid setting",
        }
    }

    /// Writes what it names after its name.
    fn write_fields<W: fmt::Write>(&self, f: &mut fmt::Formatter<W>) -> fmt::Result
        ensures { WritesOnOk W.write_str_gives f.old result (fields_behind (error_fields self.now)) f.new }
    {
        match self {
            CompileErrorKind::UnknownStartOfToken(found)
            | CompileErrorKind::UnexpectedCharacter(found) => write!(f, ": `{found}`"),
            CompileErrorKind::UnexpectedToken(found) => write!(f, ": `{found}`"),
            CompileErrorKind::MismatchedClosingDelimiter(opener, closer) => {
                let opener = opener.open();
                let closer = closer.close();
                write!(f, ": `{opener}`, `{closer}`")
            }
            CompileErrorKind::UnexpectedClosingDelimiter(closer) => {
                let closer = closer.close();
                write!(f, ": `{closer}`")
            }
            CompileErrorKind::AttributeArgumentCount(name, found) => write!(
                f,
                ": `{name}`, `{found}`"
            ),
            CompileErrorKind::InvalidAttribute(first, second)
            | CompileErrorKind::MinimumVersion(first, second)
            | CompileErrorKind::InvalidSetting(first, second) => write!(
                f,
                ": `{first}`, `{second}`"
            ),
            CompileErrorKind::InvalidEscapeSequence(text)
            | CompileErrorKind::ShellExpansion(text)
            | CompileErrorKind::UnknownSetting(text)
            | CompileErrorKind::UnknownAttribute(text)
            | CompileErrorKind::DuplicateAttribute(text)
            | CompileErrorKind::DuplicateParameter(text)
            | CompileErrorKind::ParameterFollowsVariadic(text)
            | CompileErrorKind::RequiredParameterFollowsDefault(text) => write!(f, ": `{text}`"),
            _ => Ok(()),
        }
    }
}

impl fmt::Display for CompileErrorKind {
    ghost use Rattle.just_text.specs.Texts.{error_text};

    ghost output = { λ kind. Some (error_text kind) };

    fn fmt<W: fmt::Write>(&self, f: &mut fmt::Formatter<W>) -> fmt::Result {
        f.write_str(self.name())?;
        self.write_fields(f)
    }
}

impl fmt::Display for CompileError<'_> {
    ghost use Rattle.just_text.specs.Texts.{error_text};

    ghost output = { λ error. Some (error_text error.kind) };

    fn fmt<W: fmt::Write>(&self, f: &mut fmt::Formatter<W>) -> fmt::Result {
        write!(f, "{}", self.kind)
    }
}

impl std::error::Error for CompileErrorKind {}

impl std::error::Error for CompileError<'_> {}

impl<'src> From<AllocError> for CompileError<'src> {
    ghost use Rattle.std.specs.Prelude.{◌≡◌};
    ghost use Rattle.just_text.specs.declared.compile_error.CompileErrorKind.TheVariants.{OutOfMemory};

    ghost from_gives = { λ _ e. e.kind ≡ OutOfMemory };

    fn from(_refused: AllocError) -> CompileError<'src> {
        CompileError::without_place(CompileErrorKind::OutOfMemory)
    }
}

impl<'src, T: Drop> From<AllocFailed<T>> for CompileError<'src> {
    ghost use Rattle.std.specs.Prelude.{◌≡◌};
    ghost use Rattle.just_text.specs.declared.compile_error.CompileErrorKind.TheVariants.{OutOfMemory};

    ghost from_gives = { λ _ e. e.kind ≡ OutOfMemory };

    fn from(_refused: AllocFailed<T>) -> CompileError<'src> {
        CompileError::without_place(CompileErrorKind::OutOfMemory)
    }
}
