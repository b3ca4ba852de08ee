//! Strings and what they stand for.
ghost use Rattle.std.specs.Prelude.{◌≡◌, ◌≢◌, IfErr, IfOk};
ghost use Rattle.just_text.specs.declared.compile_error.CompileErrorKind.TheVariants.{OutOfMemory};
ghost use Rattle.tree_expressions.specs.Answering.{Answers};
ghost use Rattle.tree_expressions.specs.Cooking as spec;
ghost use Rattle.tree_expressions.specs.Kinds.{kind_of};

use crate::escapes::unescape;
use crate::indentation::unindent;
use crate::string_kind::{StringDelimiter, StringKind, StringPrefix, contents};
use just_text::{CompileError, CompileErrorKind, ExpandFault, Expander, Text, Token};
use std::alloc::{AllocError, Global};
use std::fmt;

/// A string of a justfile. It prints as it is written.
#[derive(Drop)]
pub struct StringLiteral<'src> {
    /// The text that it stands for.
    pub cooked: Text,
    pub kind: StringKind,
    pub token: Token<'src>,
}

impl fmt::Display for StringLiteral<'_> {
    ghost use Rattle.std.specs.Prelude.{Some};
    ghost use Rattle.just_text.specs.Tokens.{lexeme};

    ghost output = { λ literal. Some (lexeme literal.token) };

    fn fmt<W: fmt::Write>(&self, f: &mut fmt::Formatter<W>) -> fmt::Result {
        f.write_str(self.token.lexeme())
    }
}

/// A text after one mark or three.
pub fn laid_out(alloc: Global, tripled: bool, text: &str) -> Result<Text, AllocError>
    ensures { IfOk result (λ laid_out. laid_out ≡ spec.laid_out tripled text.now) }
{
    if tripled {
        unindent(alloc, text)
    } else {
        Text::from_text(alloc, text)
    }
}

/// The text with its escapes read, if it stands in double quotes.
pub fn read_escapes(
    alloc: Global,
    delimiter: StringDelimiter,
    text: Text,
) -> Result<Text, CompileErrorKind>
    ensures { Answers (spec.read_escapes delimiter text) result }
{
    match delimiter {
        StringDelimiter::QuoteSingle => Ok(text),
        StringDelimiter::QuoteDouble => unescape(alloc, text.as_str()),
    }
}

/// The text, expanded if it stands after `x`.
fn expanded<E: Expander>(
    alloc: Global,
    prefix: StringPrefix,
    text: Text,
    expander: &E,
) -> Result<Text, CompileErrorKind>
    ensures { Answers (spec.expanded (E.expansion expander.now) prefix (Ok text)) result }
{
    if prefix != StringPrefix::Expand {
        return Ok(text);
    }
    match expander.expand(alloc, text.as_str()) {
        Ok(text) => Ok(text),
        Err(ExpandFault::Refused(why)) => Err(CompileErrorKind::ShellExpansion(why)),
        Err(ExpandFault::OutOfMemory) => Err(CompileErrorKind::OutOfMemory),
    }
}

/// What a string of this form stands for.
#[tactic(auto, unfolding(crate::specs::Cooking::cooked, crate::specs::Kinds::kind_of))]
fn cooked<E: Expander>(
    alloc: Global,
    kind: StringKind,
    lexeme: &str,
    expander: &E,
) -> Result<Text, CompileErrorKind>
    requires { kind ≡ kind_of lexeme.now }
    ensures { Answers (spec.cooked (E.expansion expander.now) lexeme.now) result }
{
    let Ok(text) = laid_out(alloc, kind.tripled, contents(kind, lexeme)) else {
        return Err(CompileErrorKind::OutOfMemory);
    };
    match read_escapes(alloc, kind.delimiter, text) {
        Ok(text) => expanded(alloc, kind.prefix, text, expander),
        Err(kind) => Err(kind),
    }
}

/// The refusal at a token; want of memory has no place.
pub fn refusal<'src>(token: Token<'src>, kind: CompileErrorKind) -> CompileError<'src>
    ensures kind { result.kind ≡ kind }
    ensures place { kind ≢ OutOfMemory → result.token ≡ token.entry }
{
    match kind {
        CompileErrorKind::OutOfMemory => CompileError::without_place(kind),
        _ => token.error(kind),
    }
}

impl<'src> StringLiteral<'src> {
    ghost use Rattle.just_text.specs.Tokens.{lexeme};
    ghost use Rattle.tree_expressions.specs.Kinds.{kind_of};
    ghost use Rattle.tree_expressions.specs.Literals.{cooked_of};

    /// Takes the token of a string; its text is unindented if three quotes open it, then its escapes
    /// are read if the quotes are double, and then it is expanded if `x` stands before them.
    ///
    /// Refused at a backslash that begins no escape, where the expander refuses the text, and where
    /// memory runs out; the refusal's place is the token, but for want of memory.
    pub fn cook<E: Expander>(
        alloc: Global,
        token: Token<'src>,
        expander: &E,
    ) -> Result<StringLiteral<'src>, CompileError<'src>>
        ensures cooked { Answers (spec.cooked (E.expansion expander.now) (lexeme token.entry)) (cooked_of result) }
        ensures kind { IfOk result (λ literal. literal.kind ≡ kind_of (lexeme token.entry)) }
        ensures token { IfOk result (λ literal. literal.token ≡ token.entry) }
        ensures place { IfErr result (λ error. error.kind ≢ OutOfMemory → error.token ≡ token.entry) }
    {
        let lexeme = token.lexeme();
        let kind = StringKind::of_lexeme(lexeme);
        match cooked(alloc, kind, lexeme, expander) {
            Ok(cooked) => Ok(StringLiteral {
                cooked,
                kind,
                token,
            }),
            Err(kind) => Err(refusal(token, kind)),
        }
    }
}
