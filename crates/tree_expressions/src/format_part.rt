//! Parts of format strings.
ghost use Rattle.std.specs.Prelude.{◌≡◌, ◌≢◌, IfErr, IfOk};
ghost use Rattle.std.specs.String.{string_bytes};
ghost use Rattle.just_text.specs.Tokens.{lexeme};
ghost use Rattle.just_text.specs.declared.compile_error.CompileErrorKind.TheVariants.{OutOfMemory};
ghost use Rattle.tree_expressions.specs.Answering.{Answers};
ghost use Rattle.tree_expressions.specs.Literals.{kind_told};
ghost use Rattle.tree_expressions.specs.Parts as spec;

use crate::cut;
use crate::string_kind::StringKind;
use crate::string_literal::{read_escapes, refusal};
use just_text::{CompileError, CompileErrorKind, Text, Token};
use std::alloc::{AllocError, Global};

/// The text of a part after `}}`, or after what opens the string.
fn behind_opening<'a>(mark: &str, part: &'a str) -> &'a str
    ensures { result.now ≡ spec.behind_opening mark.now part.now }
{
    if cut::begins(part, "}}") {
        cut::without_front(part, "}}")
    } else {
        cut::without_front(cut::without_front(part, "f"), mark)
    }
}

/// The text of a part before `{{`, or before what closes the string.
fn before_closing<'a>(mark: &str, part: &'a str) -> &'a str
    ensures { result.now ≡ spec.before_closing mark.now part.now }
{
    if cut::ends(part, "{{") {
        cut::without_back(part, "{{")
    } else {
        cut::without_back(part, mark)
    }
}

/// The text with `{{` for each `{{{{`, from the left.
pub fn halve(alloc: Global, text: &str) -> Result<String, AllocError>
    ensures { IfOk result (λ halved. string_bytes halved ≡ spec.halved text.now) }
{
    let mut halved = String::new(alloc);
    let mut rest = text;
    while let Some((before, after)) = rest.split_once("{{{{") {
        halved.push_str(before)?;
        halved.push_str("{{")?;
        rest = after;
    }
    halved.push_str(rest)?;
    Ok(halved)
}

/// What a part stands for.
#[tactic(auto, unfolding(crate::specs::Parts::cooked_part))]
fn cooked_part(alloc: Global, kind: StringKind, part: &str) -> Result<Text, CompileErrorKind>
    ensures { Answers (spec.cooked_part kind part.now) result }
{
    let mark = kind.mark();
    match halve(alloc, before_closing(mark, behind_opening(mark, part))) {
        Ok(text) => read_escapes(alloc, kind.delimiter, Text::from_string(text)),
        Err(_) => Err(CompileErrorKind::OutOfMemory),
    }
}

/// Takes the kind of a format string, by its first token, and the token of one of its parts, and
/// gives the text that stands between the part's marks: `{{` stands for each `{{{{`, from the left,
/// and then escapes are read if the quotes are double. A part is never unindented: that is done once
/// the parts are joined.
///
/// Refused at a backslash that begins no escape, and where memory runs out; the refusal's place is
/// the token, but for want of memory.
pub fn cook_part<'src>(
    alloc: Global,
    kind: StringKind,
    part: Token<'src>,
) -> Result<Text, CompileError<'src>>
    ensures cooked { Answers (spec.cooked_part kind (lexeme part.entry)) (kind_told result) }
    ensures place { IfErr result (λ error. error.kind ≢ OutOfMemory → error.token ≡ part.entry) }
{
    match cooked_part(alloc, kind, part.lexeme()) {
        Ok(cooked) => Ok(cooked),
        Err(kind) => Err(refusal(part, kind)),
    }
}
