//! Lines of bodies.
ghost use Rattle.std.specs.Prelude.{◌≡◌, ◌++◌, [], IfOk, OnOk, map};
ghost use Rattle.std.specs.String.{string_bytes};
ghost use Rattle.evaluate_context.specs.Refusals.{seen_as};
ghost use Rattle.evaluate_expressions.specs.Situations.{stage_at, reading_at};
ghost use Rattle.just_host.specs.Kinds.{AsksQuestions};
ghost use Rattle.meaning_dialogues.specs.Dialogue.{Evaluates};
ghost use Rattle.meaning_evaluation.specs.Stages.Lines.{line_dialogue, piece_dialogue, piece_of, piece_text};

use evaluate_context::Error;
use evaluate_expressions::Evaluator;
use just_host::{Host, Recorded};
use std::alloc::{AllocError, Global};
use tree_expressions::halve;
use tree_items::{Fragment, Line};

/// A text of a body: four braces are replaced by two, and one that is trimmed loses its leading white
/// space.
fn body_text(alloc: Global, lexeme: &str, is_trimmed: bool) -> Result<String, AllocError>
    ensures { IfOk result (λ text. string_bytes text ≡ piece_text is_trimmed lexeme.now) }
{
    if is_trimmed {
        return halve(alloc, lexeme.trim_start());
    }
    halve(alloc, lexeme)
}

/// Puts the piece after the text: as it is where the text is empty.
fn put(text: &mut String, piece: String) -> Result<(), AllocError>
    ensures { OnOk result (string_bytes text.new ≡ string_bytes text.old ++ string_bytes piece) }
{
    if text.is_empty() {
        *text = piece;
        return Ok(());
    }
    text.push_str(piece.as_str())
}

/// The fragment's text, or its value, joined.
fn fragment_text<'src, H: Host + Drop>(
    alloc: Global,
    host: &mut Recorded<H>,
    evaluator: &Evaluator<'_, 'src>,
    fragment: &Fragment<'src>,
    is_trimmed: bool,
) -> Result<String, Error<'src>>
    ensures asks { AsksQuestions H.goes host.old host.new }
    ensures evaluates { Evaluates (reading_at evaluator.now) (piece_dialogue (stage_at evaluator.now) is_trimmed (piece_of fragment.now)) host.old.entries host.new.entries (seen_as string_bytes result) }
{
    match fragment {
        Fragment::Text { token } => Ok(body_text(alloc, token.lexeme(), is_trimmed)?),
        Fragment::Interpolation { expression } => {
            evaluator.evaluate_joined(alloc, host, expression)
        }
    }
}

/// The text of a body line with its sigils and a final backslash. One that goes on with the line
/// before loses the leading white space of its first fragment, if that is text.
pub(crate) fn line_text<'src, H: Host + Drop>(
    alloc: Global,
    host: &mut Recorded<H>,
    evaluator: &Evaluator<'_, 'src>,
    line: &Line<'src>,
    continued: bool,
) -> Result<String, Error<'src>>
    ensures asks { AsksQuestions H.goes host.old host.new }
    ensures evaluates { Evaluates (reading_at evaluator.now) (line_dialogue (stage_at evaluator.now) continued [] (map piece_of line.now.fragments.items)) host.old.entries host.new.entries (seen_as string_bytes result) }
{
    let mut text = String::new(alloc);
    let mut is_trimmed = continued;
    for fragment in &line.fragments {
        let piece = fragment_text(alloc, host, evaluator, fragment, is_trimmed)?;
        put(&mut text, piece)?;
        is_trimmed = false;
    }
    Ok(text)
}
