//! Interpreters.
ghost use Rattle.std.specs.Prelude.{◌≡◌, ◌≢◌, ◌∷◌, Bool, Err, IfOk, map};
ghost use Rattle.std.specs.String.{string_bytes};
ghost use Rattle.just_text.specs.Tokens.{lexeme};
ghost use Rattle.evaluate_context.specs.Refusals.{seen_as};
ghost use Rattle.evaluate_expressions.specs.Interpreters.{words_of};
ghost use Rattle.evaluate_expressions.specs.Known.{BodiesKnownBy, TermsKnownBy};
ghost use Rattle.evaluate_expressions.specs.Situations.{stage_at, reading_at};
ghost use Rattle.just_host.specs.Kinds.{AsksQuestions};
ghost use Rattle.meaning_dialogues.specs.Calls.{DefinedFunction};
ghost use Rattle.meaning_dialogues.specs.Dialogue.{Evaluates};
ghost use Rattle.meaning_dialogues.specs.Evaluation.{dialogues, interpreter_dialogue, interpreter_words};
ghost use Rattle.meaning_dialogues.specs.Faults.{memory};
ghost use Rattle.meaning_dialogues.specs.Terms.{terms_of};
ghost use Rattle.laws_evaluation.specs.Soundness.Endings.{NotInternal};

use crate::evaluator::Evaluator;
use evaluate_context::Error;
use just_host::{Host, Recorded};
use just_text::{Name, Text};
use just_value::{ConstEvalError, Value};
use std::alloc::{AllocError, Global};
use tree_attributes::Interpreter;
use tree_expressions::Expression;

impl<'run, 'src> Evaluator<'run, 'src> {
    /// The elements of all values in order: the first is the command, the others are its arguments.
    /// None at all is refused as `EmptyInterpreter` of the setting or attribute that is named.
    pub fn evaluate_interpreter<H: Host + Drop>(
        &self,
        alloc: Global,
        host: &mut Recorded<H>,
        interpreter: &Interpreter<Expression<'src>>,
        setting: Name<'src>,
    ) -> Result<Interpreter<Text>, Error<'src>>
        ensures asks { AsksQuestions H.goes host.old host.new }
        ensures evaluates { Evaluates (reading_at self.now) (interpreter_dialogue (lexeme setting.entry.token) (dialogues (stage_at self.now) (terms_of (interpreter.now.command ∷ interpreter.now.arguments.items)))) host.old.entries host.new.entries (seen_as words_of result) }
        ensures known { (reached : DefinedFunction → Bool) → BodiesKnownBy self.now reached → TermsKnownBy self.now reached (terms_of (interpreter.now.command ∷ interpreter.now.arguments.items)) → NotInternal (seen_as words_of result) }
    {
        self.interpreter_text(alloc, host, interpreter, setting)
    }

    /// The elements of all values in order.
    fn interpreter_text<H: Host + Drop>(
        &self,
        alloc: Global,
        host: &mut Recorded<H>,
        interpreter: &Interpreter<Expression<'src>>,
        setting: Name<'src>,
    ) -> Result<Interpreter<Text>, Error<'src>>
        ensures asks { AsksQuestions H.goes host.old host.new }
        ensures evaluates { Evaluates (reading_at self.now) (interpreter_dialogue (lexeme setting.entry.token) (dialogues (stage_at self.now) (terms_of (interpreter.now.command ∷ interpreter.now.arguments.items)))) host.old.entries host.new.entries (seen_as words_of result) }
    {
        let mut words = self.evaluate_value(alloc, host, &interpreter.command)?;
        for argument in &interpreter.arguments {
            let value = self.evaluate_value(alloc, host, argument)?;
            words.append(value)?;
        }
        interpreter_of(alloc, words.elements(), setting)
    }
}

/// The interpreter of these words.
fn interpreter_of<'src>(
    alloc: Global,
    words: &[String],
    setting: Name<'src>,
) -> Result<Interpreter<Text>, Error<'src>>
    ensures { seen_as words_of result ≢ Err memory → seen_as words_of result ≡ interpreter_words (lexeme setting.entry.token) (map string_bytes words.now) }
{
    let Some((command, others)) = words.split_first() else {
        return Err(Error::Const(ConstEvalError::EmptyInterpreter { setting }));
    };
    Ok(Interpreter {
        command: Text::from_text(alloc, command.as_str())?,
        arguments: copies(alloc, others)?,
    })
}

fn copies(alloc: Global, words: &[String]) -> Result<Vec<Text>, AllocError>
    ensures { IfOk result (λ texts. texts.items ≡ map string_bytes words.now) }
{
    let mut texts = Vec::new(alloc);
    for word in words {
        texts.push(Text::from_text(alloc, word.as_str())?)?;
    }
    Ok(texts)
}
