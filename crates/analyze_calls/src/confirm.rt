//! Confirmations.
ghost use Rattle.std.specs.Prelude.{◌≡◌, ℕ, IfErr, IfOk, List, Some, None};
ghost use Rattle.std.specs.Option.{option_map};
ghost use Rattle.std.specs.String.{string_bytes};
ghost use Rattle.just_text.specs.Tokens.{lexeme};
ghost use Rattle.tree_attributes.specs.declared.attribute.AttributeKind.TheVariants.{Confirm};
ghost use Rattle.just_host.specs.Kinds.{AsksQuestions};
ghost use Rattle.evaluate_expressions.specs.Situations.{reading_at, stage_at};
ghost use Rattle.meaning_dialogues.specs.Dialogue.{Reading};
ghost use Rattle.meaning_dialogues.specs.Evaluation.{Stage};
ghost use Rattle.meaning_runs.specs.Failures.{confirmed};
ghost use Rattle.laws_evaluation.specs.Bodies.Performing.{Performs};
ghost use Rattle.justfile_evaluator.specs.Ended.{IsTold, ended};
ghost use Rattle.justfile_evaluator.specs.Sites.{attribute_in};
ghost use Rattle.analyze_calls.specs.Asked.{AsksUser};
ghost use Rattle.analyze_calls.specs.Confirming as spec;
ghost use Rattle.analyze_calls.specs.Confirming.{asking, confirming, prompt_in, usual_prompt, with_text};

use just_host::{Confirmation, Recorded, RunHost};
use just_text::Name;
use justfile_evaluator::{Evaluator, RunFault};
use std::alloc::{AllocError, Global};
use tree_attributes::{Attribute, AttributeKind, AttributeSet};
use tree_expressions::Expression;
use tree_items::{Recipe, UnresolvedDependency};

/// The prompt's text.
fn prompt_text<'src, H: RunHost + Drop>(
    alloc: Global,
    host: &mut Recorded<H>,
    evaluator: &Evaluator<'_, 'src>,
    prompt: &Expression<'src>,
) -> Result<String, RunFault<'src>>
    ensures asks { AsksQuestions H.goes host.old host.new }
    ensures performs { (recipe : List ℕ) → Performs (reading_at evaluator.now) (spec.prompt_text (stage_at evaluator.now) recipe (Some prompt.now)) host.old host.new (with_text result) }
    ensures told { IfErr result IsTold }
{
    let value = evaluator.evaluate_value(alloc, host, prompt)?;
    Ok(value.join(alloc)?)
}

/// What is asked where no prompt is given.
fn plain_prompt(alloc: Global, recipe: Name) -> Result<String, AllocError>
    ensures { IfOk result (λ text. string_bytes text ≡ usual_prompt (lexeme recipe.entry.token)) }
{
    format!(in alloc; "Run recipe `{recipe}`?")
}

/// What an attribute of confirmation asks, if there is one: its prompt, if that has one.
fn prompt_of<'a, 'src>(attributes: &'a AttributeSet<'src>) -> Option<Option<&'a Expression<'src>>>
    ensures { option_map (option_map (λ prompt. prompt.now)) result ≡ prompt_in (attribute_in Confirm attributes.now) }
{
    match attributes.get(AttributeKind::Confirm) {
        Some(Attribute::Confirm(Some(prompt))) => Some(Some(prompt)),
        Some(_) => Some(None),
        None => None,
    }
}

/// Whether the recipe runs after the user's answer.
fn judged<'src>(answer: Confirmation, recipe: Name<'src>) -> Result<(), RunFault<'src>>
    ensures is { ended result ≡ confirmed (lexeme recipe.entry.token) answer }
    ensures told { IfErr result IsTold }
{
    match answer {
        Confirmation::Yes => Ok(()),
        Confirmation::No | Confirmation::Failed => Err(RunFault::NotConfirmed(recipe)),
    }
}

/// Asks the user by the prompt.
fn ask<'src, H: RunHost + Drop>(
    host: &mut Recorded<H>,
    prompt: &str,
    recipe: Name<'src>,
) -> Result<(), RunFault<'src>>
    ensures asks { AsksUser H.goes host.old host.new }
    ensures performs { (reading : Reading) → Performs reading (asking (lexeme recipe.entry.token) prompt.now) host.old host.new (ended result) }
    ensures told { IfErr result IsTold }
{
    let answer = host.confirm(prompt);
    judged(answer, recipe)
}

/// Asks the user by the prompt's value.
fn ask_written<'src, H: RunHost + Drop>(
    alloc: Global,
    host: &mut Recorded<H>,
    evaluator: &Evaluator<'_, 'src>,
    recipe: Name<'src>,
    prompt: &Expression<'src>,
) -> Result<(), RunFault<'src>>
    ensures asks { AsksUser H.goes host.old host.new }
    ensures performs { Performs (reading_at evaluator.now) (confirming (stage_at evaluator.now) (lexeme recipe.entry.token) (Some (Some prompt.now))) host.old host.new (ended result) }
    ensures told { IfErr result IsTold }
{
    let text = prompt_text(alloc, host, evaluator, prompt)?;
    ask(host, text.as_str(), recipe)
}

/// Asks the user by the usual words.
fn ask_usual<'src, H: RunHost + Drop>(
    alloc: Global,
    host: &mut Recorded<H>,
    recipe: Name<'src>,
) -> Result<(), RunFault<'src>>
    ensures asks { AsksUser H.goes host.old host.new }
    ensures performs { (reading : Reading) (stage : Stage) → Performs reading (confirming stage (lexeme recipe.entry.token) (Some None)) host.old host.new (ended result) }
    ensures told { IfErr result IsTold }
{
    let text = plain_prompt(alloc, recipe)?;
    ask(host, text.as_str(), recipe)
}

/// Asks the user whether the recipe runs, where it wants to be confirmed.
pub(crate) fn confirm<'src, H: RunHost + Drop>(
    alloc: Global,
    host: &mut Recorded<H>,
    evaluator: &Evaluator<'_, 'src>,
    recipe: &Recipe<'src, UnresolvedDependency<'src>>,
) -> Result<(), RunFault<'src>>
    ensures asks { AsksUser H.goes host.old host.new }
    ensures performs { Performs (reading_at evaluator.now) (confirming (stage_at evaluator.now) (lexeme recipe.now.name.token) (prompt_in (attribute_in Confirm recipe.now.attributes))) host.old host.new (ended result) }
    ensures told { IfErr result IsTold }
{
    match prompt_of(&recipe.attributes) {
        Some(Some(prompt)) => ask_written(alloc, host, evaluator, recipe.name, prompt),
        Some(None) => ask_usual(alloc, host, recipe.name),
        None => Ok(()),
    }
}
