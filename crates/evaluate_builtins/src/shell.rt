//! The function that runs a command.
ghost use Rattle.std.specs.Prelude.{◌≡◌, ◌∷◌, [], IfOk, List, ℕ, map};
ghost use Rattle.std.specs.String.{string_bytes};
ghost use Rattle.evaluate_builtins.specs.Builtins.{shell_dialogue, unrun_call};
ghost use Rattle.evaluate_builtins.specs.Named.{named};
ghost use Rattle.evaluate_builtins.specs.Sites.{standing_of};
ghost use Rattle.evaluate_context.specs.Surroundings.{surroundings_of};
ghost use Rattle.evaluate_functions.specs.Functions.{first_text};
ghost use Rattle.just_host.specs.Kinds.{AsksQuestions};
ghost use Rattle.meaning_dialogues.specs.Dialogue.{Evaluates, Reading};

use crate::asked::text_answer;
use crate::command::command_output;
use crate::site::CallSite;
use evaluate_functions::{FunctionFault, text_at, text_of};
use just_host::{Host, Recorded};
use just_value::Value;
use std::alloc::{AllocError, Global};

/// What the command prints: the first argument is the command, and all of them are its positional
/// words. In a dry run the call itself is the answer, and nothing is asked.
pub(crate) fn shell<H: Host + Drop>(
    alloc: Global,
    host: &mut Recorded<H>,
    site: &CallSite,
    arguments: &[Value],
) -> Result<Value, FunctionFault>
    ensures asks { AsksQuestions H.goes host.old host.new }
    ensures evaluates { (name : List ℕ) (reading : Reading) → Evaluates reading (shell_dialogue name (surroundings_of site.now.context.now) (standing_of site.now) arguments.now (surroundings_of site.now.context.now).dry_run) host.old.entries host.new.entries (named name result) }
{
    if site.context.config.dry_run {
        return Ok(unrun(alloc, arguments)?);
    }
    let words = texts(alloc, arguments)?;
    let CallSite {
        context,
        env,
        scope,
        ..
    } = *site;
    let command = text_at(arguments, 0);
    let answer = command_output(alloc, host, context, env, scope, command, words.as_slice())?;
    text_answer(alloc, answer)
}

/// The arguments' texts.
fn texts(alloc: Global, arguments: &[Value]) -> Result<Vec<String>, AllocError>
    ensures { IfOk result (λ texts. map string_bytes texts.items ≡ map first_text arguments.now) }
{
    let mut texts = Vec::new(alloc);
    for argument in arguments {
        texts.push(String::from_str(alloc, text_of(argument))?)?;
    }
    Ok(texts)
}

/// The call as it is printed where nothing is run.
fn unrun(alloc: Global, arguments: &[Value]) -> Result<Value, AllocError>
    ensures { IfOk result (λ value. value ≡ unrun_call arguments.now ∷ []) }
{
    match arguments {
        [] => Value::from_text(alloc, "shell()"),
        [first, others @ ..] => Value::from_string(alloc, unrun_text(alloc, first, others)?),
    }
}

fn unrun_text(alloc: Global, first: &Value, others: &[Value]) -> Result<String, AllocError>
    ensures { IfOk result (λ text. string_bytes text ≡ unrun_call (first.now ∷ others.now)) }
{
    let mut text = format!(in alloc; "shell({first}")?;
    for argument in others {
        let printed = format!(in alloc; ", {argument}")?;
        text.push_str(printed.as_str())?;
    }
    text.push(')')?;
    Ok(text)
}
