//! Commands that a shell runs.
ghost use Rattle.std.specs.Prelude.{◌≡◌, ◌∷◌, ◌⊎◌, Err, IfOk, None, false, map, option_map};
ghost use Rattle.std.specs.String.{string_bytes};
ghost use Rattle.evaluate_builtins.specs.Commands.{command_question, printed_in, trimmed};
ghost use Rattle.evaluate_context.specs.Environments.{IsEnvironmentIn};
ghost use Rattle.evaluate_context.specs.Shells.{shell_words};
ghost use Rattle.evaluate_context.specs.Surroundings.{job_of, standing_in, surroundings_of};
ghost use Rattle.just_host.specs.Kinds.{AsksQuestions};
ghost use Rattle.just_host.specs.declared.host.HostFault.TheVariants.{Memory};
ghost use Rattle.meaning_dialogues.specs.Answers as answers;
ghost use Rattle.meaning_dialogues.specs.Answers.{IsAnswered, MayAsk};

use crate::asked::ask_text;
use evaluate_context::{ExecutionContext, JobEnvironment};
use just_host::{CommandJob, Host, HostFault, JobTemplate, Pair, Question, Recorded, Shared};
use just_text::{Sequence, Text};
use just_value::Scope;
use std::alloc::{AllocError, Global};

/// What commands in this folder have in common: the module's shell, these words, and the
/// environment of the frames around the scope's innermost one.
pub fn job_template(
    alloc: Global,
    context: &ExecutionContext,
    env: &[Pair],
    scope: &Scope,
    folder: Option<&str>,
    positional: &[String],
) -> Result<JobTemplate, AllocError>
    ensures shell { IfOk result (λ template. template.shell ≡ shell_words (option_map string_bytes context.now.config.now.shell) (option_map (λ arguments. map string_bytes arguments.items) context.now.config.now.shell_args) (option_map (λ i. i.command ∷ i.arguments.items) context.now.module.now.settings.now.shell)) }
    ensures positional { IfOk result (λ template. template.positional ≡ map string_bytes positional.now) }
    ensures folder { IfOk result (λ template. template.folder ≡ option_map (λ f. f.now) folder.entry) }
    ensures quiet { IfOk result (λ template. template.quiet ≡ context.now.config.now.quiet) }
    ensures environment { IfOk result (λ template. IsEnvironmentIn context.now env.now scope.now template.pairs template.removed) }
{
    let JobEnvironment { pairs, removed } = context.job_environment(alloc, env, scope)?;
    let shell = context.module.settings.shell(alloc, context.config)?;
    Ok(JobTemplate {
        shell: Shared::new(alloc, shell)?,
        positional: Shared::new(alloc, copied(alloc, positional)?)?,
        pairs: Shared::new(alloc, pairs)?,
        removed: Shared::new(alloc, removed)?,
        folder: Shared::new(alloc, optional(alloc, folder)?)?,
        quiet: context.config.quiet,
    })
}

fn copied(alloc: Global, texts: &[String]) -> Result<Sequence<Text>, AllocError>
    ensures { IfOk result (λ copies. copies ≡ map string_bytes texts.now) }
{
    let mut copies = Sequence::new(alloc);
    for text in texts {
        copies.push(Text::from_text(alloc, text.as_str())?)?;
    }
    Ok(copies)
}

fn optional(alloc: Global, text: Option<&str>) -> Result<Option<Text>, AllocError>
    ensures { IfOk result (λ copy. copy ≡ option_map (λ t. t.now) text.entry) }
{
    match text {
        Some(text) => Ok(Some(Text::from_text(alloc, text)?)),
        None => Ok(None),
    }
}

/// The job of a command in an expression: it runs in the module's folder.
fn expression_job(
    alloc: Global,
    context: &ExecutionContext,
    env: &[Pair],
    scope: &Scope,
    command: &str,
    positional: &[String],
) -> Result<CommandJob, AllocError>
    ensures { IfOk result (λ job. job ≡ job_of (surroundings_of context.now) (standing_in context.now env.now scope.now false None) command.now (map string_bytes positional.now)) }
{
    let folder = context.working_directory(alloc)?;
    let folder = Some(folder.as_str());
    let template = job_template(alloc, context, env, scope, folder, positional)?;
    template.job(Text::from_text(alloc, command)?)
}

/// The text without one line end at its end.
fn without_line_end(text: &str) -> &str
    ensures { result.now ≡ answers.without_line_end text.now }
{
    match text.strip_suffix("\r\n") {
        Some(line) => line,
        None => text.strip_suffix("\n").unwrap_or(text),
    }
}

/// The text without one line end at its end, or the fault.
fn printed(
    alloc: Global,
    answer: Result<Text, HostFault>,
) -> Result<Result<Text, HostFault>, AllocError>
    ensures { IfOk result (λ text. text ≡ trimmed answer) }
{
    match answer {
        Ok(text) => Ok(Ok(Text::from_text(alloc, without_line_end(text.as_str()))?)),
        Err(fault) => Ok(Err(fault)),
    }
}

/// What the command prints in the module's folder, without one line end at its end, or the host's
/// fault; one question. Refused where memory is, memory's fault of the host's own aside.
pub fn command_output<H: Host + Drop>(
    alloc: Global,
    host: &mut Recorded<H>,
    context: &ExecutionContext,
    env: &[Pair],
    scope: &Scope,
    command: &str,
    positional: &[String],
) -> Result<Result<Text, HostFault>, AllocError>
    ensures asks { AsksQuestions H.goes host.old host.new }
    ensures begun { MayAsk (command_question context.now env.now scope.now command.now (map string_bytes positional.now)) host.old.entries host.new.entries }
    ensures answered { IfOk result (IsAnswered (command_question context.now env.now scope.now command.now (map string_bytes positional.now)) printed_in host.old.entries host.new.entries) }
{
    let job = expression_job(alloc, context, env, scope, command, positional)?;
    let answer = ask_text(alloc, host, &Question::Command(job))?;
    printed(alloc, answer)
}

/// What the command prints in the module's folder, without one line end at its end; one question.
/// Want of memory is memory's fault.
pub fn run_command<H: Host + Drop>(
    alloc: Global,
    host: &mut Recorded<H>,
    context: &ExecutionContext,
    env: &[Pair],
    scope: &Scope,
    command: &str,
    positional: &[String],
) -> Result<Text, HostFault>
    ensures asks { AsksQuestions H.goes host.old host.new }
    ensures begun { MayAsk (command_question context.now env.now scope.now command.now (map string_bytes positional.now)) host.old.entries host.new.entries }
    ensures answered { (result ≡ Err Memory) ⊎ IsAnswered (command_question context.now env.now scope.now command.now (map string_bytes positional.now)) printed_in host.old.entries host.new.entries result }
{
    match command_output(alloc, host, context, env, scope, command, positional) {
        Ok(told) => told,
        Err(_) => Err(HostFault::Memory),
    }
}
