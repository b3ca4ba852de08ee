//! The command that the words are.
ghost use Rattle.std.specs.Prelude.{◌≡◌, IfOk};
ghost use Rattle.run_tasks.specs.Kinds.{AsksCommand};
ghost use Rattle.run_tasks.specs.Commands as spec;
ghost use Rattle.run_tasks.specs.Commands.{Commands, IsEnd, words_job};

use crate::fault::{CommandFault, TaskFault};
use crate::task::Performed;
use evaluate_context::{ExecutionContext, JobEnvironment};
use just_host::{CommandJob, Recorded, RunHost, Shared, Status};
use just_text::{Sequence, Text};
use std::alloc::{AllocError, Global};

fn copied(alloc: Global, words: &[Text]) -> Result<Sequence<Text>, AllocError>
    ensures { IfOk result (λ copies. copies ≡ words.now) }
{
    let mut copies = Sequence::new(alloc);
    for word in words {
        copies.push(word.clone()?)?;
    }
    Ok(copies)
}

/// The words as a command of its own, with the module's environment and folder.
fn job(
    alloc: Global,
    context: &ExecutionContext,
    command: &Text,
    words: &[Text],
) -> Result<CommandJob, AllocError>
    ensures { IfOk result (λ job. job ≡ words_job context.now command.now words.now) }
{
    let scope = context.scope.child(alloc)?;
    let JobEnvironment { pairs, removed } = context.job_environment(alloc, &[], &scope)?;
    drop(scope);
    let folder = Text::from_string(context.working_directory(alloc)?);
    Ok(CommandJob {
        shell: Shared::new(alloc, Sequence::new(alloc))?,
        command: command.clone()?,
        positional: Shared::new(alloc, copied(alloc, words)?)?,
        pairs: Shared::new(alloc, pairs)?,
        removed: Shared::new(alloc, removed)?,
        folder: Shared::new(alloc, Some(folder))?,
        quiet: context.config.quiet,
    })
}

/// Whether nothing is to be said of a command that ended so, where the setting `no-exit-message` is
/// this.
fn is_unsaid(no_exit_message: bool, status: Status) -> bool
    ensures { result ≡ spec.is_unsaid no_exit_message status }
{
    match status {
        Status::Code(_) | Status::Signal(_) => no_exit_message,
        Status::NotStarted => false,
    }
}

/// What came of the command. Nothing is to be said of a code or a signal where the setting
/// `no-exit-message` is true.
fn ended<'src>(
    context: &ExecutionContext,
    command: &Text,
    status: Status,
) -> Result<Performed, TaskFault<'src>>
    ensures { IsEnd context.now.module.now.settings.now.no_exit_message command.now status result }
{
    if status == Status::Code(0) {
        return Ok(Performed::Ran);
    }
    Err(TaskFault::Command(CommandFault {
        word: command.clone()?,
        status,
        is_silent: is_unsaid(context.module.settings.no_exit_message, status),
    }))
}

/// Hands the words over as one command, none in a dry run.
pub(crate) fn run_command<'src, H: RunHost + Drop>(
    alloc: Global,
    host: &mut Recorded<H>,
    context: &ExecutionContext<'_, 'src>,
    words: &[Text],
) -> Result<Performed, TaskFault<'src>>
    ensures commands { Commands H.goes context.now context.now.config.now.dry_run words.now host.old result host.new }
    ensures asks { AsksCommand context.now.config.now.dry_run H.goes host.old host.new }
{
    let Some((command, words)) = words.split_first() else {
        return Ok(Performed::Ran);
    };
    if context.config.dry_run {
        return Ok(Performed::Ran);
    }
    let job = job(alloc, context, command, words)?;
    let status = host.line(&job);
    ended(context, command, status)
}
