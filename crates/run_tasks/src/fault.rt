//! Why a task failed.
ghost use Rattle.std.specs.Prelude.{◌≡◌};
ghost use Rattle.std.specs.Fmt.{WritesOnOk};
ghost use Rattle.just_host.specs.Failures.{status_text};
ghost use Rattle.justfile_evaluator.specs.declared.fault.RunFault.TheVariants.{OutOfMemory};

use analyze_calls::{OpeningFault, RunFault};
use just_host::Status;
use just_text::Text;
use std::alloc::{AllocError, AllocFailed};
use std::fmt;

/// How the command that the words are failed.
#[derive(Debug, Drop)]
pub struct CommandFault {
    /// The first word.
    pub word: Text,
    pub status: Status,
    /// Whether nothing is to be said of it.
    pub is_silent: bool,
}

/// Writes how the command ended.
fn write_status<W: fmt::Write>(
    f: &mut fmt::Formatter<W>,
    word: &Text,
    status: Status,
) -> fmt::Result
    ensures { WritesOnOk W.write_str_gives f.old result (status_text word.now status) f.new }
{
    match status {
        Status::Code(code) => write!(f, "recipe `{word}` failed with exit code {code}"),
        Status::Signal(signal) => write!(f, "recipe `{word}` was ended by signal {signal}"),
        Status::NotStarted => write!(f, "recipe `{word}` could not start its command"),
    }
}

impl fmt::Display for CommandFault {
    ghost use Rattle.std.specs.Prelude.{Some};
    ghost use Rattle.run_tasks.specs.Faulted.{command_text};

    ghost output = { λ fault. Some (command_text fault) };

    fn fmt<W: fmt::Write>(&self, f: &mut fmt::Formatter<W>) -> fmt::Result {
        write_status(f, &self.word, self.status)
    }
}

/// Why a task failed.
#[derive(Debug, Drop)]
pub enum TaskFault<'src> {
    /// A module could not open.
    Opening(OpeningFault<'src>),
    /// A recipe failed, or memory ran out.
    Run(RunFault<'src>),
    /// The command that the words are failed.
    Command(CommandFault),
}

impl From<AllocError> for TaskFault<'_> {
    ghost use Rattle.run_tasks.specs.declared.fault.TaskFault.TheVariants.{Run};

    ghost from_gives = { λ _ e. e ≡ Run OutOfMemory };

    fn from(_refused: AllocError) -> Self {
        TaskFault::Run(RunFault::OutOfMemory)
    }
}

impl<T: Drop> From<AllocFailed<T>> for TaskFault<'_> {
    ghost use Rattle.run_tasks.specs.declared.fault.TaskFault.TheVariants.{Run};

    ghost from_gives = { λ _ e. e ≡ Run OutOfMemory };

    fn from(_refused: AllocFailed<T>) -> Self {
        TaskFault::Run(RunFault::OutOfMemory)
    }
}

impl<'src> From<OpeningFault<'src>> for TaskFault<'src> {
    ghost use Rattle.run_tasks.specs.declared.fault.TaskFault.TheVariants.{Opening};

    ghost from_gives = { λ f e. e ≡ Opening f };

    fn from(fault: OpeningFault<'src>) -> Self {
        TaskFault::Opening(fault)
    }
}

impl<'src> From<RunFault<'src>> for TaskFault<'src> {
    ghost use Rattle.run_tasks.specs.declared.fault.TaskFault.TheVariants.{Run};

    ghost from_gives = { λ f e. e ≡ Run f };

    fn from(fault: RunFault<'src>) -> Self {
        TaskFault::Run(fault)
    }
}
