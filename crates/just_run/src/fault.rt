//! Why a call is refused, or how a run failed.
ghost use Rattle.std.specs.Prelude.{◌≡◌, Some};
ghost use Rattle.std.specs.Fmt.{WritesOnOk};
ghost use Rattle.std.specs.Option.{option_map};
ghost use Rattle.modules_compilation.specs.Refusals.{start_of};
ghost use Rattle.just_run.specs.Faulted as spec;
ghost use Rattle.just_run.specs.Statuses.{command_status, status_of};
ghost use Rattle.just_run.specs.declared.fault.Fault.TheVariants.{OutOfMemory, Write};

use crate::root::RootFault;
use analyze_calls::{OpeningFault, RunFault};
use analyze_words::WordFault;
use just_host::{HostFault, Status, WriteFailed};
use justfile_evaluator::Error as EvaluationError;
use justfile_syntax::{Name, Text, Token};
use run_tasks::{CommandFault, TaskFault};
use std::alloc::{AllocError, AllocFailed};
use std::fmt;

/// Why a call is refused, or how a run failed. Rules of files and words come before anything is
/// asked of the host. It prints its name in lower case and its fields between backticks, a failed
/// command a sentence.
#[derive(Debug, Drop)]
pub enum Fault<'src> {
    /// Memory ran out.
    OutOfMemory,
    /// There is no root file for this search directory, which is empty where none was given.
    NoRootForWord(Text),
    /// A rule of files, modules, names or orders.
    Justfile(just_resolve::Error<'src>),
    /// A rule of words.
    Words(WordFault),
    /// The files of variables of a module could not be read.
    Dotenv(HostFault),
    /// A variable of a module has no value.
    Opening(EvaluationError<'src>),
    /// A recipe's parameter, attribute, dependency or body has no value.
    Evaluation(EvaluationError<'src>),
    /// A command of the recipe ended with this code.
    Code {
        recipe: Name<'src>,
        code: u8,
        /// Whether nothing is to be said of it.
        is_silent: bool,
    },
    /// A command of the recipe was ended by this signal.
    Signal {
        recipe: Name<'src>,
        signal: u8,
        /// Whether nothing is to be said of it.
        is_silent: bool,
    },
    /// A command of the recipe could not start.
    CouldNotStart(Name<'src>),
    /// The user did not confirm that the recipe runs.
    NotConfirmed(Name<'src>),
    /// The command that the words are failed.
    Command(CommandFault),
    /// The output took no more.
    Write,
    /// The root file at this path has a line that can't be printed so that it is read as it was.
    NotPrintable(Text),
}

/// The status of a program whose command ended so.
fn status_code(status: Status) -> u8
    ensures { result ≡ command_status status }
{
    match status {
        Status::Code(code) => code,
        Status::Signal(signal) => signal.saturating_add(128),
        Status::NotStarted => 1,
    }
}

impl<'src> Fault<'src> {
    /// The status that a program ends with: the code of a failed command; 128 and the number of a
    /// signal, at most 255; else 1.
    pub fn status(&self) -> u8
        ensures { result ≡ status_of self.now }
    {
        match self {
            Fault::Code { code, .. } => *code,
            Fault::Signal { signal, .. } => signal.saturating_add(128),
            Fault::Command(fault) => status_code(fault.status),
            _ => 1,
        }
    }

    /// Where in a source the refusal stands, if it has a place.
    pub fn place(&self) -> Option<Token<'src>>
        ensures { option_map start_of result ≡ option_map start_of (spec.fault_place self.now) }
    {
        match self {
            Fault::Justfile(error) => error.place(),
            _ => None,
        }
    }

    /// Whether nothing is to be said of it: a command failed, and its exit has no message.
    pub fn is_silent(&self) -> bool
        ensures { result ≡ spec.is_silent_fault self.now }
    {
        match self {
            Fault::Code { is_silent, .. } | Fault::Signal { is_silent, .. } => *is_silent,
            Fault::Command(fault) => fault.is_silent,
            _ => false,
        }
    }
}

/// Writes why a recipe or a command failed, nothing of other faults.
fn write_failure<W: fmt::Write>(f: &mut fmt::Formatter<W>, fault: &Fault) -> fmt::Result
    ensures { WritesOnOk W.write_str_gives f.old result (spec.failure_text fault.now) f.new }
{
    match fault {
        Fault::Code { recipe, code, .. } => {
            write!(f, "recipe `{recipe}` failed with exit code {code}")
        }
        Fault::Signal { recipe, signal, .. } => {
            write!(f, "recipe `{recipe}` was ended by signal {signal}")
        }
        Fault::CouldNotStart(recipe) => write!(f, "recipe `{recipe}` could not start its command"),
        Fault::NotConfirmed(recipe) => write!(f, "recipe `{recipe}` was not confirmed"),
        Fault::Command(fault) => fmt::Display::fmt(fault, f),
        _ => Ok(()),
    }
}

/// Writes which rule is broken, nothing of other faults.
fn write_rule<W: fmt::Write>(f: &mut fmt::Formatter<W>, fault: &Fault) -> fmt::Result
    ensures { WritesOnOk W.write_str_gives f.old result (spec.rule_text fault.now) f.new }
{
    match fault {
        Fault::Justfile(error) => fmt::Display::fmt(error, f),
        Fault::Words(fault) => fmt::Display::fmt(fault, f),
        Fault::NoRootForWord(word) => write!(f, "no root for word: `{word}`"),
        Fault::NotPrintable(path) => write!(f, "not printable: `{path}`"),
        _ => Ok(()),
    }
}

impl fmt::Display for Fault<'_> {
    ghost output = { λ fault. Some (spec.fault_text fault) };

    fn fmt<W: fmt::Write>(&self, f: &mut fmt::Formatter<W>) -> fmt::Result {
        match self {
            Fault::OutOfMemory => f.write_str("out of memory"),
            Fault::Write => f.write_str("write"),
            Fault::Dotenv(fault) => write!(f, "dotenv: `{fault}`"),
            Fault::Opening(error) => write!(f, "opening: `{error}`"),
            Fault::Evaluation(error) => write!(f, "evaluation: `{error}`"),
            Fault::Justfile(_)
            | Fault::Words(_)
            | Fault::NoRootForWord(_)
            | Fault::NotPrintable(_) => write_rule(f, self),
            Fault::Code { .. }
            | Fault::Signal { .. }
            | Fault::CouldNotStart(_)
            | Fault::NotConfirmed(_)
            | Fault::Command(_) => write_failure(f, self),
        }
    }
}

impl std::error::Error for Fault<'_> {}

impl From<AllocError> for Fault<'_> {
    ghost from_gives = { λ _ e. e ≡ OutOfMemory };

    fn from(_refused: AllocError) -> Self {
        Fault::OutOfMemory
    }
}

impl<T: Drop> From<AllocFailed<T>> for Fault<'_> {
    ghost from_gives = { λ _ e. e ≡ OutOfMemory };

    fn from(_refused: AllocFailed<T>) -> Self {
        Fault::OutOfMemory
    }
}

impl From<WriteFailed> for Fault<'_> {
    ghost from_gives = { λ _ e. e ≡ Write };

    fn from(_failed: WriteFailed) -> Self {
        Fault::Write
    }
}

impl<'src> From<RootFault<'src>> for Fault<'src> {
    ghost use Rattle.just_run.specs.Passed.{root_fault};

    ghost from_gives = { λ fault e. e ≡ root_fault fault };

    fn from(fault: RootFault<'src>) -> Self {
        match fault {
            RootFault::OutOfMemory => Fault::OutOfMemory,
            RootFault::NoRootForWord(word) => Fault::NoRootForWord(word),
            RootFault::MissingRoot(path) => Fault::from(just_modules::Error::MissingRoot(path)),
            RootFault::Syntax(error) => Fault::from(just_modules::Error::Syntax(error)),
        }
    }
}

impl<'src> From<just_resolve::Error<'src>> for Fault<'src> {
    ghost use Rattle.just_run.specs.Passed.{name_fault};

    ghost from_gives = { λ fault e. e ≡ name_fault fault };

    fn from(error: just_resolve::Error<'src>) -> Self {
        match error {
            just_resolve::Error::OutOfMemory => Fault::OutOfMemory,
            other => Fault::Justfile(other),
        }
    }
}

impl<'src> From<just_modules::Error<'src>> for Fault<'src> {
    ghost use Rattle.just_run.specs.Passed.{file_fault};

    ghost from_gives = { λ fault e. e ≡ file_fault fault };

    fn from(error: just_modules::Error<'src>) -> Self {
        match error {
            just_modules::Error::OutOfMemory => Fault::OutOfMemory,
            other => Fault::Justfile(just_resolve::Error::Compile(other)),
        }
    }
}

impl From<WordFault> for Fault<'_> {
    ghost use Rattle.just_run.specs.Passed.{word_fault};

    ghost from_gives = { λ fault e. e ≡ word_fault fault };

    fn from(fault: WordFault) -> Self {
        match fault {
            WordFault::OutOfMemory => Fault::OutOfMemory,
            other => Fault::Words(other),
        }
    }
}

impl<'src> From<OpeningFault<'src>> for Fault<'src> {
    ghost use Rattle.just_run.specs.Passed.{opening_fault};

    ghost from_gives = { λ fault e. e ≡ opening_fault fault };

    fn from(fault: OpeningFault<'src>) -> Self {
        match fault {
            OpeningFault::OutOfMemory => Fault::OutOfMemory,
            OpeningFault::Dotenv(fault) => Fault::Dotenv(fault),
            OpeningFault::Opening(error) => Fault::Opening(error),
        }
    }
}

impl<'src> From<RunFault<'src>> for Fault<'src> {
    ghost use Rattle.just_run.specs.Passed.{run_fault};

    ghost from_gives = { λ fault e. e ≡ run_fault fault };

    fn from(fault: RunFault<'src>) -> Self {
        match fault {
            RunFault::OutOfMemory => Fault::OutOfMemory,
            RunFault::Evaluation(error) => Fault::Evaluation(error),
            RunFault::Code {
                recipe,
                code,
                is_silent,
            } => Fault::Code {
                recipe,
                code,
                is_silent,
            },
            RunFault::Signal {
                recipe,
                signal,
                is_silent,
            } => Fault::Signal {
                recipe,
                signal,
                is_silent,
            },
            RunFault::CouldNotStart(recipe) => Fault::CouldNotStart(recipe),
            RunFault::NotConfirmed(recipe) => Fault::NotConfirmed(recipe),
        }
    }
}

impl<'src> From<TaskFault<'src>> for Fault<'src> {
    ghost use Rattle.just_run.specs.Passed.{task_fault};

    ghost from_gives = { λ fault e. e ≡ task_fault fault };

    fn from(fault: TaskFault<'src>) -> Self {
        match fault {
            TaskFault::Opening(fault) => Fault::from(fault),
            TaskFault::Run(fault) => Fault::from(fault),
            TaskFault::Command(fault) => Fault::Command(fault),
        }
    }
}
