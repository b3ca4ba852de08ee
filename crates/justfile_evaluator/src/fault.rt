//! Why a run ended early.
ghost use Rattle.std.specs.Prelude.{◌≡◌, Some};
ghost use Rattle.justfile_evaluator.specs.Ended.{IsTold};
ghost use Rattle.justfile_evaluator.specs.declared.fault.RunFault.TheVariants.{OutOfMemory};

use evaluate_context::Error;
use just_text::{Name, Text};
use std::alloc::{AllocError, AllocFailed, Global};
use std::fmt;

/// Why a run ended early.
#[derive(Debug, Drop)]
pub enum RunFault<'src> {
    /// Memory ran out.
    OutOfMemory,
    /// A recipe's parameter, attribute, dependency or body has no value.
    Evaluation(Error<'src>),
    /// A command of the recipe ended with this code.
    Code {
        recipe: Name<'src>,
        code: u8,
        /// Whether nothing is to be said of it.
        is_silent: bool,
    },
    /// A command of the recipe was ended by this signal.
    Signal {
        recipe: Name<'src>,
        signal: u8,
        /// Whether nothing is to be said of it.
        is_silent: bool,
    },
    /// A command of the recipe could not start.
    CouldNotStart(Name<'src>),
    /// The user did not confirm that the recipe runs.
    NotConfirmed(Name<'src>),
}

impl From<AllocError> for RunFault<'_> {
    ghost from_gives = { λ _ e. e ≡ OutOfMemory };

    fn from(_refused: AllocError) -> Self {
        RunFault::OutOfMemory
    }
}

impl<T: Drop> From<AllocFailed<T>> for RunFault<'_> {
    ghost from_gives = { λ _ e. e ≡ OutOfMemory };

    fn from(_refused: AllocFailed<T>) -> Self {
        RunFault::OutOfMemory
    }
}

/// The fault of a recipe.
impl<'src> From<Error<'src>> for RunFault<'src> {
    ghost use Rattle.evaluate_context.specs.Refusals.{fault_of};
    ghost use Rattle.justfile_evaluator.specs.Ended.{failure_of};
    ghost use Rattle.meaning_runs.specs.Failures.{evaluation};

    ghost from_gives = { λ error fault. failure_of fault ≡ evaluation (fault_of error) };

    fn from(error: Error<'src>) -> Self {
        match error {
            Error::OutOfMemory => RunFault::OutOfMemory,
            other => RunFault::Evaluation(other),
        }
    }
}

impl<'src> RunFault<'src> {
    /// A fault that a resolved justfile doesn't meet.
    pub fn internal(alloc: Global, text: &str) -> RunFault<'src>
        ensures { IsTold result }
    {
        match Text::from_text(alloc, text) {
            Ok(text) => RunFault::Evaluation(Error::Internal(text)),
            Err(_) => RunFault::OutOfMemory,
        }
    }
}

impl fmt::Display for RunFault<'_> {
    ghost use Rattle.justfile_evaluator.specs.Faulted.{fault_text};

    ghost output = { λ fault. Some (fault_text fault) };

    fn fmt<W: fmt::Write>(&self, f: &mut fmt::Formatter<W>) -> fmt::Result {
        match self {
            RunFault::OutOfMemory => write!(f, "out of memory"),
            RunFault::Evaluation(error) => write!(f, "evaluation: `{error}`"),
            RunFault::Code { recipe, code, .. } => {
                write!(f, "recipe `{recipe}` failed with exit code {code}")
            }
            RunFault::Signal { recipe, signal, .. } => {
                write!(f, "recipe `{recipe}` was ended by signal {signal}")
            }
            RunFault::CouldNotStart(recipe) => {
                write!(f, "recipe `{recipe}` could not start its command")
            }
            RunFault::NotConfirmed(recipe) => write!(f, "recipe `{recipe}` was not confirmed"),
        }
    }
}

impl std::error::Error for RunFault<'_> {}
