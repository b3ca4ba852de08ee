//! Refusals on their way up through the levels of evaluation.
ghost use Rattle.std.specs.Prelude.{◌≡◌, ◌≢◌, Err};
ghost use Rattle.evaluate_context.specs.Refusals.{fault_of, seen};
ghost use Rattle.evaluate_expressions.specs.Failures.{fault_in, seen_above};
ghost use Rattle.meaning_dialogues.specs.Faults.{memory};

use evaluate_context::Error;
use just_value::Value;
use std::alloc::{AllocError, AllocFailed, Global};

/// Why an expression has no value: no larger than a box, since each level of evaluation has room for one.
pub(crate) enum Failure<'src> {
    OutOfMemory,
    Refused(Box<Error<'src>>),
}

/// What a refusal holds is dropped here, so that whatever drops one elsewhere is proved by this alone.
impl Drop for Failure<'_> {
    fn drop(self) {
        match self {
            Failure::OutOfMemory => {}
            Failure::Refused(_error) => {}
        }
    }
}

impl<'src> Failure<'src> {
    /// The refusal out of its box.
    pub(crate) fn into_error(self) -> Error<'src>
        ensures { fault_of result ≡ fault_in self.entry }
    {
        match self {
            Failure::OutOfMemory => Error::OutOfMemory,
            Failure::Refused(error) => Box::into_inner(error),
        }
    }
}

impl<'src> From<AllocError> for Failure<'src> {
    ghost use Rattle.std.specs.Prelude.{◌≡◌};
    ghost use Rattle.evaluate_expressions.specs.declared.failure.Failure.TheVariants.{OutOfMemory};

    ghost from_gives = { λ _ failure. failure ≡ OutOfMemory };

    fn from(_refused: AllocError) -> Failure<'src> {
        Failure::OutOfMemory
    }
}

impl<'src, T: Drop> From<AllocFailed<T>> for Failure<'src> {
    ghost use Rattle.std.specs.Prelude.{◌≡◌};
    ghost use Rattle.evaluate_expressions.specs.declared.failure.Failure.TheVariants.{OutOfMemory};

    ghost from_gives = { λ _ failure. failure ≡ OutOfMemory };

    fn from(_refused: AllocFailed<T>) -> Failure<'src> {
        Failure::OutOfMemory
    }
}

/// The refusal in a box; want of memory where there is none for the box.
#[inline(never)]
pub(crate) fn refused<'src>(alloc: Global, error: Error<'src>) -> Failure<'src>
    ensures { fault_in result ≢ memory → fault_in result ≡ fault_of error.entry }
{
    match Box::new(alloc, error) {
        Ok(error) => Failure::Refused(error),
        Err(_) => Failure::OutOfMemory,
    }
}

/// The same answer, its refusal in a box.
pub(crate) fn boxed<'src>(
    alloc: Global,
    answer: Result<Value, Error<'src>>,
) -> Result<Value, Failure<'src>>
    ensures { seen_above result ≢ Err memory → seen_above result ≡ seen answer.entry }
{
    match answer {
        Ok(value) => Ok(value),
        Err(error) => Err(refused(alloc, error)),
    }
}

/// The same answer, its refusal out of the box.
pub(crate) fn unboxed<'src>(answer: Result<Value, Failure<'src>>) -> Result<Value, Error<'src>>
    ensures { seen result ≡ seen_above answer.entry }
{
    match answer {
        Ok(value) => Ok(value),
        Err(failure) => Err(failure.into_error()),
    }
}
