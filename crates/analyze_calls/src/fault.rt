//! Why modules could not open.
ghost use Rattle.std.specs.Prelude.{◌≡◌};
ghost use Rattle.analyze_calls.specs.declared.fault.OpeningFault.TheVariants.{OutOfMemory};

use just_host::HostFault;
use justfile_evaluator::Error;
use std::alloc::{AllocError, AllocFailed};

/// Why modules could not open.
#[derive(Debug, Drop)]
pub enum OpeningFault<'src> {
    /// Memory ran out.
    OutOfMemory,
    /// The files of variables of a module could not be read.
    Dotenv(HostFault),
    /// A variable of a module has no value.
    Opening(Error<'src>),
}

impl From<AllocError> for OpeningFault<'_> {
    ghost from_gives = { λ _ e. e ≡ OutOfMemory };

    fn from(_refused: AllocError) -> Self {
        OpeningFault::OutOfMemory
    }
}

impl<T: Drop> From<AllocFailed<T>> for OpeningFault<'_> {
    ghost from_gives = { λ _ e. e ≡ OutOfMemory };

    fn from(_refused: AllocFailed<T>) -> Self {
        OpeningFault::OutOfMemory
    }
}

/// The fault of a variable of a module.
impl<'src> From<Error<'src>> for OpeningFault<'src> {
    ghost use Rattle.analyze_calls.specs.Opening.{IsOpening};

    ghost from_gives = { λ error fault. IsOpening error fault };

    fn from(error: Error<'src>) -> Self {
        match error {
            Error::OutOfMemory => OpeningFault::OutOfMemory,
            other => OpeningFault::Opening(other),
        }
    }
}
