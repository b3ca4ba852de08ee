//! Why an expression can't be resolved.
ghost use Rattle.std.specs.Prelude.{◌≡◌};

use crate::functions::CallFault;
use just_text::Name;
use std::alloc::{AllocError, AllocFailed};

/// Why an expression can't be resolved.
#[derive(Clone, Copy, Debug)]
pub enum ReadFault<'src> {
    OutOfMemory,
    /// The function does not take so many arguments.
    FunctionArgumentCount { name: Name<'src>, found: usize },
    /// The name stands for no variable.
    UndefinedVariable(Name<'src>),
    /// No function has the name.
    UnknownFunction(Name<'src>),
}

impl<'src> From<CallFault<'src>> for ReadFault<'src> {
    ghost use Rattle.resolve_references.specs.Faults.{fault_of_call};

    ghost from_gives = { λ refused fault. fault ≡ fault_of_call refused };

    fn from(fault: CallFault<'src>) -> ReadFault<'src> {
        match fault {
            CallFault::UnknownFunction(name) => ReadFault::UnknownFunction(name),
            CallFault::FunctionArgumentCount { name, found } => {
                ReadFault::FunctionArgumentCount { name, found }
            }
        }
    }
}

impl From<AllocError> for ReadFault<'_> {
    ghost use Rattle.resolve_references.specs.declared.read_fault.ReadFault.TheVariants.{OutOfMemory};

    ghost from_gives = { λ _ fault. fault ≡ OutOfMemory };

    fn from(_refused: AllocError) -> Self {
        ReadFault::OutOfMemory
    }
}

impl<T: Drop> From<AllocFailed<T>> for ReadFault<'_> {
    ghost use Rattle.resolve_references.specs.declared.read_fault.ReadFault.TheVariants.{OutOfMemory};

    ghost from_gives = { λ _ fault. fault ≡ OutOfMemory };

    fn from(_refused: AllocFailed<T>) -> Self {
        ReadFault::OutOfMemory
    }
}
