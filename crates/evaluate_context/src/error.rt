//! Why an evaluation has no value.
ghost use Rattle.std.specs.Prelude.{◌≡◌, Some};

use just_host::HostFault;
use just_text::{Name, Text, Token};
use just_value::{ConstEvalError, ValueFault};
use std::alloc::{AllocError, AllocFailed};
use std::fmt;

/// Why an evaluation is refused.
#[derive(Debug, Drop)]
pub enum Error<'src> {
    OutOfMemory,
    /// What constants are refused for too.
    Const(ConstEvalError<'src>),
    /// A command between backticks, at its token.
    Backtick {
        fault: HostFault,
        token: Token<'src>,
    },
    /// A built-in function, with what it says.
    FunctionCall {
        name: Name<'src>,
        message: Text,
    },
    /// Functions of the justfile call each other too deep; the last one that is called.
    RecursionLimit {
        last: Name<'src>,
    },
    EmptyListArgument {
        recipe: Name<'src>,
        parameter: Name<'src>,
    },
    ValueCount {
        recipe: Name<'src>,
        parameter: Name<'src>,
        found: usize,
    },
    /// A path that has no parent.
    NoParent(Text),
    Internal(Text),
}

impl<'src> From<AllocError> for Error<'src> {
    ghost use Rattle.std.specs.Prelude.{◌≡◌};
    ghost use Rattle.evaluate_context.specs.declared.error.Error.TheVariants.{OutOfMemory};

    ghost from_gives = { λ _ e. e ≡ OutOfMemory };

    fn from(_refused: AllocError) -> Error<'src> {
        Error::OutOfMemory
    }
}

impl<'src, T: Drop> From<AllocFailed<T>> for Error<'src> {
    ghost use Rattle.std.specs.Prelude.{◌≡◌};
    ghost use Rattle.evaluate_context.specs.declared.error.Error.TheVariants.{OutOfMemory};

    ghost from_gives = { λ _ e. e ≡ OutOfMemory };

    fn from(_refused: AllocFailed<T>) -> Error<'src> {
        Error::OutOfMemory
    }
}

impl<'src> From<ValueFault<'src>> for Error<'src> {
    ghost use Rattle.std.specs.Prelude.{◌≡◌};
    ghost use Rattle.evaluate_context.specs.Refusals.{error_of};

    ghost from_gives = { λ fault e. e ≡ error_of fault };

    fn from(fault: ValueFault<'src>) -> Error<'src> {
        match fault {
            ValueFault::OutOfMemory => Error::OutOfMemory,
            ValueFault::Const(error) => Error::Const(error),
            ValueFault::Path(text) => Error::Internal(text),
        }
    }
}

impl fmt::Display for Error<'_> {
    ghost use Rattle.evaluate_context.specs.Errors.{error_text};

    ghost output = { λ error. Some (error_text error) };

    fn fmt<W: fmt::Write>(&self, f: &mut fmt::Formatter<W>) -> fmt::Result {
        match self {
            Error::OutOfMemory => f.write_str("out of memory"),
            Error::Const(error) => fmt::Display::fmt(error, f),
            Error::Backtick { fault, .. } => write!(f, "backtick: `{fault}`"),
            Error::FunctionCall { name, message } => {
                write!(f, "function `{name}` failed: {message}")
            }
            Error::RecursionLimit { last } => write!(f, "recursion limit: `{last}`"),
            Error::EmptyListArgument { recipe, parameter } => {
                write!(f, "empty list argument: `{recipe}`, `{parameter}`")
            }
            Error::ValueCount {
                recipe,
                parameter,
                found,
            } => { write!(f, "value count: `{recipe}`, `{parameter}`, `{found}`") }
            Error::NoParent(path) => write!(f, "no parent: `{path}`"),
            Error::Internal(text) => write!(f, "internal: `{text}`"),
        }
    }
}

impl std::error::Error for Error<'_> {}
