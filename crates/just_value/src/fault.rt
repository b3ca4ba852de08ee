//! Why a value can't be given.
ghost use Rattle.std.specs.Prelude.{◌≡◌, Some};
ghost use Rattle.std.specs.Fmt.{WritesOnOk};
ghost use Rattle.just_value.specs.Faults as spec;

use crate::value::Value;
use just_text::{Name, Text, Token};
use std::alloc::{AllocError, AllocFailed};
use std::fmt;
use tree_expressions::{ConditionalOperator, ListOperator};

/// What a constant may not hold.
#[derive(Debug, Drop)]
pub enum ConstError<'src> {
    Backtick(Token<'src>),
    FunctionCall(Name<'src>),
    Variable(Name<'src>),
}

/// Where one text alone may stand.
#[derive(Debug, Drop)]
pub enum StringContext<'src> {
    /// An argument of the function.
    Function(Name<'src>),
    /// The key of an attribute `env`.
    EnvKey(Token<'src>),
    Setting(Name<'src>),
}

/// Why a constant has no value.
#[derive(Debug, Drop)]
pub enum ConstEvalError<'src> {
    Assert {
        message: Text,
        name: Name<'src>,
    },
    Const(ConstError<'src>),
    EmptyInterpreter {
        setting: Name<'src>,
    },
    ListInStringContext {
        context: StringContext<'src>,
        value: Value,
    },
    /// The two sides are of lengths that don't go together.
    ListOperation {
        lhs: Value,
        operator: ListOperator,
        rhs: Value,
        token: Token<'src>,
    },
    PatternLeftOut {
        operator: ConditionalOperator,
        token: Token<'src>,
    },
}

/// Why a call of this crate is refused.
#[derive(Debug, Drop)]
pub enum ValueFault<'src> {
    OutOfMemory,
    Const(ConstEvalError<'src>),
    /// A part that a path lacks, in words.
    Path(Text),
}

impl<'src> From<AllocError> for ValueFault<'src> {
    ghost use Rattle.std.specs.Prelude.{◌≡◌};
    ghost use Rattle.just_value.specs.declared.fault.ValueFault.TheVariants.{OutOfMemory};

    ghost from_gives = { λ _ e. e ≡ OutOfMemory };

    fn from(_refused: AllocError) -> ValueFault<'src> {
        ValueFault::OutOfMemory
    }
}

impl<'src, T: Drop> From<AllocFailed<T>> for ValueFault<'src> {
    ghost use Rattle.std.specs.Prelude.{◌≡◌};
    ghost use Rattle.just_value.specs.declared.fault.ValueFault.TheVariants.{OutOfMemory};

    ghost from_gives = { λ _ e. e ≡ OutOfMemory };

    fn from(_refused: AllocFailed<T>) -> ValueFault<'src> {
        ValueFault::OutOfMemory
    }
}

impl<'src> ConstError<'src> {
    /// The backtick, or the name's token.
    pub fn context(&self) -> Token<'src>
        ensures { result ≡ spec.const_error_place self.now }
    {
        match self {
            ConstError::Backtick(token) => *token,
            ConstError::FunctionCall(name) | ConstError::Variable(name) => name.token,
        }
    }
}

impl<'src> StringContext<'src> {
    /// The token, or that of the name.
    pub fn token(&self) -> Token<'src>
        ensures { result ≡ spec.context_place self.now }
    {
        match self {
            StringContext::EnvKey(token) => *token,
            StringContext::Function(name) | StringContext::Setting(name) => name.token,
        }
    }

    /// What is added where the text would have to be a list.
    fn list_advice(&self) -> &'static str
        ensures { result.now ≡ spec.list_advice self.now }
    {
        match self {
            StringContext::Function(_) => {
                "\nthe behavior of lists with many built-in functions is undecided\nsee https://github.com/casey/just#lists"
            }
            _ => "",
        }
    }
}

impl<'src> ConstEvalError<'src> {
    /// Where the refusal stands: its token, or that of its name.
    pub fn context(&self) -> Token<'src>
        ensures { result ≡ spec.const_eval_place self.now }
    {
        match self {
            ConstEvalError::Assert { name, .. } => name.token,
            ConstEvalError::Const(error) => error.context(),
            ConstEvalError::EmptyInterpreter { setting } => setting.token,
            ConstEvalError::ListInStringContext { context, .. } => context.token(),
            ConstEvalError::ListOperation { token, .. } => *token,
            ConstEvalError::PatternLeftOut { token, .. } => *token,
        }
    }
}

impl fmt::Display for ConstError<'_> {
    ghost output = { λ error. Some (spec.const_error_text error) };

    fn fmt<W: fmt::Write>(&self, f: &mut fmt::Formatter<W>) -> fmt::Result {
        match self {
            ConstError::Backtick(_) => f.write_str("cannot call backticks in const context"),
            ConstError::FunctionCall(_) => f.write_str("cannot call functions in const context"),
            ConstError::Variable(name) => {
                write!(
                    f,
                    "cannot access non-const variable `{name}` in const context"
                )
            }
        }
    }
}

impl fmt::Display for StringContext<'_> {
    ghost output = { λ context. Some (spec.context_text context) };

    fn fmt<W: fmt::Write>(&self, f: &mut fmt::Formatter<W>) -> fmt::Result {
        match self {
            StringContext::Function(name) => write!(f, "used as an argument of function `{name}`"),
            StringContext::EnvKey(_) => f.write_str("used as the key of attribute `env`"),
            StringContext::Setting(name) => write!(f, "used as setting `{name}`"),
        }
    }
}

/// Writes why the operator can't be applied to the two lists.
fn write_operation<W: fmt::Write>(
    f: &mut fmt::Formatter<W>,
    left: &Value,
    operator: ListOperator,
    right: &Value,
) -> fmt::Result
    ensures { WritesOnOk W.write_str_gives f.old result (spec.operation_text left.now operator right.now) f.new }
{
    if left.len() == 0 || right.len() == 0 {
        return write!(f, "operator `{operator}` cannot be applied to empty lists");
    }
    write!(
        f,
        "operator `{operator}` cannot be applied to lists of different lengths: {left} {operator} {right}"
    )
}

impl fmt::Display for ConstEvalError<'_> {
    ghost output = { λ error. Some (spec.const_eval_text error) };

    fn fmt<W: fmt::Write>(&self, f: &mut fmt::Formatter<W>) -> fmt::Result {
        match self {
            ConstEvalError::Assert { message, .. } => write!(f, "assert failed: {message}"),
            ConstEvalError::Const(error) => fmt::Display::fmt(error, f),
            ConstEvalError::EmptyInterpreter { setting } => {
                write!(
                    f,
                    "`{setting}` setting requires at least one element but evaluated to empty list"
                )
            }
            ConstEvalError::ListInStringContext { context, value } => {
                let advice = context.list_advice();
                write!(f, "list value {value} {context}{advice}")
            }
            ConstEvalError::ListOperation {
                lhs,
                operator,
                rhs,
                ..
            } => { write_operation(f, lhs, *operator, rhs) }
            ConstEvalError::PatternLeftOut { operator, .. } => {
                write!(f, "operator `{operator}` is left out")
            }
        }
    }
}

/// `out of memory`, or the text of what is held.
impl fmt::Display for ValueFault<'_> {
    ghost output = { λ fault. Some (spec.fault_text fault) };

    fn fmt<W: fmt::Write>(&self, f: &mut fmt::Formatter<W>) -> fmt::Result {
        match self {
            ValueFault::OutOfMemory => f.write_str("out of memory"),
            ValueFault::Const(error) => fmt::Display::fmt(error, f),
            ValueFault::Path(text) => fmt::Display::fmt(text, f),
        }
    }
}

impl std::error::Error for ConstError<'_> {}

impl std::error::Error for ConstEvalError<'_> {}

impl std::error::Error for ValueFault<'_> {}
