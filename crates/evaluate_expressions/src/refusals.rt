//! Why an expression has no value.
ghost use Rattle.std.specs.Prelude.{◌≡◌, ◌≢◌, codes};
ghost use Rattle.std.specs.String.{string_bytes};
ghost use Rattle.just_text.specs.Tokens.{lexeme};
ghost use Rattle.just_value.specs.Values.{joined};
ghost use Rattle.tree_expressions.specs.Printing.{text_of};
ghost use Rattle.tree_expressions.specs.Shape.{shape_of};
ghost use Rattle.evaluate_context.specs.Refusals.{fault_of};
ghost use Rattle.evaluate_expressions.specs.Failures.{fault_in};
ghost use Rattle.meaning_dialogues.specs.Calls as calls;
ghost use Rattle.meaning_dialogues.specs.Evaluation.{ticked};
ghost use Rattle.meaning_dialogues.specs.Faults as faults;
ghost use Rattle.meaning_dialogues.specs.Faults.{memory, const_fault, inconstant};

use crate::failure::{Failure, refused};
use evaluate_context::Error;
use just_text::{Name, Text, Token};
use just_value::{ConstError, ConstEvalError, StringContext, Value};
use std::alloc::Global;
use tree_expressions::{ConditionalOperator, Expression};
use tree_items::FunctionDefinition;

/// What constants are refused for too.
#[inline(never)]
pub(crate) fn refused_const<'src>(alloc: Global, error: ConstEvalError<'src>) -> Failure<'src>
    ensures { fault_in result ≢ memory → fault_in result ≡ const_fault error.entry }
{
    refused(alloc, Error::Const(error))
}

/// What constants may not hold.
pub(crate) fn not_const<'src>(alloc: Global, error: ConstError<'src>) -> Failure<'src>
    ensures { fault_in result ≢ memory → fault_in result ≡ faults.not_constant (inconstant error.entry) }
{
    refused_const(alloc, ConstEvalError::Const(error))
}

/// A call where a constant stands.
#[inline(never)]
pub(crate) fn call_in_constant<'src>(alloc: Global, name: &Name<'src>) -> Failure<'src>
    ensures { fault_in result ≢ memory → fault_in result ≡ faults.not_constant (faults.a_call (lexeme name.now.token)) }
{
    not_const(alloc, ConstError::FunctionCall(*name))
}

/// A function that is neither the justfile's nor a built-in one.
#[inline(never)]
pub(crate) fn unknown_function<'src>(alloc: Global) -> Failure<'src>
    ensures { fault_in result ≢ memory → fault_in result ≡ faults.internal (codes "unknown function") }
{
    refused(alloc, internal(alloc, "unknown function"))
}

/// A comparison with a pattern.
#[inline(never)]
pub(crate) fn pattern_left_out<'src>(
    alloc: Global,
    operator: ConditionalOperator,
    token: &Token<'src>,
) -> Failure<'src>
    ensures { fault_in result ≢ memory → fault_in result ≡ faults.pattern_left_out operator }
{
    let token = *token;
    refused_const(alloc, ConstEvalError::PatternLeftOut { operator, token })
}

/// A value that is not one text, as an argument of the built-in function of this name.
#[inline(never)]
pub(crate) fn list_as_argument<'src>(
    alloc: Global,
    value: Value,
    name: &Name<'src>,
) -> Failure<'src>
    ensures { fault_in result ≢ memory → fault_in result ≡ faults.list_in_text_place (faults.argument_of (lexeme name.now.token)) value }
{
    let context = StringContext::Function(*name);
    refused_const(
        alloc,
        ConstEvalError::ListInStringContext { context, value },
    )
}

/// Functions of the justfile call each other too deep; this one would be the next.
#[inline(never)]
pub(crate) fn too_many_calls<'src>(
    alloc: Global,
    function: &FunctionDefinition<'src>,
) -> Failure<'src>
    ensures { fault_in result ≢ memory → fault_in result ≡ faults.too_deep (lexeme function.now.name.token) }
{
    let last = function.name;
    refused(alloc, Error::RecursionLimit { last })
}

/// A condition that does not arise once a justfile is analyzed, told by the text; want of memory where
/// the text can't be copied.
pub fn internal<'src>(alloc: Global, text: &str) -> Error<'src>
    ensures { fault_of result ≢ memory → fault_of result ≡ faults.internal text.now }
{
    match Text::from_text(alloc, text) {
        Ok(text) => Error::Internal(text),
        Err(_) => Error::OutOfMemory,
    }
}

/// Why the variable can't be read.
pub(crate) fn unreadable<'src>(alloc: Global, how: &str, name: Name<'src>) -> Failure<'src>
    ensures { fault_in result ≢ memory → fault_in result ≡ calls.unreadable how.now (lexeme name.entry.token) }
{
    match format!(in alloc; "attempted to evaluate {how} variable `{name}`") {
        Ok(text) => refused(alloc, Error::Internal(Text::from_string(text))),
        Err(_) => Failure::OutOfMemory,
    }
}

/// An assertion's refusal with its message, joined.
#[inline(never)]
pub(crate) fn message_failed<'src>(
    alloc: Global,
    message: &Value,
    name: &Name<'src>,
) -> Failure<'src>
    ensures { fault_in result ≢ memory → fault_in result ≡ faults.assertion_failed (joined message.now) }
{
    match message.join(alloc) {
        Ok(text) => assertion_failed(alloc, text, *name),
        Err(_) => Failure::OutOfMemory,
    }
}

/// An assertion's refusal without a message: the condition as it is printed.
#[inline(never)]
pub(crate) fn condition_failed<'src>(
    alloc: Global,
    condition: &Expression<'src>,
    name: &Name<'src>,
) -> Failure<'src>
    ensures { fault_in result ≢ memory → fault_in result ≡ faults.assertion_failed (ticked (text_of (shape_of condition.now))) }
{
    match format!(in alloc; "`{condition}`") {
        Ok(text) => assertion_failed(alloc, text, *name),
        Err(_) => Failure::OutOfMemory,
    }
}

/// An assertion's refusal with this text.
fn assertion_failed<'src>(alloc: Global, text: String, name: Name<'src>) -> Failure<'src>
    ensures { fault_in result ≢ memory → fault_in result ≡ faults.assertion_failed (string_bytes text) }
{
    let message = Text::from_string(text);
    refused_const(alloc, ConstEvalError::Assert { message, name })
}
