//! What operators and contexts make of values.
ghost use Rattle.std.specs.Prelude.{◌≡◌, ◌≢◌, ◌∷◌, ◌++◌, [], Err, Ok, OnOk};
ghost use Rattle.std.specs.String.{string_bytes};
ghost use Rattle.just_text.specs.Tokens.{lexeme};
ghost use Rattle.just_value.specs.Values.{joined};
ghost use Rattle.evaluate_context.specs.Refusals.{seen_as};
ghost use Rattle.evaluate_expressions.specs.Failures.{printed_value, seen_above};
ghost use Rattle.meaning_dialogues.specs.Calls.{as_argument};
ghost use Rattle.meaning_dialogues.specs.Evaluation as spec;
ghost use Rattle.meaning_dialogues.specs.Faults.{memory, text_place};

use crate::failure::{Failure, refused};
use crate::refusals::{list_as_argument, pattern_left_out};
use evaluate_context::Error;
use just_host::HostFault;
use just_text::{Name, Text, Token};
use just_value::{ConstEvalError, StringContext, Value};
use std::alloc::{AllocError, Global};
use tree_expressions::{ConditionalOperator, ListOperator, StringLiteral, unindent};

/// The values of an operator's two sides.
#[derive(Drop)]
pub(crate) struct Sides {
    pub(crate) left: Value,
    pub(crate) right: Value,
}

/// `true` alone, or the empty list.
pub(crate) fn truth_value<'src>(alloc: Global, truth: bool) -> Result<Value, Failure<'src>>
    ensures { seen_above result ≢ Err memory → seen_above result ≡ Ok (spec.truth truth) }
{
    Ok(Value::from_bool(alloc, truth)?)
}

/// The string alone.
#[inline(never)]
pub(crate) fn literal_value<'src>(
    alloc: Global,
    literal: &StringLiteral<'src>,
) -> Result<Value, Failure<'src>>
    ensures { seen_above result ≢ Err memory → seen_above result ≡ Ok (literal.now.cooked ∷ []) }
{
    Ok(Value::from_text(alloc, literal.cooked.as_str())?)
}

/// What a command printed, or why it printed nothing, at its token.
pub(crate) fn output_value<'src>(
    alloc: Global,
    output: Result<Text, HostFault>,
    token: &Token<'src>,
) -> Result<Value, Failure<'src>>
    ensures { seen_above result ≢ Err memory → seen_above result ≡ printed_value (lexeme token.now) output }
{
    match output {
        Ok(text) => Ok(Value::from_string(alloc, text.into_string())?),
        Err(fault) => Err(refused(
            alloc,
            Error::Backtick {
                fault,
                token: *token,
            },
        )),
    }
}

/// What an assertion gives whose condition holds: its value under `lists`, else the empty text.
pub(crate) fn asserted<'src>(
    alloc: Global,
    lists: bool,
    condition: Value,
) -> Result<Value, Failure<'src>>
    ensures { seen_above result ≢ Err memory → seen_above result ≡ Ok (spec.asserted lists condition) }
{
    if lists {
        Ok(condition)
    } else {
        Ok(Value::from_text(alloc, "")?)
    }
}

/// What the operator gives of the two sides.
pub(crate) fn applied<'src>(
    alloc: Global,
    sides: &Sides,
    operator: ListOperator,
    token: &Token<'src>,
) -> Result<Value, Failure<'src>>
    ensures { seen_above result ≢ Err memory → seen_above result ≡ spec.operated operator sides.now.left sides.now.right }
{
    match sides.left.apply(alloc, &sides.right, operator, *token) {
        Ok(value) => Ok(value),
        Err(fault) => Err(refused(alloc, Error::from(fault))),
    }
}

/// What `/` gives without a left side: the empty text stands there.
pub(crate) fn joined_to_nothing<'src>(
    alloc: Global,
    right: Value,
    token: &Token<'src>,
) -> Result<Value, Failure<'src>>
    ensures { seen_above result ≢ Err memory → seen_above result ≡ spec.operated ListOperator.Join ([] ∷ []) right }
{
    let left = Value::from_text(alloc, "")?;
    applied(alloc, &Sides { left, right }, ListOperator::Join, token)
}

/// What the comparison says of the two sides.
pub(crate) fn compared<'src>(
    alloc: Global,
    sides: &Sides,
    operator: ConditionalOperator,
    token: &Token<'src>,
) -> Result<bool, Failure<'src>>
    ensures { seen_above result ≢ Err memory → seen_above result ≡ spec.compared operator sides.now.left sides.now.right }
{
    match operator {
        ConditionalOperator::Equality => Ok(sides.left == sides.right),
        ConditionalOperator::Inequality => Ok(sides.left != sides.right),
        ConditionalOperator::RegexMatch | ConditionalOperator::RegexMismatch => {
            Err(pattern_left_out(alloc, operator, token))
        }
    }
}

/// Puts the joined value and the part of a format string after the text.
pub(crate) fn push_joined(
    alloc: Global,
    text: &mut String,
    value: &Value,
    part: &str,
) -> Result<(), AllocError>
    ensures { OnOk result (string_bytes text.new ≡ string_bytes text.old ++ (joined value.now ++ part.now)) }
{
    let joined = value.join(alloc)?;
    text.push_str(joined.as_str())?;
    text.push_str(part)
}

/// A format string's value, unindented if it has three marks.
pub(crate) fn laid_out<'src>(
    alloc: Global,
    tripled: bool,
    text: String,
) -> Result<Value, Failure<'src>>
    ensures { seen_above result ≢ Err memory → seen_above result ≡ Ok (spec.laid_out tripled (string_bytes text) ∷ []) }
{
    if tripled {
        let text = unindent(alloc, text.as_str())?;
        Ok(Value::from_string(alloc, text.into_string())?)
    } else {
        Ok(Value::from_string(alloc, text)?)
    }
}

/// The value as an argument of the built-in function, which takes one text or any value there.
pub(crate) fn argument<'src>(
    alloc: Global,
    value: Value,
    is_text: bool,
    name: &Name<'src>,
) -> Result<Value, Failure<'src>>
    ensures { seen_above result ≢ Err memory → seen_above result ≡ as_argument is_text (lexeme name.now.token) value }
{
    if is_text && value.len() != 1 {
        return Err(list_as_argument(alloc, value, name));
    }
    Ok(value)
}

/// The one element of the value.
pub(crate) fn only_text<'src>(
    alloc: Global,
    value: Value,
    context: StringContext<'src>,
) -> Result<String, Error<'src>>
    ensures { seen_as string_bytes result ≢ Err memory → seen_as string_bytes result ≡ spec.one_text (text_place context.entry) value }
{
    if value.len() == 1 {
        Ok(value.join(alloc)?)
    } else {
        Err(Error::Const(ConstEvalError::ListInStringContext { context, value }))
    }
}
