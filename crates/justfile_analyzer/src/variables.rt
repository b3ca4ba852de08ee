//! The texts of variables.
ghost use Rattle.std.specs.Prelude.{◌≡◌, ◌++◌, IfOk, OnOk};
ghost use Rattle.std.specs.String.{string_bytes};
ghost use Rattle.justfile_analyzer.specs.Variables as spec;

use crate::padding::push_spaces;
use evaluate_context::AssignmentRef;
use just_value::{Scope, Value};
use std::alloc::{AllocError, Global};

/// How long the name is, none where the variable is private.
fn counted_name(variable: AssignmentRef) -> usize
    ensures { result ≡ spec.counted_name variable.entry }
{
    if variable.assignment.private {
        0
    } else {
        variable.assignment.name.lexeme().len()
    }
}

/// The length of the longest name that is not private.
fn longest(variables: &[AssignmentRef]) -> usize
    ensures { result ≡ spec.longest variables.now }
{
    let mut longest = 0;
    for variable in variables {
        longest = counted_name(*variable).max(longest);
    }
    longest
}

/// Puts the name there, with spaces up to the column, and the value.
fn push_value(
    alloc: Global,
    text: &mut String,
    column: usize,
    name: &str,
    value: &Value,
) -> Result<(), AllocError>
    ensures { OnOk result (string_bytes text.new ≡ string_bytes text.old ++ spec.value_line column name.now (Some value.now)) }
{
    let value = value.to_string(alloc)?;
    text.push_str(name)?;
    push_spaces(text, column.saturating_sub(name.len()))?;
    text.push_str(" := ")?;
    text.push_str(value.as_str())?;
    text.push('\n')
}

/// Puts the variable's line there, nothing where it is private or has no value.
fn push_variable(
    alloc: Global,
    text: &mut String,
    scope: &Scope,
    column: usize,
    variable: AssignmentRef,
) -> Result<(), AllocError>
    ensures { OnOk result (string_bytes text.new ≡ string_bytes text.old ++ spec.variable_line scope.now column variable.entry) }
{
    if variable.assignment.private {
        return Ok(());
    }
    match scope.value(variable.assignment.number) {
        Some(value) => push_value(
            alloc,
            text,
            column,
            variable.assignment.name.lexeme(),
            value,
        ),
        None => Ok(()),
    }
}

/// The variables that are not private, each with its printed value in the frame, one a line. Refused
/// only where memory runs out.
pub fn variables_text(
    alloc: Global,
    variables: &[AssignmentRef],
    scope: &Scope,
) -> Result<String, AllocError>
    ensures { IfOk result (λ text. string_bytes text ≡ spec.variables_text scope.now variables.now) }
{
    let column = longest(variables);
    let mut text = String::new(alloc);
    for variable in variables {
        push_variable(alloc, &mut text, scope, column, *variable)?;
    }
    Ok(text)
}
