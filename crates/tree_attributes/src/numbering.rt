//! Numbers for the variables in attributes.
ghost use Rattle.std.specs.Prelude.{◌≡◌};
ghost use Rattle.tree_attributes.specs.Attributes.{attribute_shape};
ghost use Rattle.tree_expressions.specs.Numbering.{AreNumbered};
ghost use Rattle.tree_attributes.specs.Sets.Numbering.{IsNumberedAttribute, elements, expressions_of, if_there, key_of, texts_of, value_of};

use crate::{Attribute, Interpreter};
use tree_expressions::{Expression, VariableNumbers};

/// Gives the variables of the expressions in the attribute their numbers, those of an `env` the
/// environment's. Takes no memory.
pub fn number_attribute<N: VariableNumbers>(attribute: &mut Attribute, numbers: &N, environment: &N)
    ensures { IsNumberedAttribute (N.number numbers.now) (N.number environment.now) attribute.old attribute.new }
{
    number_front(attribute, numbers, environment);
    number_value(attribute, environment);
}

/// The same of all expressions but the value of an `env`.
fn number_front<N: VariableNumbers>(attribute: &mut Attribute, numbers: &N, environment: &N)
    ensures shape { attribute_shape attribute.new ≡ attribute_shape attribute.old }
    ensures texts { texts_of attribute.new ≡ texts_of attribute.old }
    ensures expressions { AreNumbered (N.number numbers.now) (expressions_of attribute.old) (expressions_of attribute.new) }
    ensures key { AreNumbered (N.number environment.now) (key_of attribute.old) (key_of attribute.new) }
    ensures value { value_of attribute.new ≡ value_of attribute.old }
{
    match attribute {
        Attribute::Arg(options) => number_if_there(&mut options.value, numbers),
        Attribute::Confirm(prompt) => number_if_there(prompt, numbers),
        Attribute::Env { key, .. } => key.resolve_variables(environment),
        Attribute::Script(Some(interpreter)) => number_interpreter(interpreter, numbers),
        _ => {}
    }
}

/// The same of the value of an `env`.
fn number_value<N: VariableNumbers>(attribute: &mut Attribute, numbers: &N)
    ensures shape { attribute_shape attribute.new ≡ attribute_shape attribute.old }
    ensures texts { texts_of attribute.new ≡ texts_of attribute.old }
    ensures expressions { expressions_of attribute.new ≡ expressions_of attribute.old }
    ensures key { key_of attribute.new ≡ key_of attribute.old }
    ensures value { AreNumbered (N.number numbers.now) (value_of attribute.old) (value_of attribute.new) }
{
    if let Attribute::Env { value, .. } = attribute {
        value.resolve_variables(numbers);
    }
}

/// The same of an expression, if it is there.
fn number_if_there<N: VariableNumbers>(expression: &mut Option<Expression>, numbers: &N)
    ensures { AreNumbered (N.number numbers.now) (if_there expression.old) (if_there expression.new) }
{
    if let Some(expression) = expression {
        expression.resolve_variables(numbers);
    }
}

/// The same of a command and its arguments.
fn number_interpreter<N: VariableNumbers>(interpreter: &mut Interpreter<Expression>, numbers: &N)
    ensures { AreNumbered (N.number numbers.now) (elements interpreter.old) (elements interpreter.new) }
{
    interpreter.command.resolve_variables(numbers);
    number_row(&mut interpreter.arguments, numbers);
}

/// The same of a row of expressions.
fn number_row<N: VariableNumbers>(expressions: &mut Vec<Expression>, numbers: &N)
    ensures { AreNumbered (N.number numbers.now) expressions.old.items expressions.new.items }
{
    for index in 0..expressions.len() {
        expressions[index].resolve_variables(numbers);
    }
}
