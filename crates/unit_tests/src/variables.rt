//! Numbers of names.

use crate::tokens::name;
use just_text::{Number, Numerator};
use std::alloc::{AllocError, Global};
use std::cmp::Ordering;
use std::test::Fail;
use tree_attributes::{Attribute, AttributeItem, AttributeKind, AttributeSet};
use tree_expressions::Expression;
use tree_items::{ExpressionContext, resolve_attributes};

fn numbers() -> [Number; 3] {
    let numerator = Numerator::new(3);
    [
        numerator.constant(0),
        numerator.constant(1),
        numerator.constant(2),
    ]
}

#[test]
fn finds_the_last_of_equal_names(rt: HostRuntime) -> Result<(), Fail> {
    let [a, b, c] = numbers();
    let names = [(name("x"), a), (name("y"), b), (name("x"), c)];
    let context = ExpressionContext::from_names(rt.alloc(), &names)?;
    assert_eq!(rt; context.lookup("x"), Some(c));
    assert_eq!(rt; context.lookup("y"), Some(b));
    assert_eq!(rt; context.lookup("z"), None);
    Ok(())
}

/// A variable without a number.
fn variable(text: &'static str) -> Expression<'static> {
    Expression::Variable {
        name: name(text),
        number: None,
    }
}

/// How two variables without numbers stand to each other.
fn compared(first: &'static str, second: &'static str) -> (bool, Ordering) {
    let first = variable(first);
    let second = variable(second);
    (first == second, first.cmp(&second))
}

#[test]
fn compares_expressions(rt: HostRuntime) -> Result<(), Fail> {
    assert_eq!(rt; compared("x", "x"), (true, Ordering::Equal));
    assert_eq!(rt; compared("x", "y"), (false, Ordering::Less));
    assert_eq!(rt; compared("y", "x"), (false, Ordering::Greater));
    Ok(())
}

/// Whether the expression is a variable with this number.
fn has_number(expression: &Expression, number: Number) -> bool {
    match expression {
        Expression::Variable {
            number: Some(found),
            ..
        } => *found == number,
        _ => false,
    }
}

/// Whether these are the numbers of the key and the value of an `env`.
fn are_numbered(attribute: Option<&Attribute>, key_number: Number, value_number: Number) -> bool {
    match attribute {
        Some(Attribute::Env { key, value }) => {
            has_number(key, key_number) && has_number(value, value_number)
        }
        _ => false,
    }
}

/// Whether `env(x, y)` gets its numbers where the environment knows `x` and the bindings know `y`; the
/// context's number of `x` is not for it.
fn numbers_a_pair(alloc: Global) -> Result<bool, AllocError> {
    let [a, b, c] = numbers();
    let context = ExpressionContext::from_names(alloc, &[(name("x"), c)])?;
    let environment = ExpressionContext::from_names(alloc, &[(name("x"), a)])?;
    let bindings = ExpressionContext::from_names(alloc, &[(name("y"), b)])?;
    let env = Attribute::Env {
        key: variable("x"),
        value: Box::new(alloc, variable("y"))?,
    };
    let item = AttributeItem::new(alloc, env, name("env"))?;
    let mut items = Vec::new(alloc);
    items.push(item)?;
    let mut attributes = AttributeSet::from_items(items)?;
    resolve_attributes(&mut attributes, &context, &environment, &bindings);
    Ok(are_numbered(attributes.get(AttributeKind::Env), a, b))
}

#[test]
fn numbers_variables_of_attributes(rt: HostRuntime) -> Result<(), Fail> {
    assert!(rt; numbers_a_pair(rt.alloc())?);
    Ok(())
}
