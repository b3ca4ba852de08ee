//! The calls and variables of expressions.
ghost use Rattle.std.specs.Prelude.{◌≡◌, ◌++◌, ◌∷◌, [], length, OnOk, IfOk};
ghost use Rattle.std.specs.List.{flat_map};
ghost use Rattle.resolve_references.specs.declared.references.Reference.TheVariants.{Call, Variable};
ghost use Rattle.resolve_references.specs.References.{references_of, references_if_there, references_in_interpolation};

use just_text::{Name, Number};
use std::alloc::{AllocError, Global};
use std::{slice, vec};
use tree_expressions::{Expression, StringLiteral};

/// A call or a variable of an expression.
#[derive(Clone, Copy, Debug)]
pub enum Reference<'src> {
    /// A function's name where it is called, and how many arguments it is given.
    Call {
        name: Name<'src>,
        arguments: usize,
    },
    /// A variable's name where it is read, and the number of what it stands for, if it has one.
    Variable {
        name: Name<'src>,
        number: Option<Number>,
    },
}

/// The calls and variables of expressions, each once for each time that it stands there, a call
/// before its arguments.
#[derive(Drop)]
pub struct References<'src> {
    list: Vec<Reference<'src>>,
}

impl<'src> References<'src> {
    /// No calls and variables. Takes no memory.
    pub fn new(alloc: Global) -> References<'src>
        ensures { result.list.items ≡ [] }
    {
        References {
            list: Vec::new(alloc),
        }
    }

    /// Those of the expression.
    pub fn of(alloc: Global, expression: &Expression<'src>) -> Result<References<'src>, AllocError>
        ensures { IfOk result (λ r. r.list.items ≡ references_of expression.now) }
    {
        let mut list = Vec::new(alloc);
        push(&mut list, expression)?;
        Ok(References { list })
    }

    /// Puts those of the expression after the others.
    pub fn add(&mut self, expression: &Expression<'src>) -> Result<(), AllocError>
        ensures { OnOk result (self.new.list.items ≡ self.old.list.items ++ references_of expression.now) }
    {
        push(&mut self.list, expression)
    }

    /// The calls and variables in order.
    pub fn as_slice(&self) -> &[Reference<'src>]
        ensures { result.now ≡ self.now.list.items }
    {
        self.list.as_slice()
    }
}

impl<'src> IntoIterator for References<'src> {
    ghost use Rattle.std.specs.Vec.Iter.{into_iter_items};

    type Item = Reference<'src>;

    type IntoIter = vec::IntoIter<Reference<'src>>;

    ghost into_iter_gives = { λ references items. into_iter_items items ≡ references.list.items };

    fn into_iter(self) -> vec::IntoIter<Reference<'src>> {
        self.list.into_iter()
    }
}

impl<'a, 'src> IntoIterator for &'a References<'src> {
    ghost use Rattle.std.specs.Slice.Iter.{iter_rest};

    type Item = &'a Reference<'src>;

    type IntoIter = slice::Iter<'a, Reference<'src>>;

    ghost into_iter_gives = { λ references items. iter_rest items ≡ references.now.list.items };

    fn into_iter(self) -> slice::Iter<'a, Reference<'src>> {
        self.list.iter()
    }
}

/// Puts the calls and variables of the expression after those that were found.
#[cycle(references)]
fn push<'src>(
    found: &mut Vec<Reference<'src>>,
    expression: &Expression<'src>,
) -> Result<(), AllocError>
    ensures { OnOk result (found.new.items ≡ found.old.items ++ references_of expression.now) }
{
    match expression {
        Expression::And { lhs, rhs } | Expression::Or { lhs, rhs } => push_both(found, lhs, rhs),
        Expression::Comparison { lhs, rhs, .. } => push_both(found, lhs, rhs),
        Expression::Concatenation { lhs, rhs, .. }
        | Expression::ListConcatenation { lhs, rhs, .. } => push_both(found, lhs, rhs),
        Expression::Assert {
            condition,
            message,
            ..
        } => {
            push(found, condition)?;
            push_if_there(found, message)
        }
        Expression::Call { name, arguments } => push_call(found, *name, arguments),
        Expression::Conditional {
            condition,
            then,
            otherwise,
        } => {
            push_both(found, condition, then)?;
            push_if_there(found, otherwise)
        }
        Expression::FormatString { expressions, .. } => push_interpolations(found, expressions),
        Expression::Group { contents } => push(found, contents),
        Expression::Join { lhs, rhs, .. } => {
            push_if_there(found, lhs)?;
            push(found, rhs)
        }
        Expression::List { elements, .. } => push_row(found, elements),
        Expression::Not { operand } => push(found, operand),
        Expression::Variable { name, number } => push_variable(found, *name, *number),
        Expression::Backtick { .. } | Expression::StringLiteral { .. } => Ok(()),
    }
}

fn push_variable<'src>(
    found: &mut Vec<Reference<'src>>,
    name: Name<'src>,
    number: Option<Number>,
) -> Result<(), AllocError>
    ensures { OnOk result (found.new.items ≡ found.old.items ++ (Variable name.entry number ∷ [])) }
{
    match found.push(Reference::Variable { name, number }) {
        Ok(()) => Ok(()),
        Err(_) => Err(AllocError),
    }
}

fn push_call_alone<'src>(
    found: &mut Vec<Reference<'src>>,
    name: Name<'src>,
    arguments: usize,
) -> Result<(), AllocError>
    ensures { OnOk result (found.new.items ≡ found.old.items ++ (Call name.entry arguments ∷ [])) }
{
    match found.push(Reference::Call { name, arguments }) {
        Ok(()) => Ok(()),
        Err(_) => Err(AllocError),
    }
}

#[cycle(references)]
fn push_both<'src>(
    found: &mut Vec<Reference<'src>>,
    lhs: &Expression<'src>,
    rhs: &Expression<'src>,
) -> Result<(), AllocError>
    ensures { OnOk result (found.new.items ≡ found.old.items ++ (references_of lhs.now ++ references_of rhs.now)) }
{
    push(found, lhs)?;
    push(found, rhs)
}

#[cycle(references)]
fn push_if_there<'src>(
    found: &mut Vec<Reference<'src>>,
    expression: &Option<Box<Expression<'src>>>,
) -> Result<(), AllocError>
    ensures { OnOk result (found.new.items ≡ found.old.items ++ references_if_there expression.now) }
{
    match expression {
        None => Ok(()),
        Some(expression) => push(found, expression),
    }
}

/// Puts the call there, and after it what its arguments have.
#[cycle(references)]
fn push_call<'src>(
    found: &mut Vec<Reference<'src>>,
    name: Name<'src>,
    arguments: &[Expression<'src>],
) -> Result<(), AllocError>
    ensures { OnOk result (found.new.items ≡ found.old.items ++ (Call name.entry (length arguments.now) ∷ flat_map references_of arguments.now)) }
{
    push_call_alone(found, name, arguments.len())?;
    push_row(found, arguments)
}

#[cycle(references)]
fn push_row<'src>(
    found: &mut Vec<Reference<'src>>,
    expressions: &[Expression<'src>],
) -> Result<(), AllocError>
    ensures { OnOk result (found.new.items ≡ found.old.items ++ flat_map references_of expressions.now) }
{
    for expression in expressions {
        push(found, expression)?;
    }
    Ok(())
}

#[cycle(references)]
fn push_interpolations<'src>(
    found: &mut Vec<Reference<'src>>,
    interpolations: &[(Expression<'src>, StringLiteral<'src>)],
) -> Result<(), AllocError>
    ensures { OnOk result (found.new.items ≡ found.old.items ++ flat_map references_in_interpolation interpolations.now) }
{
    for (expression, _) in interpolations {
        push(found, expression)?;
    }
    Ok(())
}
