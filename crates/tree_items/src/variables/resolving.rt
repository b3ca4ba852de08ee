//! Numbers for the variables of expressions, from two contexts.
ghost use Rattle.tree_expressions.specs.Numbering.{IsNumbered};
ghost use Rattle.tree_items.specs.Resolving.{number_for};

use crate::variables::context::ExpressionContext;
use just_text::Number;
use tree_expressions::{Expression, VariableNumbers};

/// Where the numbers of names stand.
#[derive(Clone, Copy)]
pub(crate) struct Scope<'a, 'src> {
    pub context: &'a ExpressionContext<'src>,
    pub bindings: &'a ExpressionContext<'src>,
}

impl VariableNumbers for Scope<'_, '_> {
    ghost number = { λ scope. number_for scope.context.now scope.bindings.now };

    /// The context's number for the name, else the bindings'.
    fn number_for(&self, name: &str) -> Option<Number> {
        match self.context.lookup(name) {
            Some(number) => Some(number),
            None => self.bindings.lookup(name),
        }
    }
}

/// Gives each variable of the expression, and of all expressions in it, the context's number for
/// its name, else the bindings' number, else none. Nothing else changes. Takes no memory.
pub fn resolve_variables<'a, 'src>(
    expression: &mut Expression,
    context: &'a ExpressionContext<'src>,
    bindings: &'a ExpressionContext<'src>,
)
    ensures { IsNumbered (number_for context.now bindings.now) expression.old expression.new }
{
    expression.resolve_variables(&Scope { context, bindings });
}
