//! Which arguments attributes take.
ghost use Rattle.std.specs.Prelude.{◌≡◌};
ghost use Rattle.tree_attributes.specs.Forms as spec;

use crate::attribute::AttributeKind;

/// What arguments an attribute takes.
#[derive(Clone, Copy, Debug, PartialEq, Eq)]
pub enum ArgumentForm {
    /// Any number of expressions.
    Expressions,
    Nothing,
    OneString,
    /// None, or an expression.
    OptionalExpression,
    /// None, or a string.
    OptionalString,
    /// The name of a parameter, and its options.
    Parameter,
    /// One or more strings.
    Strings,
    TwoExpressions,
}

impl ArgumentForm {
    /// The form of the arguments of an attribute.
    pub fn of(kind: AttributeKind) -> ArgumentForm
        ensures { result ≡ spec.form_of kind }
    {
        match kind {
            AttributeKind::Arg => ArgumentForm::Parameter,
            AttributeKind::Confirm => ArgumentForm::OptionalExpression,
            AttributeKind::Doc => ArgumentForm::OptionalString,
            AttributeKind::Env => ArgumentForm::TwoExpressions,
            AttributeKind::Extension | AttributeKind::Group | AttributeKind::WorkingDirectory => {
                ArgumentForm::OneString
            }
            AttributeKind::Metadata => ArgumentForm::Strings,
            AttributeKind::Script => ArgumentForm::Expressions,
            _ => ArgumentForm::Nothing,
        }
    }

    /// Whether there may be so many arguments.
    pub fn takes(self, count: usize) -> bool
        ensures { result ≡ spec.takes self count }
    {
        match self {
            ArgumentForm::Nothing => count == 0,
            ArgumentForm::OptionalString | ArgumentForm::OptionalExpression => count <= 1,
            ArgumentForm::OneString => count == 1,
            ArgumentForm::Strings | ArgumentForm::Parameter => 1 <= count,
            ArgumentForm::TwoExpressions => count == 2,
            ArgumentForm::Expressions => true,
        }
    }
}
