//! Arguments of attributes.
ghost use Rattle.std.specs.Prelude.{◌≡◌, true, false, MatchOption, Some};
ghost use Rattle.tree_attributes.specs.Given as spec;

use crate::argument_form::ArgumentForm;
use crate::attribute::ArgumentOptions;
use just_text::Token;
use tree_expressions::{Expression, StringLiteral};

/// Arguments of an attribute as they are written.
#[derive(Drop)]
pub enum AttributeArguments<'src> {
    Nothing,
    /// The name of a parameter, and its options.
    Options(ArgumentOptions<'src>),
    Strings {
        first: StringLiteral<'src>,
        others: Vec<StringLiteral<'src>>,
    },
    Expressions {
        first: Expression<'src>,
        others: Vec<Expression<'src>>,
        /// The token with which the first expression begins.
        token: Token<'src>,
    },
}

/// Whether strings are what the form asks for.
fn takes_strings(form: ArgumentForm) -> bool
    ensures { result ≡ spec.takes_strings form }
{
    match form {
        ArgumentForm::OneString | ArgumentForm::OptionalString | ArgumentForm::Strings => true,
        _ => false,
    }
}

/// Whether expressions are what the form asks for.
fn takes_expressions(form: ArgumentForm) -> bool
    ensures { result ≡ spec.takes_expressions form }
{
    match form {
        ArgumentForm::Expressions
        | ArgumentForm::OptionalExpression
        | ArgumentForm::TwoExpressions => true,
        _ => false,
    }
}

/// Whether options of a parameter are what the form asks for.
fn takes_options(form: ArgumentForm) -> bool
    ensures { result ≡ spec.takes_options form }
{
    match form {
        ArgumentForm::Parameter => true,
        _ => false,
    }
}

impl<'src> AttributeArguments<'src> {
    /// How many there are; the options of an `arg` count as one with their parameter.
    pub fn count(&self) -> usize
        ensures { result ≡ spec.count self.now }
    {
        match self {
            AttributeArguments::Nothing => 0,
            AttributeArguments::Options(_) => 1,
            AttributeArguments::Strings { others, .. } => others.len() + 1,
            AttributeArguments::Expressions { others, .. } => others.len() + 1,
        }
    }

    /// The token with which they begin, where they aren't what the form asks for.
    pub(crate) fn unfit(&self, form: ArgumentForm) -> Option<Token<'src>>
        ensures { MatchOption result (spec.is_of_form form self.now ≡ true) (λ token. (spec.is_of_form form self.now ≡ false) × (spec.first_token self.now ≡ Some token)) }
    {
        let (fits, token) = match self {
            AttributeArguments::Nothing => return None,
            AttributeArguments::Options(options) => (takes_options(form), options.name.token),
            AttributeArguments::Strings { first, .. } => (takes_strings(form), first.token),
            AttributeArguments::Expressions { token, .. } => (takes_expressions(form), *token),
        };
        if fits { None } else { Some(token) }
    }
}
