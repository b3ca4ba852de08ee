//! Arguments of attributes.
ghost use Rattle.std.specs.Prelude.{◌≡◌, IfOk, map, true};
ghost use Rattle.std.specs.List.{All};
ghost use Rattle.just_text.specs.Tokens.{word_of};
ghost use Rattle.tree_expressions.specs.Shape.{shape_of, written};
ghost use Rattle.parse_expressions.specs.Literals.{Origin, AreCooked};
ghost use Rattle.parse_expressions.specs.Origins.{origin_of};
ghost use Rattle.parse_expressions.specs.Reading.{Gives, ahead};
ghost use Rattle.parse_expressions.specs.Strings.{IsCookedString};
ghost use Rattle.parse_attributes.specs.Arguments.{count, lone, of_expressions, of_parameter, of_strings, sort_of};
ghost use Rattle.parse_attributes.specs.Held.{IsCookedArguments, IsCookedGiven, arguments_shape, given_shape, is_of_sort};
ghost use Rattle.parse_attributes.specs.Reading.{arguments_at, inside_at, option_at, others_at, text_at, whole_at};

mod make;

use crate::parameter_option::{OptionRead, option};
use crate::pushing::push_read;
use just_text::{Expander, TokenKind, both};
use parse_expressions::{Context, Cursor, Fault, is_more};
use std::alloc::Global;
use tree_attributes::ArgumentForm;
use tree_expressions::{Expression, StringLiteral};

/// Arguments as they are written.
pub(crate) enum ArgumentsRead<'src> {
    Nothing,
    Strings {
        first: StringLiteral<'src>,
        others: Vec<StringLiteral<'src>>,
    },
    Expressions {
        first: Expression<'src>,
        others: Vec<Expression<'src>>,
    },
    /// The name of a parameter, and its options; an option that is not known is none.
    Parameter {
        name: StringLiteral<'src>,
        options: Vec<Option<OptionRead<'src>>>,
    },
}

impl Drop for ArgumentsRead<'_> {
    fn drop(self) {
        match self {
            ArgumentsRead::Nothing => {}
            ArgumentsRead::Strings {
                first: _first,
                others: _others,
            } => {}
            ArgumentsRead::Expressions {
                first: _first,
                others: _others,
            } => {}
            ArgumentsRead::Parameter {
                name: _name,
                options: _options,
            } => {}
        }
    }
}

impl ArgumentsRead<'_> {
    /// How many there are; the options count as one with their parameter.
    pub(crate) fn count(&self) -> usize
        ensures { result ≡ count (arguments_shape self.now) }
    {
        match self {
            ArgumentsRead::Nothing => 0,
            ArgumentsRead::Strings { others, .. } => others.len() + 1,
            ArgumentsRead::Expressions { others, .. } => others.len() + 1,
            ArgumentsRead::Parameter { .. } => 1,
        }
    }
}

/// Strings after the first, up to a closing parenthesis.
fn strings<'src, E: Expander>(
    alloc: Global,
    cursor: &mut Cursor<'_, 'src>,
    context: &Context<'_, 'src, E>,
) -> Result<Vec<StringLiteral<'src>>, Fault<'src>>
    ensures gives { Gives (λ ss. (map written ss.items, ahead cursor.new)) result (others_at word_of (E.expansion context.now.expander.now) (text_at word_of (E.expansion context.now.expander.now)) (ahead cursor.old)) }
    ensures cooked { IfOk result (λ ss. All (IsCookedString (E.expansion context.now.expander.now)) ss.items) }
{
    let mut strings = Vec::new(alloc);
    while is_more(cursor, TokenKind::ParenR)? {
        push_read(&mut strings, cursor.string(context))?;
    }
    Ok(strings)
}

/// Expressions after the first, up to a closing parenthesis.
fn expressions<'src, E: Expander>(
    alloc: Global,
    cursor: &mut Cursor<'_, 'src>,
    context: &Context<'_, 'src, E>,
) -> Result<Vec<Expression<'src>>, Fault<'src>>
    ensures gives { Gives (λ es. (map shape_of es.items, ahead cursor.new)) result (others_at word_of (E.expansion context.now.expander.now) (whole_at word_of (E.expansion context.now.expander.now)) (ahead cursor.old)) }
    ensures cooked { IfOk result (λ es. AreCooked (origin_of E.expansion context.now) es.items) }
{
    let mut expressions = Vec::new(alloc);
    while is_more(cursor, TokenKind::ParenR)? {
        push_read(&mut expressions, cursor.expression(context))?;
    }
    Ok(expressions)
}

/// Options after the name of a parameter, up to a closing parenthesis.
fn options<'src, E: Expander>(
    alloc: Global,
    cursor: &mut Cursor<'_, 'src>,
    context: &Context<'_, 'src, E>,
) -> Result<Vec<Option<OptionRead<'src>>>, Fault<'src>>
    ensures gives { Gives (λ os. (map given_shape os.items, ahead cursor.new)) result (others_at word_of (E.expansion context.now.expander.now) (option_at word_of (E.expansion context.now.expander.now)) (ahead cursor.old)) }
    ensures cooked { IfOk result (λ os. All (IsCookedGiven (origin_of E.expansion context.now)) os.items) }
{
    let mut options = Vec::new(alloc);
    while is_more(cursor, TokenKind::ParenR)? {
        push_read(&mut options, option(cursor, context))?;
    }
    Ok(options)
}

/// One or more strings, and a closing parenthesis.
#[tactic(auto, unfolding(crate::specs::Reading::inside_at))]
fn strings_inside<'src, E: Expander>(
    alloc: Global,
    cursor: &mut Cursor<'_, 'src>,
    context: &Context<'_, 'src, E>,
) -> Result<ArgumentsRead<'src>, Fault<'src>>
    ensures gives { Gives (λ a. (arguments_shape a, ahead cursor.new)) result (inside_at word_of (E.expansion context.now.expander.now) of_strings (ahead cursor.old)) }
    ensures cooked { IfOk result (IsCookedArguments (origin_of E.expansion context.now)) }
    ensures sort { IfOk result (λ a. is_of_sort of_strings (arguments_shape a) ≡ true) }
{
    let first = cursor.string(context)?;
    let (first, others) = both(first, strings(alloc, cursor, context))?;
    Ok(ArgumentsRead::Strings { first, others })
}

/// One or more expressions, and a closing parenthesis.
#[tactic(auto, unfolding(crate::specs::Reading::inside_at))]
fn expressions_inside<'src, E: Expander>(
    alloc: Global,
    cursor: &mut Cursor<'_, 'src>,
    context: &Context<'_, 'src, E>,
) -> Result<ArgumentsRead<'src>, Fault<'src>>
    ensures gives { Gives (λ a. (arguments_shape a, ahead cursor.new)) result (inside_at word_of (E.expansion context.now.expander.now) of_expressions (ahead cursor.old)) }
    ensures cooked { IfOk result (IsCookedArguments (origin_of E.expansion context.now)) }
    ensures sort { IfOk result (λ a. is_of_sort of_expressions (arguments_shape a) ≡ true) }
{
    let first = cursor.expression(context)?;
    match expressions(alloc, cursor, context) {
        Ok(others) => Ok(ArgumentsRead::Expressions { first, others }),
        Err(fault) => {
            drop(first);
            Err(fault)
        }
    }
}

/// The name of a parameter, its options, and a closing parenthesis.
#[tactic(auto, unfolding(crate::specs::Reading::inside_at))]
fn parameter_inside<'src, E: Expander>(
    alloc: Global,
    cursor: &mut Cursor<'_, 'src>,
    context: &Context<'_, 'src, E>,
) -> Result<ArgumentsRead<'src>, Fault<'src>>
    ensures gives { Gives (λ a. (arguments_shape a, ahead cursor.new)) result (inside_at word_of (E.expansion context.now.expander.now) of_parameter (ahead cursor.old)) }
    ensures cooked { IfOk result (IsCookedArguments (origin_of E.expansion context.now)) }
    ensures sort { IfOk result (λ a. is_of_sort of_parameter (arguments_shape a) ≡ true) }
{
    let name = cursor.string(context)?;
    let (name, options) = both(name, options(alloc, cursor, context))?;
    Ok(ArgumentsRead::Parameter { name, options })
}

/// Arguments of that form, one or more, and a closing parenthesis.
fn inside<'src, E: Expander>(
    alloc: Global,
    cursor: &mut Cursor<'_, 'src>,
    context: &Context<'_, 'src, E>,
    form: ArgumentForm,
) -> Result<ArgumentsRead<'src>, Fault<'src>>
    ensures gives { Gives (λ a. (arguments_shape a, ahead cursor.new)) result (inside_at word_of (E.expansion context.now.expander.now) (sort_of form) (ahead cursor.old)) }
    ensures cooked { IfOk result (IsCookedArguments (origin_of E.expansion context.now)) }
    ensures sort { IfOk result (λ a. is_of_sort (sort_of form) (arguments_shape a) ≡ true) }
{
    match form {
        ArgumentForm::OneString | ArgumentForm::OptionalString | ArgumentForm::Strings => {
            strings_inside(alloc, cursor, context)
        }
        ArgumentForm::Parameter => parameter_inside(alloc, cursor, context),
        _ => expressions_inside(alloc, cursor, context),
    }
}

/// A string alone, as an argument of that form.
fn lone<'src>(
    alloc: Global,
    form: ArgumentForm,
    string_literal: StringLiteral<'src>,
) -> ArgumentsRead<'src>
    ensures shape { arguments_shape result ≡ lone (sort_of form) (written string_literal.entry) }
    ensures cooked { (origin : Origin) → IsCookedString origin.expansion string_literal.entry → IsCookedArguments origin result }
{
    match form {
        ArgumentForm::OneString | ArgumentForm::OptionalString | ArgumentForm::Strings => {
            ArgumentsRead::Strings {
                first: string_literal,
                others: Vec::new(alloc),
            }
        }
        ArgumentForm::Parameter => ArgumentsRead::Parameter {
            name: string_literal,
            options: Vec::new(alloc),
        },
        _ => ArgumentsRead::Expressions {
            first: Expression::StringLiteral { string_literal },
            others: Vec::new(alloc),
        },
    }
}

/// Arguments of that form in parentheses, or a string after a colon, or nothing.
#[tactic(auto, unfolding(crate::specs::Reading::arguments_at))]
pub(crate) fn arguments<'src, E: Expander>(
    alloc: Global,
    cursor: &mut Cursor<'_, 'src>,
    context: &Context<'_, 'src, E>,
    form: ArgumentForm,
) -> Result<ArgumentsRead<'src>, Fault<'src>>
    ensures gives { Gives (λ a. (arguments_shape a, ahead cursor.new)) result (arguments_at word_of (E.expansion context.now.expander.now) (sort_of form) (ahead cursor.old)) }
    ensures cooked { IfOk result (IsCookedArguments (origin_of E.expansion context.now)) }
    ensures sort { IfOk result (λ a. is_of_sort (sort_of form) (arguments_shape a) ≡ true) }
{
    if cursor.accept(TokenKind::ParenL).is_some() {
        return inside(alloc, cursor, context, form);
    }
    if cursor.accept(TokenKind::Colon).is_none() {
        return Ok(ArgumentsRead::Nothing);
    }
    let string = cursor.string(context)?;
    Ok(lone(alloc, form, string))
}
