//! The options of `arg`, as they are written.
ghost use Rattle.std.specs.Prelude.{IfOk, IfSome, option_map};
ghost use Rattle.just_text.specs.Tokens.{word_of};
ghost use Rattle.tree_expressions.specs.Shape.{shape_of, written};
ghost use Rattle.parse_expressions.specs.Literals.{IsCooked};
ghost use Rattle.parse_expressions.specs.Origins.{origin_of};
ghost use Rattle.parse_expressions.specs.Reading.{Gives, ahead};
ghost use Rattle.parse_expressions.specs.Strings.{IsCookedString};
ghost use Rattle.parse_attributes.specs.Held.{IsCookedOption, option_shape};
ghost use Rattle.parse_attributes.specs.Reading.{assigned_at, long_at, named_at, option_at, unknown_at, value_at};

mod adding;

use just_text::{Expander, TokenKind};
use parse_expressions::{Context, Cursor, Fault};
use tree_expressions::{Expression, StringLiteral};

/// An option as it is written.
pub(crate) enum OptionRead<'src> {
    Flag,
    Multiple,
    /// With a name, or with that of the parameter.
    Long(Option<StringLiteral<'src>>),
    Help(StringLiteral<'src>),
    Max(StringLiteral<'src>),
    Min(StringLiteral<'src>),
    Short(StringLiteral<'src>),
    Value(Expression<'src>),
}

impl Drop for OptionRead<'_> {
    fn drop(self) {
        match self {
            OptionRead::Flag | OptionRead::Multiple => {}
            OptionRead::Long(_name) => {}
            OptionRead::Help(_text)
            | OptionRead::Max(_text)
            | OptionRead::Min(_text)
            | OptionRead::Short(_text) => {}
            OptionRead::Value(_value) => {}
        }
    }
}

/// `=` and a string.
#[tactic(auto, unfolding(crate::specs::Reading::assigned_at))]
fn assigned<'src, E: Expander>(
    cursor: &mut Cursor<'_, 'src>,
    context: &Context<'_, 'src, E>,
) -> Result<StringLiteral<'src>, Fault<'src>>
    ensures gives { Gives (λ s. (written s, ahead cursor.new)) result (assigned_at word_of (E.expansion context.now.expander.now) (ahead cursor.old)) }
    ensures cooked { IfOk result (IsCookedString (E.expansion context.now.expander.now)) }
{
    cursor.expect(TokenKind::Equals)?;
    cursor.string(context)
}

/// `=` and a name, or nothing.
#[tactic(auto, unfolding(crate::specs::Reading::long_at))]
fn long<'src, E: Expander>(
    cursor: &mut Cursor<'_, 'src>,
    context: &Context<'_, 'src, E>,
) -> Result<Option<StringLiteral<'src>>, Fault<'src>>
    ensures gives { Gives (λ s. (option_map written s, ahead cursor.new)) result (long_at word_of (E.expansion context.now.expander.now) (ahead cursor.old)) }
    ensures cooked { IfOk result (λ s. IfSome s (IsCookedString (E.expansion context.now.expander.now))) }
{
    if cursor.accept(TokenKind::Equals).is_none() {
        return Ok(None);
    }
    Ok(Some(cursor.string(context)?))
}

/// `=` and an expression.
#[tactic(auto, unfolding(crate::specs::Reading::value_at))]
fn value<'src, E: Expander>(
    cursor: &mut Cursor<'_, 'src>,
    context: &Context<'_, 'src, E>,
) -> Result<Expression<'src>, Fault<'src>>
    ensures gives { Gives (λ e. (shape_of e, ahead cursor.new)) result (value_at word_of (E.expansion context.now.expander.now) (ahead cursor.old)) }
    ensures cooked { IfOk result (IsCooked (origin_of E.expansion context.now)) }
{
    cursor.expect(TokenKind::Equals)?;
    cursor.expression(context)
}

/// What stands after the name of an option that is not known: `=` and an expression, or nothing.
#[tactic(auto, unfolding(crate::specs::Reading::unknown_at))]
fn unknown<'src, E: Expander>(
    cursor: &mut Cursor<'_, 'src>,
    context: &Context<'_, 'src, E>,
) -> Result<(), Fault<'src>>
    ensures { Gives (λ _. ahead cursor.new) result (unknown_at word_of (E.expansion context.now.expander.now) (ahead cursor.old)) }
{
    if cursor.accept(TokenKind::Equals).is_none() {
        return Ok(());
    }
    drop(cursor.expression(context)?);
    Ok(())
}

/// The option with that name, if it is known, from what stands after the name.
#[tactic(auto, unfolding(crate::specs::Reading::named_at))]
fn named<'src, E: Expander>(
    cursor: &mut Cursor<'_, 'src>,
    context: &Context<'_, 'src, E>,
    name: &str,
) -> Result<Option<OptionRead<'src>>, Fault<'src>>
    ensures gives { Gives (λ o. (option_map option_shape o, ahead cursor.new)) result (named_at word_of (E.expansion context.now.expander.now) name.now (ahead cursor.old)) }
    ensures cooked { IfOk result (λ o. IfSome o (IsCookedOption (origin_of E.expansion context.now))) }
{
    match name {
        "flag" => Ok(Some(OptionRead::Flag)),
        "multiple" => Ok(Some(OptionRead::Multiple)),
        "long" => Ok(Some(OptionRead::Long(long(cursor, context)?))),
        "help" => Ok(Some(OptionRead::Help(assigned(cursor, context)?))),
        "max" => Ok(Some(OptionRead::Max(assigned(cursor, context)?))),
        "min" => Ok(Some(OptionRead::Min(assigned(cursor, context)?))),
        "short" => Ok(Some(OptionRead::Short(assigned(cursor, context)?))),
        "value" => Ok(Some(OptionRead::Value(value(cursor, context)?))),
        _ => {
            unknown(cursor, context)?;
            Ok(None)
        }
    }
}

/// An option; none where it is not known.
#[tactic(auto, unfolding(crate::specs::Reading::option_at))]
pub(crate) fn option<'src, E: Expander>(
    cursor: &mut Cursor<'_, 'src>,
    context: &Context<'_, 'src, E>,
) -> Result<Option<OptionRead<'src>>, Fault<'src>>
    ensures gives { Gives (λ o. (option_map option_shape o, ahead cursor.new)) result (option_at word_of (E.expansion context.now.expander.now) (ahead cursor.old)) }
    ensures cooked { IfOk result (λ o. IfSome o (IsCookedOption (origin_of E.expansion context.now))) }
{
    let token = cursor.expect(TokenKind::Identifier)?;
    named(cursor, context, token.lexeme())
}
