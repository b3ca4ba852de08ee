//! Parameters of recipes.
ghost use Rattle.std.specs.Prelude.{◌≡◌, ℕ, suc, IfOk, IfSome, List, OnOk, Some, [], ◌∷◌, option_map, length};
ghost use Rattle.just_text.specs.Tokens.{lexeme, word_of};
ghost use Rattle.tree_items.specs.Recipes.{parameter_shapes};
ghost use Rattle.tree_expressions.specs.Shape.{shape_of};
ghost use Rattle.parse_recipes.specs.Numbering.{AreBindingsUsed, AreNumbered, GivesUnless, IsFrugal, IsNumbered};
ghost use Rattle.parse_expressions.specs.Literals.{IsCooked};
ghost use Rattle.parse_expressions.specs.Origins.{origin_of};
ghost use Rattle.parse_recipes.specs.Cooked.{AreParametersCooked, IsParameterCooked};
ghost use Rattle.parse_recipes.specs.Plain.{ArePlain, IsPlain};
ghost use Rattle.parse_recipes.specs.Seen.{HasRead, named_shape, with_name};
ghost use Rattle.parse_expressions.specs.Reading.{Gives, ahead};
ghost use Rattle.parse_recipes.specs.Reading.{default_at, kind_at, last_at, marked_at, named_at, parameter_ahead, parameter_at, parameters_at};

use crate::numbering::next_binding;
use crate::parameter_names::ParameterNames;
use crate::shrinking::push_compact;
use just_text::{CompileErrorKind, Expander, Name, Numerator, Text, Token, TokenKind};
use parse_expressions::{Context, Cursor, Fault};
use std::alloc::Global;
use tree_expressions::Expression;
use tree_items::{Parameter, ParameterKind};

/// The kind of a parameter by its mark, which is taken.
#[tactic(auto, unfolding(crate::specs::Reading::kind_at))]
fn kind(cursor: &mut Cursor) -> ParameterKind
    ensures { kind_at word_of (ahead cursor.old) ≡ (result, ahead cursor.new) }
{
    if cursor.accept(TokenKind::Plus).is_some() {
        return ParameterKind::Plus;
    }
    if cursor.accept(TokenKind::Asterisk).is_some() {
        return ParameterKind::Star;
    }
    ParameterKind::Singular
}

/// Whether a token of that kind comes first, which is taken.
#[tactic(auto, unfolding(crate::specs::Reading::marked_at))]
pub(crate) fn marked(cursor: &mut Cursor, kind: TokenKind) -> bool
    ensures { marked_at word_of kind (ahead cursor.old) ≡ (result, ahead cursor.new) }
{
    cursor.accept(kind).is_some()
}

/// A default after `=`, if there is one.
#[tactic(auto, unfolding(crate::specs::Reading::default_at))]
fn default<'src, E: Expander>(
    cursor: &mut Cursor<'_, 'src>,
    context: &Context<'_, 'src, E>,
) -> Result<Option<Expression<'src>>, Fault<'src>>
    ensures gives { Gives (λ d. (option_map shape_of d, ahead cursor.new)) result (default_at word_of (E.expansion context.now.expander.now) (ahead cursor.old)) }
    ensures cooked { IfOk result (λ d. IfSome d (IsCooked (origin_of E.expansion context.now))) }
{
    if cursor.accept(TokenKind::Equals).is_none() {
        return Ok(None);
    }
    Ok(Some(cursor.primary_expression(context)?))
}

/// What stands after the marks of a parameter.
#[tactic(auto, unfolding(crate::specs::Reading::named_at))]
fn named<'src, E: Expander>(
    cursor: &mut Cursor<'_, 'src>,
    context: &Context<'_, 'src, E>,
    numerator: &mut Numerator,
    kind: ParameterKind,
    export: bool,
) -> Result<Parameter<'src>, Fault<'src>>
    ensures gives { GivesUnless (AreBindingsUsed numerator.new) (λ p. (named_shape p, ahead cursor.new)) result (named_at word_of (E.expansion context.now.expander.now) kind export (ahead cursor.old)) }
    ensures number { IfOk result (λ p. IsNumbered numerator.old numerator.new (Some p)) }
    ensures frugal { IsFrugal (ahead cursor.old) numerator.old numerator.new }
    ensures plain { IfOk result IsPlain }
    ensures cooked { IfOk result (IsParameterCooked (origin_of E.expansion context.now)) }
{
    let name = cursor.expect(TokenKind::Identifier)?;
    let number = next_binding(numerator)?;
    let default = default(cursor, context)?;
    Ok(Parameter {
        default,
        export,
        flag: false,
        help: None,
        kind,
        long: None,
        max: None,
        min: None,
        multiple: false,
        name: Name::from_token(name),
        number,
        short: None,
        value: None,
    })
}

/// A parameter, if one comes here: a mark or a name.
#[tactic(auto, unfolding(crate::specs::Reading::parameter_at))]
fn parameter<'src, E: Expander>(
    cursor: &mut Cursor<'_, 'src>,
    context: &Context<'_, 'src, E>,
    numerator: &mut Numerator,
) -> Result<Option<Parameter<'src>>, Fault<'src>>
    ensures gives { GivesUnless (AreBindingsUsed numerator.new) (λ p. (option_map named_shape p, ahead cursor.new)) result (parameter_at word_of (E.expansion context.now.expander.now) (ahead cursor.old)) }
    ensures number { IfOk result (IsNumbered numerator.old numerator.new) }
    ensures frugal { IsFrugal (ahead cursor.old) numerator.old numerator.new }
    ensures plain { IfOk result (λ p. IfSome p IsPlain) }
    ensures cooked { IfOk result (λ p. IfSome p (IsParameterCooked (origin_of E.expansion context.now))) }
{
    let kind = kind(cursor);
    let export = marked(cursor, TokenKind::Dollar);
    if !kind.is_variadic() && !export && !cursor.is_next(TokenKind::Identifier) {
        return Ok(None);
    }
    Ok(Some(named(cursor, context, numerator, kind, export)?))
}

/// The name of a parameter that comes here.
#[tactic(auto, unfolding(crate::specs::Reading::parameter_ahead))]
fn parameter_ahead<'src>(mut cursor: Cursor<'_, 'src>) -> Option<Token<'src>>
    ensures { result ≡ parameter_ahead word_of (ahead cursor.entry) }
{
    let _kind = kind(&mut cursor);
    let _export = marked(&mut cursor, TokenKind::Dollar);
    cursor.accept(TokenKind::Identifier)
}

/// Refuses a parameter that comes here.
#[tactic(auto, unfolding(crate::specs::Reading::last_at))]
fn check_last<'src>(alloc: Global, cursor: &Cursor<'_, 'src>) -> Result<(), Fault<'src>>
    ensures { Gives (λ _. ahead cursor.now) result (last_at word_of (ahead cursor.now)) }
{
    match parameter_ahead(*cursor) {
        None => Ok(()),
        Some(name) => {
            let text = Text::from_text(alloc, name.lexeme())?;
            Err(Fault::Refused(name, CompileErrorKind::ParameterFollowsVariadic(text)))
        }
    }
}

/// Remembers the name of a parameter, which no parameter before may have.
fn remember<'src>(
    alloc: Global,
    names: &mut ParameterNames<'src>,
    name: &Name<'src>,
) -> Result<(), Fault<'src>>
    ensures gives { (before : List (List ℕ)) → HasRead names.old before → Gives (λ _. lexeme name.now.token ∷ before) result (with_name before name.now.token) }
    ensures remembered { (before : List (List ℕ)) → HasRead names.old before → OnOk result (HasRead names.new (lexeme name.now.token ∷ before)) }
{
    if names.has(name.lexeme()) {
        let text = Text::from_text(alloc, name.lexeme())?;
        return Err(Fault::Refused(name.token, CompileErrorKind::DuplicateParameter(text)));
    }
    names.add(name.lexeme())?;
    Ok(())
}

/// Takes the parameters of a recipe. Each has the next binding's number, and no options. Their
/// names differ, and no parameter follows one that takes all values that remain.
///
/// Refused at its name where a parameter has the name of one before, or follows one that takes all
/// values that remain. Refused also where no name comes after a mark, where a default is refused,
/// and where numbers or memory run out. After a refusal it is not said where the cursor stands; no
/// more numbers were used than there were tokens.
pub fn parameters<'src, E: Expander>(
    alloc: Global,
    cursor: &mut Cursor<'_, 'src>,
    context: &Context<'_, 'src, E>,
    numerator: &mut Numerator,
) -> Result<Vec<Parameter<'src>>, Fault<'src>>
    ensures gives { GivesUnless (AreBindingsUsed numerator.new) (λ ps. (parameter_shapes ps.items, ahead cursor.new)) result (parameters_at word_of (E.expansion context.now.expander.now) (suc (length (ahead cursor.old))) [] (ahead cursor.old)) }
    ensures numbers { IfOk result (λ ps. AreNumbered numerator.old numerator.new ps.items) }
    ensures frugal { IsFrugal (ahead cursor.old) numerator.old numerator.new }
    ensures plain { IfOk result (λ ps. ArePlain ps.items) }
    ensures cooked { IfOk result (λ ps. AreParametersCooked (origin_of E.expansion context.now) ps.items) }
{
    let mut names = ParameterNames::new(alloc);
    let mut parameters = Vec::new(alloc);
    while let Some(parameter) = parameter(cursor, context, numerator)? {
        let name = parameter.name;
        let is_variadic = parameter.kind.is_variadic();
        push_compact(&mut parameters, parameter)?;
        remember(alloc, &mut names, &name)?;
        if is_variadic {
            check_last(alloc, cursor)?;
            return Ok(parameters);
        }
    }
    Ok(parameters)
}
