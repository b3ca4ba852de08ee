//! The attributes before an item.
ghost use Rattle.std.specs.Prelude.{◌≡◌, IfOk, IfSome, List, Ok, Some, [], true};
ghost use Rattle.just_text.specs.Tokens.{lexeme, word_of};
ghost use Rattle.just_text.specs.declared.compile_error.CompileErrorKind.TheVariants as kinds;
ghost use Rattle.just_text.specs.declared.token.Token.{Token};
ghost use Rattle.tree_attributes.specs.Forms.{form_of, takes};
ghost use Rattle.parse_expressions.specs.Origins.{origin_of};
ghost use Rattle.parse_expressions.specs.Reading.{Gives, ahead};
ghost use Rattle.parse_attributes.specs.Arguments.{Arguments, count, made, sort_of};
ghost use Rattle.parse_attributes.specs.Cooked.{AreCookedOptions};
ghost use Rattle.parse_attributes.specs.Held.{GivesOptions, IsCookedArguments, arguments_shape, counted_at, is_of_sort};
ghost use Rattle.parse_attributes.specs.Reading.{arguments_at, attribute_at, attributes_at, kind_named, known_at};
ghost use Rattle.parse_attributes.specs.Seen.{AreWholeReads, IsWholeRead, options_in, read_shape, read_shapes};

use crate::arguments::{ArgumentsRead, arguments};
use crate::between::is_another;
use crate::pushing::push_read;
use just_text::{CompileErrorKind, Expander, Name, Text, TokenKind, both};
use parse_expressions::{Context, Cursor, Fault};
use std::alloc::{AllocError, Global};
use tree_attributes::{ArgumentForm, ArgumentOptions, Attribute, AttributeKind, kind_from_name};

/// An attribute as it is read.
#[derive(Drop)]
pub struct AttributeRead<'src> {
    /// None where the options of an `arg` may not stand together, or one of them is not known.
    pub attribute: Option<Attribute<'src>>,
    pub name: Name<'src>,
    /// The options of an `arg` once more, for the parameter that they are of.
    pub options: Option<ArgumentOptions<'src>>,
}

/// The refusal of a name that no attribute has.
fn unknown(alloc: Global, name: &str) -> Result<CompileErrorKind, AllocError>
    ensures { IfOk result (λ kind. kind ≡ kinds.UnknownAttribute name.now) }
{
    let name = Text::from_text(alloc, name)?;
    Ok(CompileErrorKind::UnknownAttribute(name))
}

/// The refusal of so many arguments of the attribute with that name.
fn miscounted(alloc: Global, name: &str, count: usize) -> Result<CompileErrorKind, AllocError>
    ensures { IfOk result (λ kind. kind ≡ kinds.AttributeArgumentCount name.now count) }
{
    let name = Text::from_text(alloc, name)?;
    Ok(CompileErrorKind::AttributeArgumentCount(name, count))
}

/// The arguments of an attribute of that kind, as many as it takes.
#[tactic(auto, unfolding(crate::specs::Held::counted_at))]
fn counted<'src, E: Expander>(
    alloc: Global,
    cursor: &mut Cursor<'_, 'src>,
    context: &Context<'_, 'src, E>,
    name: Name<'src>,
    kind: AttributeKind,
) -> Result<ArgumentsRead<'src>, Fault<'src>>
    ensures gives { Gives (λ a. (arguments_shape a, ahead cursor.new)) result (counted_at (E.expansion context.now.expander.now) name.entry.token kind (ahead cursor.old)) }
    ensures cooked { IfOk result (IsCookedArguments (origin_of E.expansion context.now)) }
    ensures sort { IfOk result (λ a. is_of_sort (sort_of (form_of kind)) (arguments_shape a) ≡ true) }
    ensures taken { IfOk result (λ a. takes (form_of kind) (count (arguments_shape a)) ≡ true) }
{
    let form = ArgumentForm::of(kind);
    let arguments = arguments(alloc, cursor, context, form)?;
    let count = arguments.count();
    if form.takes(count) {
        return Ok(arguments);
    }
    drop(arguments);
    let fault = miscounted(alloc, name.lexeme(), count)?;
    Err(Fault::Refused(name.token, fault))
}

/// What the arguments that stand here say of a parameter, if they are those of an `arg`.
fn options_again<'src, E: Expander>(
    alloc: Global,
    mut cursor: Cursor<'_, 'src>,
    context: &Context<'_, 'src, E>,
    kind: AttributeKind,
) -> Result<Option<ArgumentOptions<'src>>, Fault<'src>>
    ensures gives { (a : Arguments) (rest : List Token) → is_of_sort (sort_of (form_of kind)) a ≡ true → arguments_at word_of (E.expansion context.now.expander.now) (sort_of (form_of kind)) (ahead cursor.entry) ≡ Ok (a, rest)
        → GivesOptions result (options_in (made (E.expansion context.now.expander.now) kind a)) }
    ensures cooked { IfOk result (λ o. IfSome o (AreCookedOptions (origin_of E.expansion context.now))) }
{
    match kind {
        AttributeKind::Arg => {
            let arguments = arguments(alloc, &mut cursor, context, ArgumentForm::Parameter)?;
            Ok(arguments.parameter_options())
        }
        _ => Ok(None),
    }
}

/// The attribute of that kind, from what stands after its name.
fn known<'src, E: Expander>(
    alloc: Global,
    cursor: &mut Cursor<'_, 'src>,
    context: &Context<'_, 'src, E>,
    name: Name<'src>,
    kind: AttributeKind,
) -> Result<AttributeRead<'src>, Fault<'src>>
    requires { kind_named (lexeme name.token) ≡ Some kind }
    ensures gives { Gives (λ r. (read_shape r, ahead cursor.new)) result (known_at word_of (E.expansion context.now.expander.now) name.entry.token (Some kind) (ahead cursor.old)) }
    ensures whole { IfOk result (IsWholeRead (origin_of E.expansion context.now)) }
{
    let again = *cursor;
    let arguments = counted(alloc, cursor, context, name, kind)?;
    let options = options_again(alloc, again, context, kind);
    let (arguments, options) = both(arguments, options)?;
    let made = arguments.made(alloc, kind);
    let (options, attribute) = both(options, made)?;
    Ok(AttributeRead {
        attribute,
        name,
        options,
    })
}

/// An attribute.
#[tactic(auto, unfolding(crate::specs::Reading::attribute_at, crate::specs::Reading::known_at))]
fn attribute<'src, E: Expander>(
    alloc: Global,
    cursor: &mut Cursor<'_, 'src>,
    context: &Context<'_, 'src, E>,
) -> Result<AttributeRead<'src>, Fault<'src>>
    ensures gives { Gives (λ r. (read_shape r, ahead cursor.new)) result (attribute_at word_of (E.expansion context.now.expander.now) (ahead cursor.old)) }
    ensures whole { IfOk result (IsWholeRead (origin_of E.expansion context.now)) }
{
    let name = Name::from_token(cursor.expect(TokenKind::Identifier)?);
    let text = name.lexeme();
    let Some(kind) = kind_named(text) else {
        let fault = unknown(alloc, text)?;
        return Err(Fault::Refused(name.token, fault));
    };
    known(alloc, cursor, context, name, kind)
}

/// The kind of attribute with that name, if there is one.
fn kind_named(name: &str) -> Option<AttributeKind>
    ensures { result ≡ kind_named name.now }
{
    kind_from_name(name)
}

/// Takes the lines of attributes that stand here, and puts the attributes there, where none are yet.
fn read_all<'src, E: Expander>(
    alloc: Global,
    cursor: &mut Cursor<'_, 'src>,
    context: &Context<'_, 'src, E>,
    attributes: &mut Vec<AttributeRead<'src>>,
) -> Result<(), Fault<'src>>
    requires fresh { attributes.old.items ≡ [] }
    ensures gives { Gives (λ _. (read_shapes attributes.new.items, ahead cursor.new)) result (attributes_at word_of (E.expansion context.now.expander.now) (ahead cursor.old)) }
    ensures whole { IfOk result (λ _. AreWholeReads (origin_of E.expansion context.now) attributes.new.items) }
{
    if cursor.accept(TokenKind::BracketL).is_none() {
        return Ok(());
    }
    push_read(attributes, attribute(alloc, cursor, context))?;
    while is_another(cursor)? {
        push_read(attributes, attribute(alloc, cursor, context))?;
    }
    Ok(())
}

/// Takes the lines of attributes that stand here, perhaps none, and the comment lines after each.
///
/// Refused where an attribute has a name that none has, where it has more or fewer arguments than it
/// takes or one of another form, where a string or an expression is refused, where a line doesn't
/// end after its brackets, and where memory runs out. Options of an `arg` that may not stand
/// together are no refusal here: it is the item that they don't fit. After a refusal it is not said
/// where the cursor stands.
pub fn attributes<'src, E: Expander>(
    alloc: Global,
    cursor: &mut Cursor<'_, 'src>,
    context: &Context<'_, 'src, E>,
) -> Result<Vec<AttributeRead<'src>>, Fault<'src>>
    ensures gives { Gives (λ xs. (read_shapes xs.items, ahead cursor.new)) result (attributes_at word_of (E.expansion context.now.expander.now) (ahead cursor.old)) }
    ensures whole { IfOk result (λ xs. AreWholeReads (origin_of E.expansion context.now) xs.items) }
{
    let mut attributes = Vec::new(alloc);
    read_all(alloc, cursor, context, &mut attributes)?;
    Ok(attributes)
}
