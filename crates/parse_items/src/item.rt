//! Items but recipes and settings, without their attributes.
ghost use Rattle.std.specs.Prelude.{◌≡◌, ◌||◌, ℕ, suc, false, IfOk, IfSome, List, OnOk, [], ◌∷◌, option_map, length};
ghost use Rattle.std.specs.Str.{bytes_eq};
ghost use Rattle.just_text.specs.Tokens.{lexeme, word_of};
ghost use Rattle.just_text.specs.declared.token_kind.TokenKind.TheVariants.{Identifier};
ghost use Rattle.tree_attributes.specs.Sets.Sets.{items_of};
ghost use Rattle.tree_items.specs.Files.{item_shape};
ghost use Rattle.tree_items.specs.Items.{alias_shape, assignment_shape, function_shape, import_shape, module_shape, names_of, unexport_shape};
ghost use Rattle.tree_expressions.specs.Shape.{shape_of, written};
ghost use Rattle.parse_expressions.specs.Literals.{IsCooked};
ghost use Rattle.parse_expressions.specs.Origins.{origin_of};
ghost use Rattle.parse_expressions.specs.Reading.{Gives, ahead, expect};
ghost use Rattle.parse_recipes.specs.Numbering.{AreBindingsUsed, GivesUnless, IsFrugal};
ghost use Rattle.parse_recipes.specs.Seen.{HasNames, with_name};
ghost use Rattle.parse_items.specs.Cooked.{IsCookedItem};
ghost use Rattle.parse_expressions.specs.Strings.{IsCookedString};
ghost use Rattle.parse_items.specs.Keywords.{eager_keyword, export_keyword};
ghost use Rattle.parse_items.specs.Numbered.{AreNext, binding_numbers, parameter_numbers};
ghost use Rattle.parse_items.specs.Plain.{IsPlainAssignment, IsPlainItem, is_private};
ghost use Rattle.parse_items.specs.Reading.{alias_at, assignment_at, file_at, function_at, import_at, item_of, module_at, names_at, new_name_at, unexport_at, value_at, words_at};

use crate::kind::is_named_value;
use just_text::{CompileErrorKind, Expander, Name, Namepath, Numerator, Text, TokenKind};
use parse_expressions::{Context, Cursor, Fault, end_of_line, ended};
use parse_recipes::{namepath, next_binding};
use std::alloc::Global;
use std::collections::BTreeSet;
use tree_attributes::{AttributeSet, ItemKind};
use tree_expressions::{Expression, StringLiteral};
use tree_items::{
    Alias, Assignment, Binding, FunctionDefinition, FunctionParameter, Import, Item, Module,
    Unexport,
};

/// The words before an assignment's name.
#[derive(Clone, Copy)]
struct AssignmentWords {
    eager: bool,
    export: bool,
}

/// A name.
fn name<'src>(cursor: &mut Cursor<'_, 'src>) -> Result<Name<'src>, Fault<'src>>
    ensures { Gives (λ n. (n.token, ahead cursor.new)) result (expect word_of Identifier (ahead cursor.old)) }
{
    let token = cursor.expect(TokenKind::Identifier)?;
    Ok(Name::from_token(token))
}

/// `alias NAME := PATH` and the end of its line.
#[tactic(auto, unfolding(crate::specs::Reading::alias_at))]
fn alias<'src>(
    alloc: Global,
    cursor: &mut Cursor<'_, 'src>,
) -> Result<Alias<'src, Namepath<'src>>, Fault<'src>>
    ensures gives { Gives (λ a. (alias_shape a, ahead cursor.new)) result (alias_at word_of (ahead cursor.old)) }
    ensures plain { IfOk result (λ a. items_of a.attributes ≡ []) }
{
    cursor.expect(TokenKind::Identifier)?;
    let name = name(cursor)?;
    cursor.expect(TokenKind::ColonEquals)?;
    let target = namepath(alloc, cursor)?;
    end_of_line(cursor)?;
    Ok(Alias {
        attributes: AttributeSet::new(alloc),
        name,
        target,
    })
}

/// `unexport NAME` and the end of its line.
#[tactic(auto, unfolding(crate::specs::Reading::unexport_at))]
fn unexport<'src>(cursor: &mut Cursor<'_, 'src>) -> Result<Unexport<'src>, Fault<'src>>
    ensures { Gives (λ u. (unexport_shape u, ahead cursor.new)) result (unexport_at word_of (ahead cursor.old)) }
{
    cursor.expect(TokenKind::Identifier)?;
    let name = name(cursor)?;
    end_of_line(cursor)?;
    Ok(Unexport { name })
}

/// The words with one more.
fn with_word(words: AssignmentWords, word: &str) -> AssignmentWords
    ensures export { result.export ≡ (words.export || bytes_eq word.now export_keyword) }
    ensures eager { result.eager ≡ (words.eager || bytes_eq word.now eager_keyword) }
{
    AssignmentWords {
        eager: words.eager || word == "eager",
        export: words.export || word == "export",
    }
}

/// `export` and `eager` before an assignment's name.
fn words<'src>(cursor: &mut Cursor<'_, 'src>) -> Result<AssignmentWords, Fault<'src>>
    ensures { Gives (λ w. ((w.export, w.eager), ahead cursor.new)) result (words_at word_of false false (suc (length (ahead cursor.old))) (ahead cursor.old)) }
{
    let mut words = AssignmentWords {
        eager: false,
        export: false,
    };
    while !is_named_value(*cursor) {
        let token = cursor.expect(TokenKind::Identifier)?;
        words = with_word(words, token.lexeme());
    }
    Ok(words)
}

/// `:=`, an expression and the end of the line.
#[tactic(auto, unfolding(crate::specs::Reading::value_at))]
fn value<'src, E: Expander>(
    cursor: &mut Cursor<'_, 'src>,
    context: &Context<'_, 'src, E>,
) -> Result<Expression<'src>, Fault<'src>>
    ensures gives { Gives (λ e. (shape_of e, ahead cursor.new)) result (value_at word_of (E.expansion context.now.expander.now) (ahead cursor.old)) }
    ensures cooked { IfOk result (IsCooked (origin_of E.expansion context.now)) }
{
    cursor.expect(TokenKind::ColonEquals)?;
    let value = cursor.expression(context)?;
    let value = ended(cursor, value)?;
    Ok(value)
}

/// Whether the name begins with `_`.
fn is_private(name: &Name) -> bool
    ensures { result ≡ is_private (lexeme name.now.token) }
{
    name.lexeme().starts_with("_")
}

/// `NAME := EXPRESSION` after its words, and the end of its line. It is private where its name
/// begins with `_`.
#[tactic(auto, unfolding(crate::specs::Reading::assignment_at))]
fn assignment<'src, E: Expander>(
    alloc: Global,
    cursor: &mut Cursor<'_, 'src>,
    context: &Context<'_, 'src, E>,
    numerator: &mut Numerator,
) -> Result<Assignment<'src>, Fault<'src>>
    ensures gives { GivesUnless (AreBindingsUsed numerator.new) (λ a. (assignment_shape a, ahead cursor.new)) result (assignment_at word_of (E.expansion context.now.expander.now) (ahead cursor.old)) }
    ensures numbers { IfOk result (λ a. AreNext numerator.old numerator.new (a.number ∷ [])) }
    ensures frugal { IsFrugal (ahead cursor.old) numerator.old numerator.new }
    ensures plain { IfOk result IsPlainAssignment }
    ensures cooked { IfOk result (λ a. IsCooked (origin_of E.expansion context.now) a.value) }
{
    let words = words(cursor)?;
    let name = name(cursor)?;
    let number = next_binding(numerator)?;
    let value = value(cursor, context)?;
    Ok(Binding {
        attributes: AttributeSet::new(alloc),
        eager: words.eager,
        export: words.export,
        file_depth: 0,
        name,
        number,
        prelude: false,
        private: is_private(&name),
        value,
    })
}

/// Remembers the name of a parameter, which no parameter before may have.
fn remember<'src>(
    alloc: Global,
    names: &mut BTreeSet<&'src str>,
    name: &Name<'src>,
) -> Result<(), Fault<'src>>
    ensures gives { (before : List (List ℕ)) → HasNames names.old before → Gives (λ _. lexeme name.now.token ∷ before) result (with_name before name.now.token) }
    ensures remembered { (before : List (List ℕ)) → HasNames names.old before → OnOk result (HasNames names.new (lexeme name.now.token ∷ before)) }
{
    if names.contains(name.lexeme()) {
        let text = Text::from_text(alloc, name.lexeme())?;
        return Err(Fault::Refused(name.token, CompileErrorKind::DuplicateParameter(text)));
    }
    names.insert(name.lexeme())?;
    Ok(())
}

/// A parameter of a function, whose name none of these parameters has.
fn parameter<'src>(
    alloc: Global,
    cursor: &mut Cursor<'_, 'src>,
    names: &mut BTreeSet<&'src str>,
    numerator: &mut Numerator,
) -> Result<FunctionParameter<'src>, Fault<'src>>
    ensures gives { (before : List (List ℕ)) → HasNames names.old before → GivesUnless (AreBindingsUsed numerator.new) (λ p. (p.0.token, ahead cursor.new)) result (new_name_at before (ahead cursor.old)) }
    ensures remembered { (before : List (List ℕ)) → HasNames names.old before → IfOk result (λ p. HasNames names.new (lexeme p.0.token ∷ before)) }
    ensures number { IfOk result (λ p. AreNext numerator.old numerator.new (p.1 ∷ [])) }
    ensures frugal { IsFrugal (ahead cursor.old) numerator.old numerator.new }
{
    let name = name(cursor)?;
    remember(alloc, names, &name)?;
    let number = next_binding(numerator)?;
    Ok(FunctionParameter::new(name, number))
}

/// The parameters of a function and the closing parenthesis, a comma after each, which the last may
/// lack. Their names differ.
fn parameters<'src>(
    alloc: Global,
    cursor: &mut Cursor<'_, 'src>,
    numerator: &mut Numerator,
) -> Result<Vec<FunctionParameter<'src>>, Fault<'src>>
    ensures gives { GivesUnless (AreBindingsUsed numerator.new) (λ ps. (names_of ps.items, ahead cursor.new)) result (names_at word_of (suc (length (ahead cursor.old))) [] (ahead cursor.old)) }
    ensures numbers { IfOk result (λ ps. AreNext numerator.old numerator.new (parameter_numbers ps.items)) }
    ensures frugal { IsFrugal (ahead cursor.old) numerator.old numerator.new }
{
    let mut names = BTreeSet::new(alloc);
    let mut parameters = Vec::new(alloc);
    while cursor.accept(TokenKind::ParenR).is_none() {
        let parameter = parameter(alloc, cursor, &mut names, numerator)?;
        parameters.push(parameter)?;
        if cursor.accept(TokenKind::Comma).is_none() {
            cursor.expect(TokenKind::ParenR)?;
            return Ok(parameters);
        }
    }
    Ok(parameters)
}

/// `NAME(NAME, ..) := EXPRESSION` and the end of its line.
#[tactic(auto, unfolding(crate::specs::Reading::function_at))]
fn function<'src, E: Expander>(
    alloc: Global,
    cursor: &mut Cursor<'_, 'src>,
    context: &Context<'_, 'src, E>,
    numerator: &mut Numerator,
) -> Result<FunctionDefinition<'src>, Fault<'src>>
    ensures gives { GivesUnless (AreBindingsUsed numerator.new) (λ f. (function_shape f, ahead cursor.new)) result (function_at word_of (E.expansion context.now.expander.now) (ahead cursor.old)) }
    ensures numbers { IfOk result (λ f. AreNext numerator.old numerator.new (parameter_numbers f.parameters.items)) }
    ensures frugal { IsFrugal (ahead cursor.old) numerator.old numerator.new }
    ensures cooked { IfOk result (λ f. IsCooked (origin_of E.expansion context.now) f.body) }
{
    let name = name(cursor)?;
    cursor.expect(TokenKind::ParenL)?;
    let parameters = parameters(alloc, cursor, numerator)?;
    let body = value(cursor, context)?;
    Ok(FunctionDefinition {
        body,
        name,
        parameters,
    })
}

/// `import STRING` or `import? STRING`, and the end of its line.
#[tactic(auto, unfolding(crate::specs::Reading::import_at, parse_recipes::specs::Reading::marked_at))]
fn import<'src, E: Expander>(
    cursor: &mut Cursor<'_, 'src>,
    context: &Context<'_, 'src, E>,
) -> Result<Import<'src>, Fault<'src>>
    ensures gives { Gives (λ i. (import_shape i, ahead cursor.new)) result (import_at word_of (E.expansion context.now.expander.now) (ahead cursor.old)) }
    ensures cooked { IfOk result (λ i. IsCookedString (E.expansion context.now.expander.now) i.path) }
{
    cursor.expect(TokenKind::Identifier)?;
    let optional = cursor.accept(TokenKind::QuestionMark).is_some();
    let path = cursor.string(context)?;
    end_of_line(cursor)?;
    Ok(Import { optional, path })
}

/// The file of a submodule, if one is named.
#[tactic(auto, unfolding(crate::specs::Reading::file_at))]
fn file<'src, E: Expander>(
    cursor: &mut Cursor<'_, 'src>,
    context: &Context<'_, 'src, E>,
) -> Result<Option<StringLiteral<'src>>, Fault<'src>>
    ensures gives { Gives (λ s. (option_map written s, ahead cursor.new)) result (file_at word_of (E.expansion context.now.expander.now) (ahead cursor.old)) }
    ensures cooked { IfOk result (λ s. IfSome s (IsCookedString (E.expansion context.now.expander.now))) }
{
    if !cursor.is_next(TokenKind::StringToken) {
        return Ok(None);
    }
    Ok(Some(cursor.string(context)?))
}

/// `mod NAME` or `mod? NAME`, perhaps a file, and the end of its line.
#[tactic(auto, unfolding(crate::specs::Reading::module_at, parse_recipes::specs::Reading::marked_at))]
fn submodule<'src, E: Expander>(
    alloc: Global,
    cursor: &mut Cursor<'_, 'src>,
    context: &Context<'_, 'src, E>,
) -> Result<Module<'src>, Fault<'src>>
    ensures gives { Gives (λ m. (module_shape m, ahead cursor.new)) result (module_at word_of (E.expansion context.now.expander.now) (ahead cursor.old)) }
    ensures plain { IfOk result (λ m. items_of m.attributes ≡ []) }
    ensures cooked { IfOk result (λ m. IfSome m.path (IsCookedString (E.expansion context.now.expander.now))) }
{
    cursor.expect(TokenKind::Identifier)?;
    let optional = cursor.accept(TokenKind::QuestionMark).is_some();
    let name = name(cursor)?;
    let path = file(cursor, context)?;
    end_of_line(cursor)?;
    Ok(Module {
        attributes: AttributeSet::new(alloc),
        name,
        optional,
        path,
    })
}

/// The item of that kind that stands here, which is neither a recipe nor a setting, without its
/// attributes. An assignment and each parameter of a function take the next number in order.
///
/// Refused where no such item stands here, where two parameters of a function have one name, where a
/// string or an expression is refused, and where numbers or memory run out. After a refusal it is
/// not said where the cursor stands; no more numbers were used than there were tokens.
#[tactic(auto, unfolding(crate::specs::Reading::item_of))]
pub fn item<'src, E: Expander>(
    alloc: Global,
    cursor: &mut Cursor<'_, 'src>,
    context: &Context<'_, 'src, E>,
    numerator: &mut Numerator,
    kind: ItemKind,
) -> Result<Item<'src>, Fault<'src>>
    ensures gives { GivesUnless (AreBindingsUsed numerator.new) (λ i. (item_shape i, ahead cursor.new)) result (item_of word_of (E.expansion context.now.expander.now) kind (ahead cursor.old)) }
    ensures numbers { IfOk result (λ i. AreNext numerator.old numerator.new (binding_numbers i)) }
    ensures frugal { IsFrugal (ahead cursor.old) numerator.old numerator.new }
    ensures plain { IfOk result IsPlainItem }
    ensures cooked { IfOk result (IsCookedItem (origin_of E.expansion context.now)) }
{
    match kind {
        ItemKind::Alias => alias(alloc, cursor).map(Item::Alias),
        ItemKind::Assignment => {
            assignment(alloc, cursor, context, numerator).map(Item::Assignment)
        }
        ItemKind::Function => function(alloc, cursor, context, numerator).map(Item::Function),
        ItemKind::Import => import(cursor, context).map(Item::Import),
        ItemKind::Module => submodule(alloc, cursor, context).map(Item::Module),
        ItemKind::Unexport => unexport(cursor).map(Item::Unexport),
        _ => Err(cursor.unexpected()),
    }
}
