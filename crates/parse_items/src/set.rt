//! Settings, without their attributes.
ghost use Rattle.std.specs.Prelude.{[], ◌≡◌, ◌≢◌, IfOk, Some, map};
ghost use Rattle.just_text.specs.Tokens.{lexeme, word_of};
ghost use Rattle.just_text.specs.declared.compile_error.CompileErrorKind.TheVariants as kinds;
ghost use Rattle.tree_attributes.specs.Settings.{interpreter_shape, value_shape};
ghost use Rattle.tree_attributes.specs.Sets.Sets.{items_of};
ghost use Rattle.tree_items.specs.Items.{set_shape};
ghost use Rattle.tree_expressions.specs.Shape.{shape_of, written};
ghost use Rattle.parse_expressions.specs.declared.fault.Fault.TheVariants.{OutOfMemory, Refused};
ghost use Rattle.parse_expressions.specs.Literals.{Origin, AreCooked, Expansion, IsCooked};
ghost use Rattle.parse_expressions.specs.Origins.{origin_of};
ghost use Rattle.parse_expressions.specs.Reading.{Gives, ahead};
ghost use Rattle.parse_expressions.specs.Strings.{IsCookedString};
ghost use Rattle.semver.specs.declared.Version.{Version as SemanticVersion};
ghost use Rattle.semver.specs.Identifiers.{parts_of};
ghost use Rattle.parse_items.specs.SettingCooked.{IsCookedInterpreter, IsCookedSetting};
ghost use Rattle.parse_items.specs.declared.form.Form.TheVariants as forms;
ghost use Rattle.parse_items.specs.Names.{form_named, setting_name};
ghost use Rattle.parse_items.specs.SettingReading.{arguments_at, checked_at, flag_at, indentation_fault, interpreter_at, known_at, set_at, set_string_at, setting_at, truth_at, value_at, version_fault};
ghost use Rattle.parse_items.specs.Versions.{is_above};

use crate::form::{Form, form_named};
use crate::make::{interpreter_setting, truth_setting, value_setting};
use just_text::{CompileError, CompileErrorKind, Expander, Name, Text, Token, TokenKind, both};
use parse_expressions::{Context, Cursor, Fault, ended};
use semver::Version;
use std::alloc::{AllocError, Global};
use std::cmp::Ordering;
use tree_attributes::{AttributeSet, Indentation, Interpreter, Setting};
use tree_expressions::{Expression, StringLiteral};
use tree_items::Set;

/// `true` or `false`.
#[tactic(auto, unfolding(crate::specs::SettingReading::truth_at))]
fn truth<'src>(cursor: &mut Cursor<'_, 'src>) -> Result<bool, Fault<'src>>
    ensures { Gives (λ b. (b, ahead cursor.new)) result (truth_at word_of (ahead cursor.old)) }
{
    let value = cursor.is_keyword("true");
    if !value && !cursor.is_keyword("false") {
        return Err(cursor.unexpected());
    }
    cursor.expect(TokenKind::Identifier)?;
    Ok(value)
}

/// A truth value after `:=`, which is true where it is left out.
#[tactic(auto, unfolding(crate::specs::SettingReading::flag_at))]
fn flag<'src>(cursor: &mut Cursor<'_, 'src>) -> Result<bool, Fault<'src>>
    ensures { Gives (λ b. (b, ahead cursor.new)) result (flag_at word_of (ahead cursor.old)) }
{
    if cursor.accept(TokenKind::ColonEquals).is_none() {
        return Ok(true);
    }
    truth(cursor)
}

/// Why a token is refused.
fn refused<'src>(token: Token<'src>, error: CompileError<'src>) -> Fault<'src>
    ensures memory { error.entry.kind ≡ kinds.OutOfMemory → result ≡ OutOfMemory }
    ensures why { error.entry.kind ≢ kinds.OutOfMemory → result ≡ Refused token.entry error.entry.kind }
{
    match error.kind {
        CompileErrorKind::OutOfMemory => Fault::OutOfMemory,
        kind => Fault::Refused(token, kind),
    }
}

/// A string after `:=`.
#[tactic(auto, unfolding(crate::specs::SettingReading::set_string_at))]
fn string<'src, E: Expander>(
    alloc: Global,
    cursor: &mut Cursor<'_, 'src>,
    context: &Context<'_, 'src, E>,
) -> Result<StringLiteral<'src>, Fault<'src>>
    ensures gives { Gives (λ s. ((s.token, s.cooked), ahead cursor.new)) result (set_string_at word_of (E.expansion context.now.expander.now) (ahead cursor.old)) }
    ensures cooked { IfOk result (IsCookedString (E.expansion context.now.expander.now)) }
{
    cursor.expect(TokenKind::ColonEquals)?;
    let token = cursor.expect(TokenKind::StringToken)?;
    match StringLiteral::cook(alloc, token, context.expander) {
        Ok(literal) => Ok(literal),
        Err(error) => Err(refused(token, error)),
    }
}

/// The refusal of a text that is no value of the setting with that name.
fn invalid(alloc: Global, name: &str, text: &str) -> Result<CompileErrorKind, AllocError>
    ensures { IfOk result (λ kind. kind ≡ kinds.InvalidSetting name.now text.now) }
{
    let name = Text::from_text(alloc, name)?;
    let text = Text::from_text(alloc, text)?;
    Ok(CompileErrorKind::InvalidSetting(name, text))
}

/// The refusal of a text that is no indentation.
fn indentation_fault(
    alloc: Global,
    name: &str,
    text: &str,
) -> Result<Option<CompileErrorKind>, AllocError>
    ensures { IfOk result (λ fault. fault ≡ indentation_fault name.now text.now) }
{
    match Indentation::from_text(text) {
        Some(_) => Ok(None),
        None => Ok(Some(invalid(alloc, name, text)?)),
    }
}

/// Whether a version is above another.
fn is_above(version: &Version, other: &Version) -> bool
    ensures { result ≡ is_above (parts_of version.now) other.now }
{
    match version.cmp_precedence(other) {
        Ordering::Greater => true,
        Ordering::Equal | Ordering::Less => false,
    }
}

/// The refusal of a text that is no version, or one above the current version.
fn version_fault(
    alloc: Global,
    current: &Version,
    name: &str,
    text: &str,
) -> Result<Option<CompileErrorKind>, AllocError>
    ensures { IfOk result (λ fault. fault ≡ version_fault current.now name.now text.now) }
{
    let required = match Version::parse(alloc, text) {
        Ok(required) => required,
        Err(error) if error == semver::Error::from(AllocError) => return Err(AllocError),
        Err(_) => return Ok(Some(invalid(alloc, name, text)?)),
    };
    if !is_above(&required, current) {
        return Ok(None);
    }
    let required = Text::from_text(alloc, text)?;
    let current = Text::from_string(current.to_string(alloc)?);
    Ok(Some(CompileErrorKind::MinimumVersion(required, current)))
}

/// A string after `:=` that is an indentation.
fn indentation<'src, E: Expander>(
    alloc: Global,
    cursor: &mut Cursor<'_, 'src>,
    context: &Context<'_, 'src, E>,
    name: &str,
) -> Result<StringLiteral<'src>, Fault<'src>>
    ensures gives { Gives (λ s. (written s, ahead cursor.new)) result (checked_at word_of (E.expansion context.now.expander.now) (indentation_fault name.now) (ahead cursor.old)) }
    ensures cooked { IfOk result (IsCookedString (E.expansion context.now.expander.now)) }
{
    let literal = string(alloc, cursor, context)?;
    match indentation_fault(alloc, name, literal.cooked.as_str())? {
        None => Ok(literal),
        Some(fault) => Err(Fault::Refused(literal.token, fault)),
    }
}

/// A string after `:=` that is a version, and not above the current one.
fn version<'src, E: Expander>(
    alloc: Global,
    cursor: &mut Cursor<'_, 'src>,
    context: &Context<'_, 'src, E>,
    current: &Version,
    name: &str,
) -> Result<StringLiteral<'src>, Fault<'src>>
    ensures gives { Gives (λ s. (written s, ahead cursor.new)) result (checked_at word_of (E.expansion context.now.expander.now) (version_fault current.now name.now) (ahead cursor.old)) }
    ensures cooked { IfOk result (IsCookedString (E.expansion context.now.expander.now)) }
{
    let literal = string(alloc, cursor, context)?;
    match version_fault(alloc, current, name, literal.cooked.as_str())? {
        None => Ok(literal),
        Some(fault) => Err(Fault::Refused(literal.token, fault)),
    }
}

/// An expression after `:=`.
#[tactic(auto, unfolding(crate::specs::SettingReading::value_at))]
fn value<'src, E: Expander>(
    cursor: &mut Cursor<'_, 'src>,
    context: &Context<'_, 'src, E>,
) -> Result<Expression<'src>, Fault<'src>>
    ensures gives { Gives (λ e. (shape_of e, ahead cursor.new)) result (value_at word_of (E.expansion context.now.expander.now) (ahead cursor.old)) }
    ensures cooked { IfOk result (IsCooked (origin_of E.expansion context.now)) }
{
    cursor.expect(TokenKind::ColonEquals)?;
    cursor.expression(context)
}

/// What stands after the first expression of an interpreter.
#[tactic(auto, unfolding(crate::specs::SettingReading::arguments_at))]
fn arguments<'src, E: Expander>(
    alloc: Global,
    cursor: &mut Cursor<'_, 'src>,
    context: &Context<'_, 'src, E>,
) -> Result<Vec<Expression<'src>>, Fault<'src>>
    ensures gives { Gives (λ es. (map shape_of es.items, ahead cursor.new)) result (arguments_at word_of (E.expansion context.now.expander.now) (ahead cursor.old)) }
    ensures cooked { IfOk result (λ es. AreCooked (origin_of E.expansion context.now) es.items) }
{
    if cursor.accept(TokenKind::Comma).is_some() {
        return cursor.expressions(context, TokenKind::BracketR);
    }
    cursor.expect(TokenKind::BracketR)?;
    Ok(Vec::new(alloc))
}

/// One or more expressions in brackets after `:=`.
#[tactic(auto, unfolding(crate::specs::SettingReading::interpreter_at))]
fn interpreter<'src, E: Expander>(
    alloc: Global,
    cursor: &mut Cursor<'_, 'src>,
    context: &Context<'_, 'src, E>,
) -> Result<Interpreter<Expression<'src>>, Fault<'src>>
    ensures gives { Gives (λ i. (interpreter_shape i, ahead cursor.new)) result (interpreter_at word_of (E.expansion context.now.expander.now) (ahead cursor.old)) }
    ensures cooked { IfOk result (IsCookedInterpreter (origin_of E.expansion context.now)) }
{
    cursor.expect(TokenKind::ColonEquals)?;
    cursor.expect(TokenKind::BracketL)?;
    let command = cursor.expression(context)?;
    let (command, arguments) = both(command, arguments(alloc, cursor, context))?;
    Ok(Interpreter { arguments, command })
}

/// The refusal of a name that no setting has.
fn unknown(alloc: Global, name: &str) -> Result<CompileErrorKind, AllocError>
    ensures { IfOk result (λ kind. kind ≡ kinds.UnknownSetting name.now) }
{
    let name = Text::from_text(alloc, name)?;
    Ok(CompileErrorKind::UnknownSetting(name))
}

/// The setting with that name, whose value is an indentation.
#[tactic(auto, unfolding(crate::specs::SettingReading::setting_at))]
fn set_to_indentation<'src, E: Expander>(
    alloc: Global,
    cursor: &mut Cursor<'_, 'src>,
    context: &Context<'_, 'src, E>,
    name: &str,
) -> Result<Setting<'src>, Fault<'src>>
    requires { form_named name.now ≡ Some forms.Indentation }
    ensures gives { (current : SemanticVersion) → Gives (λ s. (value_shape s, ahead cursor.new)) result (setting_at word_of (E.expansion context.now.expander.now) current name.now forms.Indentation (ahead cursor.old)) }
    ensures cooked { IfOk result (IsCookedSetting (origin_of E.expansion context.now)) }
    ensures name { IfOk result (λ s. setting_name s ≡ name.now) }
{
    let value = indentation(alloc, cursor, context, name)?;
    Ok(Setting::Indentation(value))
}

/// The setting with that name, whose value is an interpreter.
#[tactic(auto, unfolding(crate::specs::SettingReading::setting_at))]
fn set_to_interpreter<'src, E: Expander>(
    alloc: Global,
    cursor: &mut Cursor<'_, 'src>,
    context: &Context<'_, 'src, E>,
    name: &str,
) -> Result<Setting<'src>, Fault<'src>>
    requires { form_named name.now ≡ Some forms.Interpreter }
    ensures gives { (current : SemanticVersion) → Gives (λ s. (value_shape s, ahead cursor.new)) result (setting_at word_of (E.expansion context.now.expander.now) current name.now forms.Interpreter (ahead cursor.old)) }
    ensures cooked { IfOk result (IsCookedSetting (origin_of E.expansion context.now)) }
    ensures name { IfOk result (λ s. setting_name s ≡ name.now) }
{
    let value = interpreter(alloc, cursor, context)?;
    Ok(interpreter_setting(name, value))
}

/// The setting with that name, whose value is a truth value.
#[tactic(auto, unfolding(crate::specs::SettingReading::setting_at))]
fn set_to_truth<'src>(
    cursor: &mut Cursor<'_, 'src>,
    name: &str,
) -> Result<Setting<'src>, Fault<'src>>
    requires { form_named name.now ≡ Some forms.Truth }
    ensures gives { (expansion : Expansion) (current : SemanticVersion) → Gives (λ s. (value_shape s, ahead cursor.new)) result (setting_at word_of expansion current name.now forms.Truth (ahead cursor.old)) }
    ensures cooked { (origin : Origin) → IfOk result (IsCookedSetting origin) }
    ensures name { IfOk result (λ s. setting_name s ≡ name.now) }
{
    let value = flag(cursor)?;
    Ok(truth_setting(name, value))
}

/// The setting with that name, whose value is an expression.
#[tactic(auto, unfolding(crate::specs::SettingReading::setting_at))]
fn set_to_value<'src, E: Expander>(
    cursor: &mut Cursor<'_, 'src>,
    context: &Context<'_, 'src, E>,
    name: &str,
) -> Result<Setting<'src>, Fault<'src>>
    requires { form_named name.now ≡ Some forms.Value }
    ensures gives { (current : SemanticVersion) → Gives (λ s. (value_shape s, ahead cursor.new)) result (setting_at word_of (E.expansion context.now.expander.now) current name.now forms.Value (ahead cursor.old)) }
    ensures cooked { IfOk result (IsCookedSetting (origin_of E.expansion context.now)) }
    ensures name { IfOk result (λ s. setting_name s ≡ name.now) }
{
    let value = value(cursor, context)?;
    Ok(value_setting(name, value))
}

/// The setting with that name, whose value is a version.
#[tactic(auto, unfolding(crate::specs::SettingReading::setting_at))]
fn set_to_version<'src, E: Expander>(
    alloc: Global,
    cursor: &mut Cursor<'_, 'src>,
    context: &Context<'_, 'src, E>,
    current: &Version,
    name: &str,
) -> Result<Setting<'src>, Fault<'src>>
    requires { form_named name.now ≡ Some forms.Version }
    ensures gives { Gives (λ s. (value_shape s, ahead cursor.new)) result (setting_at word_of (E.expansion context.now.expander.now) current.now name.now forms.Version (ahead cursor.old)) }
    ensures cooked { IfOk result (IsCookedSetting (origin_of E.expansion context.now)) }
    ensures name { IfOk result (λ s. setting_name s ≡ name.now) }
{
    let value = version(alloc, cursor, context, current, name)?;
    Ok(Setting::MinimumVersion(value))
}

/// The setting with that name and its value.
#[tactic(auto, unfolding(crate::specs::SettingReading::known_at))]
fn setting<'src, E: Expander>(
    alloc: Global,
    cursor: &mut Cursor<'_, 'src>,
    context: &Context<'_, 'src, E>,
    current: &Version,
    name: Name<'src>,
) -> Result<Setting<'src>, Fault<'src>>
    ensures gives { Gives (λ s. (value_shape s, ahead cursor.new)) result (known_at word_of (E.expansion context.now.expander.now) current.now name.entry.token (form_named (lexeme name.entry.token)) (ahead cursor.old)) }
    ensures cooked { IfOk result (IsCookedSetting (origin_of E.expansion context.now)) }
    ensures name { IfOk result (λ s. setting_name s ≡ lexeme name.entry.token) }
{
    let text = name.lexeme();
    let Some(form) = form_named(text) else {
        let fault = unknown(alloc, text)?;
        return Err(Fault::Refused(name.token, fault));
    };
    match form {
        Form::Indentation => set_to_indentation(alloc, cursor, context, text),
        Form::Interpreter => set_to_interpreter(alloc, cursor, context, text),
        Form::Truth => set_to_truth(cursor, text),
        Form::Value => set_to_value(cursor, context, text),
        Form::Version => set_to_version(alloc, cursor, context, current, text),
    }
}

/// That setting, without attributes.
fn plain_set<'src>(alloc: Global, name: Name<'src>, value: Setting<'src>) -> Set<'src>
    ensures name { result.name ≡ name.entry }
    ensures value { result.value ≡ value.entry }
    ensures plain { items_of result.attributes ≡ [] }
{
    Set {
        attributes: AttributeSet::new(alloc),
        name,
        value,
    }
}

/// `set NAME`, perhaps `:=` and a value, and the end of the line, without attributes. A setting is
/// true where a truth value is left out; `current` is the version that reads the file.
///
/// Refused where there is no such setting, where its value is missing or not of its form, where an
/// indentation is neither one tab nor one to eight spaces, where a version is none or is above
/// `current`, where a string or an expression is refused, and where memory runs out.
#[tactic(auto, unfolding(crate::specs::SettingReading::set_at))]
pub fn set<'src, E: Expander>(
    alloc: Global,
    cursor: &mut Cursor<'_, 'src>,
    context: &Context<'_, 'src, E>,
    current: &Version,
) -> Result<Set<'src>, Fault<'src>>
    ensures gives { Gives (λ s. (set_shape s, ahead cursor.new)) result (set_at word_of (E.expansion context.now.expander.now) current.now (ahead cursor.old)) }
    ensures cooked { IfOk result (λ s. IsCookedSetting (origin_of E.expansion context.now) s.value) }
    ensures name { IfOk result (λ s. setting_name s.value ≡ lexeme s.name.token) }
    ensures plain { IfOk result (λ s. items_of s.attributes ≡ []) }
{
    cursor.expect(TokenKind::Identifier)?;
    let name = Name::from_token(cursor.expect(TokenKind::Identifier)?);
    let value = setting(alloc, cursor, context, current, name)?;
    Ok(plain_set(alloc, name, ended(cursor, value)?))
}
