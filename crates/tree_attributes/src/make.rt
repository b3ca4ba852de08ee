//! Attributes by their names and arguments.
ghost use Rattle.std.specs.Prelude.{◌≡◌, [], ◌∷◌, IfErr, IfOk, true, length, suc, Err};
ghost use Rattle.just_text.specs.Tokens.{lexeme};
ghost use Rattle.just_text.specs.declared.compile_error.CompileErrorKind.TheVariants.{UnexpectedToken};
ghost use Rattle.tree_attributes.specs.Attributes.{attribute_shape, kind_name, kind_of, plain};
ghost use Rattle.tree_attributes.specs.Forms.{form_of, takes};
ghost use Rattle.tree_attributes.specs.Given as spec;
ghost use Rattle.std.specs.Global.{Box};
ghost use Rattle.tree_attributes.specs.declared.attribute.ArgumentOptions.{ArgumentOptions as OptionsOfParameter};
ghost use Rattle.tree_attributes.specs.declared.attribute.AttributeKind.TheVariants.{Env, Script};
ghost use Rattle.tree_attributes.specs.declared.attribute.Attribute.TheVariants.{Arg};
ghost use Rattle.tree_attributes.specs.declared.arguments.AttributeArguments.TheVariants as given;

use crate::argument_form::ArgumentForm;
use crate::arguments::AttributeArguments;
use crate::attribute::{ArgumentOptions, Attribute, AttributeKind};
use crate::kinds::kind_from_name;
use crate::setting::Interpreter;
use just_text::{CompileError, CompileErrorKind, Name, Text, Token, both};
use std::alloc::{AllocError, Global};
use tree_expressions::{Expression, StringLiteral};

/// The refusal of a name that no attribute has.
fn unknown<'src>(alloc: Global, name: Name<'src>) -> CompileError<'src>
    ensures { spec.IsUnknown name.entry.token result.token result.kind }
{
    match Text::from_text(alloc, name.lexeme()) {
        Ok(text) => name.token.error(CompileErrorKind::UnknownAttribute(text)),
        Err(_) => CompileError::without_place(CompileErrorKind::OutOfMemory),
    }
}

/// The refusal of so many arguments.
fn miscounted<'src>(alloc: Global, name: Name<'src>, count: usize) -> CompileError<'src>
    ensures { spec.IsMiscounted name.entry.token count result.token result.kind }
{
    match Text::from_text(alloc, name.lexeme()) {
        Ok(text) => name
            .token
            .error(CompileErrorKind::AttributeArgumentCount(text, count)),
        Err(_) => CompileError::without_place(CompileErrorKind::OutOfMemory),
    }
}

/// The refusal of arguments of another form, at their first token.
fn unexpected<'src>(token: Token<'src>) -> CompileError<'src>
    ensures token { result.token ≡ token.entry }
    ensures kind { result.kind ≡ UnexpectedToken token.entry.kind }
{
    token.error(CompileErrorKind::UnexpectedToken(token.kind))
}

/// The refusal, in place of what is dropped.
fn refuse<A: Drop, B, E>(_dropped: A, refused: E) -> Result<B, E>
    ensures { result ≡ Err refused }
{
    Err(refused)
}

/// The attribute of that kind without arguments. Asks that the kind may be without.
pub fn without_arguments<'src>(kind: AttributeKind) -> Attribute<'src>
    requires { takes (form_of kind) 0 ≡ true }
    ensures { attribute_shape result ≡ plain kind }
{
    match kind {
        AttributeKind::Android => Attribute::Android,
        AttributeKind::Cache => Attribute::Cache,
        AttributeKind::Confirm => Attribute::Confirm(None),
        AttributeKind::Default => Attribute::Default,
        AttributeKind::Doc => Attribute::Doc(None),
        AttributeKind::Dragonfly => Attribute::Dragonfly,
        AttributeKind::ExitMessage => Attribute::ExitMessage,
        AttributeKind::Freebsd => Attribute::Freebsd,
        AttributeKind::Linux => Attribute::Linux,
        AttributeKind::Macos => Attribute::Macos,
        AttributeKind::Netbsd => Attribute::Netbsd,
        AttributeKind::NoCd => Attribute::NoCd,
        AttributeKind::NoExitMessage => Attribute::NoExitMessage,
        AttributeKind::NoQuiet => Attribute::NoQuiet,
        AttributeKind::Openbsd => Attribute::Openbsd,
        AttributeKind::Parallel => Attribute::Parallel,
        AttributeKind::PositionalArguments => Attribute::PositionalArguments,
        AttributeKind::Private => Attribute::Private,
        AttributeKind::Script => Attribute::Script(None),
        AttributeKind::Unix => Attribute::Unix,
        AttributeKind::Windows => Attribute::Windows,
        _ => unreachable!(),
    }
}

/// The attribute of that kind with these strings. Asks that the kind takes so many strings.
pub fn with_strings<'src>(
    kind: AttributeKind,
    first: StringLiteral<'src>,
    others: Vec<StringLiteral<'src>>,
) -> Attribute<'src>
    requires some { takes (form_of kind) (suc (length others.items)) ≡ true }
    requires form { spec.takes_strings (form_of kind) ≡ true }
    ensures kind { kind_of (attribute_shape result) ≡ kind }
    ensures held { spec.Holds result (given.Strings first.entry others.entry) }
{
    match kind {
        AttributeKind::Doc => Attribute::Doc(Some(first)),
        AttributeKind::Extension => Attribute::Extension(first),
        AttributeKind::Group => Attribute::Group(first),
        AttributeKind::Metadata => Attribute::Metadata { first, others },
        AttributeKind::WorkingDirectory => Attribute::WorkingDirectory(first),
        _ => unreachable!(),
    }
}

/// The value in a box.
fn boxed<T: Drop>(alloc: Global, value: T) -> Result<Box<T>, AllocError>
    ensures { IfOk result (λ boxed. boxed.value ≡ value) }
{
    Ok(Box::new(alloc, value)?)
}

/// `arg` with these options of a parameter.
///
/// Refused where memory runs out.
pub fn with_options<'src>(
    alloc: Global,
    options: ArgumentOptions<'src>,
) -> Result<Attribute<'src>, AllocError>
    ensures { IfOk result (λ a. (boxed : Box OptionsOfParameter) × (a ≡ Arg boxed) × (boxed.value ≡ options.entry)) }
{
    Ok(Attribute::Arg(boxed(alloc, options)?))
}

/// `env` with these two expressions.
fn with_pair<'src>(
    alloc: Global,
    key: Expression<'src>,
    mut others: Vec<Expression<'src>>,
) -> Result<Attribute<'src>, AllocError>
    requires { length others.items ≡ 1 }
    ensures kind { IfOk result (λ a. kind_of (attribute_shape a) ≡ Env) }
    ensures held { IfOk result (λ a. (token : _) → spec.Holds a (given.Expressions key.entry others.entry token)) }
{
    match others.pop() {
        Some(value) => {
            let (key, value) = both(key, boxed(alloc, value))?;
            Ok(Attribute::Env { key, value })
        }
        None => unreachable!(),
    }
}

/// `script` with a command and its arguments.
fn with_interpreter<'src>(
    alloc: Global,
    command: Expression<'src>,
    arguments: Vec<Expression<'src>>,
) -> Result<Attribute<'src>, AllocError>
    ensures kind { IfOk result (λ a. kind_of (attribute_shape a) ≡ Script) }
    ensures held { IfOk result (λ a. (token : _) → spec.Holds a (given.Expressions command.entry arguments.entry token)) }
{
    let interpreter = Interpreter { arguments, command };
    Ok(Attribute::Script(Some(boxed(alloc, interpreter)?)))
}

/// The attribute of that kind with these expressions. Asks that the kind takes so many expressions.
///
/// Refused where memory runs out.
pub fn with_expressions<'src>(
    alloc: Global,
    kind: AttributeKind,
    first: Expression<'src>,
    others: Vec<Expression<'src>>,
) -> Result<Attribute<'src>, AllocError>
    requires some { takes (form_of kind) (suc (length others.items)) ≡ true }
    requires form { spec.takes_expressions (form_of kind) ≡ true }
    ensures kind { IfOk result (λ a. kind_of (attribute_shape a) ≡ kind) }
    ensures held { IfOk result (λ a. (token : _) → spec.Holds a (given.Expressions first.entry others.entry token)) }
{
    match kind {
        AttributeKind::Confirm => Ok(Attribute::Confirm(Some(first))),
        AttributeKind::Env => with_pair(alloc, first, others),
        AttributeKind::Script => with_interpreter(alloc, first, others),
        _ => unreachable!(),
    }
}

/// The attribute with these arguments, as many as it takes and of its form.
fn made<'src>(
    alloc: Global,
    kind: AttributeKind,
    arguments: AttributeArguments<'src>,
) -> Result<Attribute<'src>, AllocError>
    requires count { takes (form_of kind) (spec.count arguments) ≡ true }
    requires form { spec.is_of_form (form_of kind) arguments ≡ true }
    ensures kind { IfOk result (λ a. kind_of (attribute_shape a) ≡ kind) }
    ensures held { IfOk result (λ a. spec.Holds a arguments.entry) }
{
    match arguments {
        AttributeArguments::Nothing => Ok(without_arguments(kind)),
        AttributeArguments::Options(options) => with_options(alloc, options),
        AttributeArguments::Strings { first, others } => Ok(with_strings(kind, first, others)),
        AttributeArguments::Expressions { first, others, .. } => {
            with_expressions(alloc, kind, first, others)
        }
    }
}

impl<'src> Attribute<'src> {
    /// The attribute with that name and these arguments.
    ///
    /// Refused as `UnknownAttribute` at the name where no attribute has it; as
    /// `AttributeArgumentCount` at the name, with the name and the number, where it takes more or
    /// fewer; as `UnexpectedToken` at the first argument where they are of another form than it
    /// takes; and where memory runs out, for such a refusal or for the attribute. Options that may
    /// not stand together are no refusal here.
    pub fn new(
        alloc: Global,
        name: Name<'src>,
        arguments: AttributeArguments<'src>,
    ) -> Result<Attribute<'src>, CompileError<'src>>
        ensures name { IfOk result (λ a. kind_name (kind_of (attribute_shape a)) ≡ lexeme name.entry.token) }
        ensures held { IfOk result (λ a. spec.Holds a arguments.entry) }
        ensures refused { IfErr result (λ e. spec.Refuses name.entry.token arguments.entry e.token e.kind) }
    {
        let Some(kind) = kind_from_name(name.lexeme()) else {
            return refuse(arguments, unknown(alloc, name));
        };
        let form = ArgumentForm::of(kind);
        let count = arguments.count();
        if !form.takes(count) {
            return refuse(arguments, miscounted(alloc, name, count));
        }
        if let Some(token) = arguments.unfit(form) {
            return refuse(arguments, unexpected(token));
        }
        Ok(made(alloc, kind, arguments)?)
    }
}
