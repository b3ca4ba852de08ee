//! Where a recipe's body runs, and how.
ghost use Rattle.std.specs.Prelude.{◌≡◌, IfErr, IfOk, option_map};
ghost use Rattle.std.specs.String.{string_bytes};
ghost use Rattle.just_text.specs.Tokens.{lexeme};
ghost use Rattle.evaluate_context.specs.Folders as folders;
ghost use Rattle.meaning_runs.specs.Failures.{next_by};
ghost use Rattle.justfile_evaluator.specs.Ended.{SaysSo, failure_of, next_of};
ghost use Rattle.justfile_evaluator.specs.Sites as spec;
ghost use Rattle.justfile_evaluator.specs.Sites.{extension_in, folder_in, manner_of, shows_in};
ghost use Rattle.laws_evaluation.specs.Bodies.Left.{failed_with};

use crate::fault::RunFault;
use evaluate_context::{ExecutionContext, Settings};
use evaluate_variables::passes_words;
use just_host::{Config, Pair, Status};
use just_text::{Name, Text};
use just_value::{Scope, path};
use std::alloc::{AllocError, Global};
use tree_attributes::{Attribute, AttributeKind, AttributeSet};
use tree_items::{Line, Sigils};

/// How a body runs, by its recipe's attributes and its module's settings.
#[derive(Clone, Copy)]
pub struct Manner {
    /// Whether commands get the parameters' values as words.
    pub passes_words: bool,
    /// Whether nothing is said of a command that fails.
    pub is_silent: bool,
    /// `@` before the recipe's name.
    pub is_quiet: bool,
    /// Whether no line is shown, whatever its mark says.
    pub hides_lines: bool,
    /// Whether the body begins `#!`.
    pub has_shebang: bool,
    /// Whether the body is one script.
    pub is_script: bool,
}

impl Manner {
    /// That of a body with these lines.
    pub fn of(
        settings: &Settings,
        attributes: &AttributeSet,
        is_quiet: bool,
        body: &[Line],
    ) -> Manner
        ensures { result ≡ manner_of settings.now attributes.now is_quiet body.now }
    {
        let has_shebang = begins_shebang(body);
        Manner {
            passes_words: passes_words(settings, attributes),
            is_silent: is_silent(settings, attributes),
            is_quiet,
            hides_lines: settings.quiet && !attributes.contains(AttributeKind::NoQuiet),
            has_shebang,
            is_script: attributes.contains(AttributeKind::Script)
                || settings.default_script
                || has_shebang,
        }
    }

    /// Whether a line with this mark of quiet is shown.
    pub(crate) fn shows_line(self, config: &Config, is_quiet: bool) -> bool
        ensures { result ≡ shows_in self config.now is_quiet }
    {
        let is_hidden = is_quiet != self.is_quiet || self.hides_lines || config.quiet;
        config.dry_run || config.loquacious || !is_hidden
    }
}

/// Whether the body begins `#!`.
fn begins_shebang(body: &[Line]) -> bool
    ensures { result ≡ spec.begins_shebang body.now }
{
    match body.first() {
        Some(line) => line.is_shebang(),
        None => false,
    }
}

/// Whether nothing is said of a command that fails.
fn is_silent(settings: &Settings, attributes: &AttributeSet) -> bool
    ensures { result ≡ spec.is_silent settings.now attributes.now }
{
    let silent = settings.no_exit_message || attributes.contains(AttributeKind::NoExitMessage);
    silent && !attributes.contains(AttributeKind::ExitMessage)
}

/// Where a body runs: what its commands are given, and how they run.
#[derive(Clone, Copy)]
pub struct Site<'a, 'src> {
    pub context: &'a ExecutionContext<'a, 'src>,
    /// What `env` attributes give to commands.
    pub env: &'a [Pair],
    /// The parameters' values as words.
    pub positional: &'a [String],
    /// The body's frame, inside the parameters'.
    pub scope: &'a Scope<'a, 'src>,
    /// The recipe's attributes.
    pub attributes: &'a AttributeSet<'src>,
    /// The recipe's name.
    pub name: Name<'src>,
    pub manner: Manner,
}

/// The folder that an attribute names.
fn own_folder<'a>(attributes: &'a AttributeSet) -> Option<&'a str>
    ensures { option_map (λ folder. folder.now) result ≡ spec.own_folder attributes.now }
{
    match attributes.get(AttributeKind::WorkingDirectory) {
        Some(Attribute::WorkingDirectory(text)) => Some(text.cooked.as_str()),
        _ => None,
    }
}

/// Whether commands run where the program was started, by whether an attribute names a folder.
fn stays(settings: &Settings, attributes: &AttributeSet, is_named: bool) -> bool
    ensures { result ≡ spec.stays settings.now attributes.now is_named }
{
    attributes.contains(AttributeKind::NoCd) || (settings.no_cd && !is_named)
}

/// The folder below this one that is named, or this one itself.
fn folder_below(alloc: Global, folder: String, named: Option<&str>) -> Result<String, AllocError>
    ensures { IfOk result (λ joined. string_bytes joined ≡ folders.folder_below (string_bytes folder) (option_map (λ text. text.now) named.entry)) }
{
    match named {
        Some(named) => path::join(alloc, folder.as_str(), named),
        None => Ok(folder),
    }
}

/// The folder of the commands of a recipe with these attributes; none where they run where the
/// program was started. Refused only where memory is.
pub(crate) fn folder_of(
    alloc: Global,
    context: &ExecutionContext,
    attributes: &AttributeSet,
) -> Result<Option<String>, AllocError>
    ensures { IfOk result (λ folder. option_map string_bytes folder ≡ folder_in context.now attributes.now) }
{
    let named = own_folder(attributes);
    if stays(context.module.settings, attributes, named.is_some()) {
        return Ok(None);
    }
    let folder = context.working_directory(alloc)?;
    Ok(Some(folder_below(alloc, folder, named)?))
}

/// The end of a script's name, if there is one.
pub(crate) fn extension_of(
    alloc: Global,
    attributes: &AttributeSet,
) -> Result<Option<Text>, AllocError>
    ensures { IfOk result (λ text. text ≡ extension_in attributes.now) }
{
    match attributes.get(AttributeKind::Extension) {
        Some(Attribute::Extension(text)) => Ok(Some(Text::from_text(alloc, text.cooked.as_str())?)),
        _ => Ok(None),
    }
}

/// Whether the recipe's body goes on after a command that ended so, or how it fails.
pub(crate) fn judge<'src>(
    recipe: Name<'src>,
    status: Status,
    sigils: Sigils,
    is_silent: bool,
) -> Result<bool, RunFault<'src>>
    ensures next { next_of result ≡ next_by (lexeme recipe.entry.token) sigils status }
    ensures said { IfErr result (SaysSo recipe.entry is_silent) }
{
    match status {
        Status::Code(0) => Ok(true),
        Status::NotStarted => Err(RunFault::CouldNotStart(recipe)),
        Status::Code(1) if sigils.guard => Ok(false),
        _ if sigils.infallible => Ok(true),
        _ => Err(failure(recipe, status, is_silent)),
    }
}

/// The failure of a command of the recipe that ended so.
fn failure<'src>(recipe: Name<'src>, status: Status, is_silent: bool) -> RunFault<'src>
    ensures is { failure_of result ≡ failed_with (lexeme recipe.entry.token) status }
    ensures said { SaysSo recipe.entry is_silent result }
{
    match status {
        Status::Code(code) => RunFault::Code {
            recipe,
            code,
            is_silent,
        },
        Status::Signal(signal) => RunFault::Signal {
            recipe,
            signal,
            is_silent,
        },
        Status::NotStarted => RunFault::CouldNotStart(recipe),
    }
}
