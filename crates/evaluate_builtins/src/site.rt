//! Where a built-in function is called, and what follows from that alone.
ghost use Rattle.std.specs.Prelude.{◌≡◌, ◌∷◌, [], Err, IfOk, List, None, Ok, ℕ, option_map};
ghost use Rattle.evaluate_builtins.specs.Builtins.{number_told, recipe_told};
ghost use Rattle.evaluate_builtins.specs.Facts as spec;
ghost use Rattle.evaluate_builtins.specs.Places as places;
ghost use Rattle.evaluate_builtins.specs.Places.{IsSaid, SaidAny, path_said, said_at, said_of};
ghost use Rattle.evaluate_builtins.specs.Sites.{standing_of};
ghost use Rattle.evaluate_context.specs.Surroundings.{surroundings_of};
ghost use Rattle.evaluate_functions.specs.Values.{boolean as boolean_of};
ghost use Rattle.just_text.specs.Names.{joined_names};
ghost use Rattle.just_text.specs.Tokens.{lexeme};
ghost use Rattle.just_value.specs.Paths.{join};
ghost use Rattle.modules_compilation.specs.Modulepaths.{path_in};
ghost use Rattle.semver.specs.Identifiers.{version_text};

use evaluate_context::{Error, ExecutionContext, ModuleView};
use evaluate_functions::values::boolean;
use evaluate_functions::{Function, paths};
use just_host::{Config, Pair};
use just_text::{Name, Os, Text};
use just_value::{Scope, Value, path};
use modules_compilation::Modulepath;
use std::alloc::{AllocError, Global};

/// Where a built-in function is called.
#[derive(Clone, Copy)]
pub struct CallSite<'a, 'src> {
    pub context: &'a ExecutionContext<'a, 'src>,
    /// What `env` attributes give to commands.
    pub env: &'a [Pair],
    /// Whether the recipe runs as a dependency.
    pub is_dependency: bool,
    /// The function's name where it is called.
    pub name: Name<'src>,
    /// The recipe that is run, if one is.
    pub recipe: Option<Name<'src>>,
    /// The frame that the call stands in, and those around it.
    pub scope: &'a Scope<'a, 'src>,
}

/// The system's name.
pub fn os_name(os: Os) -> &'static str
    ensures { result.now ≡ spec.os_name os }
{
    match os {
        Os::Android => "android",
        Os::Dragonfly => "dragonfly",
        Os::Freebsd => "freebsd",
        Os::Linux => "linux",
        Os::Macos => "macos",
        Os::Netbsd => "netbsd",
        Os::Openbsd => "openbsd",
    }
}

impl<'a, 'src> CallSite<'a, 'src> {
    /// The key of the file that the function tells, or of the one whose folder it tells; none where
    /// it is no such function.
    fn file(&self, function: Function) -> Option<&'a str>
    where
        'src: 'a,
        ensures { option_map (λ key. key.now) result ≡ places.file_of (surroundings_of self.now.context.now) self.now.name.token.path.now function }
    {
        match function {
            Function::Justfile | Function::JustfileDirectory => Some(self.context.root),
            Function::ModuleFile | Function::ModuleDirectory => Some(self.context.module.source),
            Function::SourceFile | Function::SourceDirectory => Some(self.name.token.path),
            _ => None,
        }
    }

    /// The text that the function tells; none where it is no such function.
    fn text(&self, function: Function) -> Option<&'a str>
        ensures { option_map (λ text. text.now) result ≡ places.text_of (surroundings_of self.now.context.now) function }
    {
        let config = self.context.config;
        match function {
            Function::Arch => Some(config.arch.as_str()),
            Function::InvocationDirectory | Function::InvocationDirectoryNative => {
                Some(config.invocation_directory.as_str())
            }
            Function::Os => Some(os_name(config.os)),
            Function::OsFamily => Some("unix"),
            _ => None,
        }
    }
}

/// Whether the function tells a folder.
fn is_folder(function: Function) -> bool
    ensures { result ≡ spec.is_folder function }
{
    match function {
        Function::JustfileDirectory | Function::ModuleDirectory | Function::SourceDirectory => true,
        _ => false,
    }
}

/// The path of a file of the justfile, or of its folder.
fn file_answer<'src>(
    alloc: Global,
    base: &str,
    file: &str,
    is_folder: bool,
) -> Result<Value, Error<'src>>
    ensures { IsSaid (path_said is_folder (join base.now file.now)) result }
{
    let path = path::join(alloc, base, file)?;
    if !is_folder {
        return unless_memory(Value::from_string(alloc, path));
    }
    match paths::parent(path.as_str()) {
        Some(folder) => unless_memory(Value::from_text(alloc, folder)),
        None => Err(Error::NoParent(Text::from_string(path))),
    }
}

/// What the configuration, the module or the recipe tells; none where the function is no such.
fn told<'src>(
    alloc: Global,
    site: &CallSite<'_, 'src>,
    function: Function,
) -> Option<Result<Value, Error<'src>>>
    ensures { SaidAny (said_of (surroundings_of site.now.context.now) (standing_of site.now) (lexeme site.now.name.token) function) result }
{
    match function {
        Function::IsDependency => Some(truth(alloc, site)),
        Function::JustVersion => Some(version(alloc, site.context.config)),
        Function::ModulePath => Some(module_path(alloc, site.context.module)),
        Function::NumJobs => Some(jobs(alloc, site.context.config.jobs)),
        Function::RecipeName => Some(recipe_name(alloc, site)),
        _ => None,
    }
}

fn truth<'src>(alloc: Global, site: &CallSite<'_, 'src>) -> Result<Value, Error<'src>>
    ensures { IsSaid (Ok (boolean_of site.now.context.now.module.now.settings.now.lists site.now.is_dependency)) result }
{
    let lists = site.context.module.settings.lists;
    unless_memory(boolean(alloc, lists, site.is_dependency))
}

fn version<'src>(alloc: Global, config: &Config) -> Result<Value, Error<'src>>
    ensures { IsSaid (Ok (version_text config.now.version ∷ [])) result }
{
    let version = &config.version;
    let text = format!(in alloc; "{version}")?;
    unless_memory(Value::from_string(alloc, text))
}

/// The names of the modules from the root to this one with `::` between two.
fn module_path<'src>(alloc: Global, module: &ModuleView<'_, 'src>) -> Result<Value, Error<'src>>
    ensures { IsSaid (Ok (joined_names (path_in «module».now.modules.now «module».now.place) ∷ [])) result }
{
    let path = Modulepath::of_module(alloc, module.modules, module.place)?;
    let text = format!(in alloc; "{path}")?;
    unless_memory(Value::from_string(alloc, text))
}

/// The number in decimal; the empty list where there is none.
fn jobs<'src>(alloc: Global, jobs: Option<u32>) -> Result<Value, Error<'src>>
    ensures { IsSaid (Ok (number_told jobs)) result }
{
    let Some(jobs) = jobs else {
        return Ok(Value::new(alloc));
    };
    let text = format!(in alloc; "{jobs}")?;
    unless_memory(Value::from_string(alloc, text))
}

fn recipe_name<'src>(alloc: Global, site: &CallSite<'_, 'src>) -> Result<Value, Error<'src>>
    ensures { IsSaid (recipe_told (lexeme site.now.name.token) (option_map (λ name. lexeme name.token) site.now.recipe)) result }
{
    match site.recipe {
        Some(recipe) => unless_memory(Value::from_text(alloc, recipe.lexeme())),
        None => Err(no_recipe(alloc, site.name)),
    }
}

fn no_recipe(alloc: Global, name: Name) -> Error
    ensures { IsSaid (recipe_told (lexeme name.entry.token) None) (Err result) }
{
    match Text::from_text(alloc, "`recipe_name()` can only be used within a recipe") {
        Ok(message) => Error::FunctionCall { name, message },
        Err(_) => Error::OutOfMemory,
    }
}

/// What the function answers by where it is called alone; none where it is no such function.
pub(crate) fn site_answer<'src>(
    alloc: Global,
    site: &CallSite<'_, 'src>,
    function: Function,
) -> Option<Result<Value, Error<'src>>>
    ensures { SaidAny (said_at (surroundings_of site.now.context.now) (standing_of site.now) (lexeme site.now.name.token) site.now.name.token.path.now function) result }
{
    if let Some(file) = site.file(function) {
        let base = site.context.config.base.as_str();
        return Some(file_answer(alloc, base, file, is_folder(function)));
    }
    if let Some(text) = site.text(function) {
        return Some(unless_memory(Value::from_text(alloc, text)));
    }
    told(alloc, site, function)
}

/// The answer, where only memory can refuse it.
#[tactic(auto, using(crate::proofs::Places::value_said, crate::proofs::Places::memory_said))]
fn unless_memory<'src>(answer: Result<Value, AllocError>) -> Result<Value, Error<'src>>
    ensures { (value : List (List ℕ)) → IfOk answer (λ v. v ≡ value) → IsSaid (Ok value) result }
{
    match answer {
        Ok(value) => Ok(value),
        Err(_) => Err(Error::OutOfMemory),
    }
}
