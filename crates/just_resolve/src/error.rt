//! Why a justfile can't be resolved.
ghost use Rattle.std.specs.Prelude.{◌≡◌, ◌≢◌};
ghost use Rattle.std.specs.Option.{option_map};
ghost use Rattle.modules_compilation.specs.Refusals.{start_of};
ghost use Rattle.modules_compilation.specs.declared.error.Error.TheVariants as compiling;
ghost use Rattle.just_resolve.specs.Refusals as spec;
ghost use Rattle.just_resolve.specs.declared.error.Error.TheVariants.{Compile, DependencyArgumentCount, ModuleAsRecipe, OutOfMemory, UnknownDependency};

use just_text::{Name, Namepath, Sequence, Text, Token};
use modules_compilation::path_token;
use resolve_recipes::DependencyFault;
use resolve_references::ReadFault;
use std::alloc::{AllocError, AllocFailed};

/// Why a justfile can't be resolved. It prints its name in lower case and its fields between
/// backticks; a refusal of files and modules, and a constant's, prints as that.
#[derive(Debug, Drop)]
pub enum Error<'src> {
    /// Memory ran out.
    OutOfMemory,
    /// The texts make no modules.
    Compile(modules_compilation::Error<'src>),
    /// Each variable reads the next one, and the last is the first again.
    CircularVariable(Sequence<Name<'src>>),
    /// Each recipe depends on the next one, and the last is the first again.
    CircularRecipe(Sequence<Name<'src>>),
    /// A setting is no constant, or a constant that settings read has no value.
    ConstEval(evaluate_context::Error<'src>),
    /// The dependency's recipe takes another number of values.
    DependencyArgumentCount {
        recipe: Name<'src>,
        dependency: Namepath<'src>,
        found: usize,
    },
    /// The function takes another number of arguments.
    FunctionArgumentCount {
        name: Name<'src>,
        found: usize,
    },
    /// A dependency or an alias names a module.
    ModuleAsRecipe(Namepath<'src>),
    /// The name stands for no variable.
    UndefinedVariable(Name<'src>),
    /// The recipe depends on what is no recipe.
    UnknownDependency {
        recipe: Name<'src>,
        dependency: Namepath<'src>,
    },
    /// No function has the name.
    UnknownFunction(Name<'src>),
    /// A word gives a value for a variable that is not there.
    UnknownOverride(Text),
}

/// The token of the first name.
fn first_token<'src>(names: &Sequence<Name<'src>>) -> Option<Token<'src>>
    ensures { result ≡ spec.first_of names.now }
{
    match names.as_slice().first() {
        Some(name) => Some(name.token),
        None => None,
    }
}

/// Where a constant is refused.
fn const_place<'src>(error: &evaluate_context::Error<'src>) -> Option<Token<'src>>
    ensures { result ≡ spec.const_place error.now }
{
    match error {
        evaluate_context::Error::Const(error) => Some(error.context()),
        _ => None,
    }
}

impl<'src> Error<'src> {
    /// Where the refusal stands: at the variable, the call's name, the dependency's path, where the
    /// cycle begins, or where the constant is refused. Refusals of memory, of overrides and of
    /// modules in place of recipes have no place, nor have some of files and modules.
    pub fn place(&self) -> Option<Token<'src>>
        ensures { option_map start_of result ≡ option_map start_of (spec.refusal_place self.now) }
    {
        match self {
            Error::OutOfMemory | Error::ModuleAsRecipe(_) | Error::UnknownOverride(_) => None,
            Error::Compile(error) => error.place(),
            Error::CircularVariable(names) | Error::CircularRecipe(names) => first_token(names),
            Error::ConstEval(error) => const_place(error),
            Error::FunctionArgumentCount { name, .. }
            | Error::UndefinedVariable(name)
            | Error::UnknownFunction(name) => Some(name.token),
            Error::DependencyArgumentCount { dependency, .. }
            | Error::UnknownDependency { dependency, .. } => Some(path_token(dependency)),
        }
    }
}

impl std::error::Error for Error<'_> {}

impl From<AllocError> for Error<'_> {
    ghost use Rattle.just_resolve.specs.declared.error.Error.TheVariants.{OutOfMemory};

    ghost from_gives = { λ _ e. e ≡ OutOfMemory };

    fn from(_refused: AllocError) -> Self {
        Error::OutOfMemory
    }
}

impl<T: Drop> From<AllocFailed<T>> for Error<'_> {
    ghost use Rattle.just_resolve.specs.declared.error.Error.TheVariants.{OutOfMemory};

    ghost from_gives = { λ _ e. e ≡ OutOfMemory };

    fn from(_refused: AllocFailed<T>) -> Self {
        Error::OutOfMemory
    }
}

impl<'src> From<modules_compilation::Error<'src>> for Error<'src> {
    ghost use Rattle.just_resolve.specs.Faults.{compile_error};

    ghost from_gives = { λ refused error. error ≡ compile_error refused };

    fn from(error: modules_compilation::Error<'src>) -> Self {
        match error {
            modules_compilation::Error::OutOfMemory => Error::OutOfMemory,
            other => Error::Compile(other),
        }
    }
}

impl<'src> From<ReadFault<'src>> for Error<'src> {
    ghost use Rattle.just_resolve.specs.Faults.{reading_error};

    ghost from_gives = { λ fault error. error ≡ reading_error fault };

    fn from(fault: ReadFault<'src>) -> Self {
        match fault {
            ReadFault::OutOfMemory => Error::OutOfMemory,
            ReadFault::FunctionArgumentCount { name, found } => {
                Error::FunctionArgumentCount { name, found }
            }
            ReadFault::UndefinedVariable(name) => Error::UndefinedVariable(name),
            ReadFault::UnknownFunction(name) => Error::UnknownFunction(name),
        }
    }
}

impl<'src> From<evaluate_context::Error<'src>> for Error<'src> {
    ghost use Rattle.just_resolve.specs.Faults.{constant_error};

    ghost from_gives = { λ refused error. error ≡ constant_error refused };

    fn from(error: evaluate_context::Error<'src>) -> Self {
        match error {
            evaluate_context::Error::OutOfMemory => Error::OutOfMemory,
            other => Error::ConstEval(other),
        }
    }
}

/// That the recipe of this path takes another number of values.
fn argument_count<'src>(
    recipe: Name<'src>,
    dependency: &Namepath<'src>,
    found: usize,
) -> Error<'src>
    ensures { result ≢ OutOfMemory → result ≡ DependencyArgumentCount recipe.entry dependency.now found }
{
    match dependency.clone() {
        Ok(dependency) => Error::DependencyArgumentCount {
            recipe,
            dependency,
            found,
        },
        Err(_) => Error::OutOfMemory,
    }
}

/// That the path is a module's.
fn module_as_recipe<'src>(path: &Namepath<'src>) -> Error<'src>
    ensures { result ≢ OutOfMemory → result ≡ ModuleAsRecipe path.now }
{
    match path.clone() {
        Ok(path) => Error::ModuleAsRecipe(path),
        Err(_) => Error::OutOfMemory,
    }
}

/// That the alias stands for nothing.
fn unknown_alias_target<'src>(alias: Name<'src>, target: &Namepath<'src>) -> Error<'src>
    ensures { result ≢ OutOfMemory → result ≡ Compile (compiling.UnknownAliasTarget alias.entry target.now) }
{
    match target.clone() {
        Ok(target) => Error::Compile(modules_compilation::Error::UnknownAliasTarget {
            alias,
            target,
        }),
        Err(_) => Error::OutOfMemory,
    }
}

/// That the path is no recipe's.
fn unknown_dependency<'src>(recipe: Name<'src>, dependency: &Namepath<'src>) -> Error<'src>
    ensures { result ≢ OutOfMemory → result ≡ UnknownDependency recipe.entry dependency.now }
{
    match dependency.clone() {
        Ok(dependency) => Error::UnknownDependency { recipe, dependency },
        Err(_) => Error::OutOfMemory,
    }
}

/// It takes memory for paths; where that is refused memory ran out.
impl<'src> From<DependencyFault<'_, 'src>> for Error<'src> {
    ghost use Rattle.resolve_recipes.specs.Refusals.{told};
    ghost use Rattle.just_resolve.specs.Faults.{naming_error};
    ghost use Rattle.just_resolve.specs.declared.error.Error.TheVariants.{OutOfMemory};

    ghost from_gives = { λ fault error. error ≢ OutOfMemory → error ≡ naming_error (told fault) };

    fn from(fault: DependencyFault<'_, 'src>) -> Self {
        match fault {
            DependencyFault::OutOfMemory => Error::OutOfMemory,
            DependencyFault::ArgumentCount {
                recipe,
                dependency,
                found,
            } => argument_count(recipe, dependency, found),
            DependencyFault::ModuleAsRecipe(path) => module_as_recipe(path),
            DependencyFault::UnknownAliasTarget { alias, target } => {
                unknown_alias_target(alias, target)
            }
            DependencyFault::UnknownDependency { recipe, dependency } => {
                unknown_dependency(recipe, dependency)
            }
        }
    }
}
