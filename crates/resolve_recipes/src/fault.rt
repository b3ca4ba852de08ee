//! Why a dependency or an alias stands for no recipe.
ghost use Rattle.std.specs.Prelude.{◌≡◌};

use just_text::{Name, Namepath};
use std::alloc::{AllocError, AllocFailed};

/// Why a dependency or an alias stands for no recipe.
#[derive(Clone, Copy)]
pub enum DependencyFault<'a, 'src> {
    /// Memory ran out.
    OutOfMemory,
    /// The dependency's recipe takes another number of values.
    ArgumentCount {
        recipe: Name<'src>,
        dependency: &'a Namepath<'src>,
        found: usize,
    },
    /// A dependency or an alias names a module.
    ModuleAsRecipe(&'a Namepath<'src>),
    /// The alias stands for no recipe.
    UnknownAliasTarget {
        alias: Name<'src>,
        target: &'a Namepath<'src>,
    },
    /// The recipe depends on what is no recipe.
    UnknownDependency {
        recipe: Name<'src>,
        dependency: &'a Namepath<'src>,
    },
}

impl From<AllocError> for DependencyFault<'_, '_> {
    ghost use Rattle.resolve_recipes.specs.declared.fault.DependencyFault.TheVariants.{OutOfMemory};

    ghost from_gives = { λ _ fault. fault ≡ OutOfMemory };

    fn from(_refused: AllocError) -> Self {
        DependencyFault::OutOfMemory
    }
}

impl<T: Drop> From<AllocFailed<T>> for DependencyFault<'_, '_> {
    ghost use Rattle.resolve_recipes.specs.declared.fault.DependencyFault.TheVariants.{OutOfMemory};

    ghost from_gives = { λ _ fault. fault ≡ OutOfMemory };

    fn from(_refused: AllocFailed<T>) -> Self {
        DependencyFault::OutOfMemory
    }
}
