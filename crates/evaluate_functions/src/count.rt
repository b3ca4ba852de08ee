//! How many arguments the built-in functions take, and which of these are texts. The definitions
//! list every function, so that the check refuses one that is forgotten here.
ghost use Rattle.std.specs.Prelude.{◌≡◌, ◌≤◌, ◌↔◌, ◌==◌, IsTrue};
ghost use Rattle.evaluate_functions.specs.Arguments as spec;

use crate::function::Function;

/// How many arguments a function takes.
#[derive(Clone, Copy)]
pub struct ArgumentCount {
    pub least: usize,
    pub most: usize,
}

impl ArgumentCount {
    /// So many, and no other number.
    fn exactly(count: usize) -> ArgumentCount
        ensures { result ≡ spec.exactly count }
    {
        ArgumentCount {
            least: count,
            most: count,
        }
    }

    /// Whether there may be so many arguments.
    pub fn takes(self, count: usize) -> bool
        ensures { IsTrue result ↔ (self.least ≤ count) × (count ≤ self.most) }
    {
        self.least <= count && count <= self.most
    }
}

impl Function {
    /// How many arguments the function takes.
    pub fn expected_arguments(self) -> ArgumentCount
        ensures { result ≡ spec.expected self }
    {
        match self {
            Function::Append
            | Function::EnvVarOrDefault
            | Function::Prepend
            | Function::TrimEndMatch
            | Function::TrimEndMatches
            | Function::TrimStartMatch
            | Function::TrimStartMatches => ArgumentCount::exactly(2),
            Function::Replace => ArgumentCount::exactly(3),
            Function::Env | Function::JoinList | Function::Split => {
                ArgumentCount { least: 1, most: 2 }
            }
            Function::Shell => ArgumentCount {
                least: 1,
                most: usize::MAX,
            },
            Function::Join => ArgumentCount {
                least: 2,
                most: usize::MAX,
            },
            _ if self.takes_nothing() => ArgumentCount::exactly(0),
            _ => ArgumentCount::exactly(1),
        }
    }

    /// Whether the function takes no argument.
    fn takes_nothing(self) -> bool
        ensures { result ≡ ((spec.expected self).most == 0) }
    {
        match self {
            Function::Arch
            | Function::CacheDirectory
            | Function::ConfigDirectory
            | Function::ConfigLocalDirectory
            | Function::DataDirectory
            | Function::DataLocalDirectory
            | Function::ExecutableDirectory
            | Function::HomeDirectory
            | Function::InvocationDirectory
            | Function::InvocationDirectoryNative
            | Function::IsDependency
            | Function::JustExecutable
            | Function::JustPid
            | Function::JustVersion
            | Function::Justfile
            | Function::JustfileDirectory
            | Function::ModuleDirectory
            | Function::ModuleFile
            | Function::ModulePath
            | Function::NumCpus
            | Function::NumJobs
            | Function::Os
            | Function::OsFamily
            | Function::RecipeName
            | Function::RuntimeDirectory
            | Function::SourceDirectory
            | Function::SourceFile => true,
            _ => false,
        }
    }

    /// Whether the argument at this place, from 0, is one text; else it is any value.
    pub fn takes_text(self, index: usize) -> bool
        ensures { result ≡ spec.takes_text self index }
    {
        match self {
            Function::Bool
            | Function::Env
            | Function::EnvVar
            | Function::EnvVarOrDefault
            | Function::Len
            | Function::Quote
            | Function::Show => false,
            Function::Append | Function::Prepend => index == 0,
            Function::JoinList => index != 0,
            _ => true,
        }
    }
}
