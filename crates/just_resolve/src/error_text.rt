//! How refusals print.
ghost use Rattle.std.specs.Prelude.{◌≡◌, Some, map};
ghost use Rattle.std.specs.Fmt.{WritesOnOk};
ghost use Rattle.just_text.specs.Fields.{fields_behind, ticked_more};
ghost use Rattle.just_resolve.specs.Refusals as spec;

use crate::error::Error;
use just_text::Name;
use std::fmt;

/// Writes the names after the first one, each between backticks and after a comma.
fn write_more<W: fmt::Write>(f: &mut fmt::Formatter<W>, names: &[Name]) -> fmt::Result
    ensures { WritesOnOk W.write_str_gives f.old result (ticked_more (map spec.name_text names.now)) f.new }
{
    for name in names {
        write!(f, ", `{name}`")?;
    }
    Ok(())
}

/// Writes the names after a colon, if there is one.
fn write_names<W: fmt::Write>(f: &mut fmt::Formatter<W>, names: &[Name]) -> fmt::Result
    ensures { WritesOnOk W.write_str_gives f.old result (fields_behind (map spec.name_text names.now)) f.new }
{
    let Some((first, others)) = names.split_first() else {
        return Ok(());
    };
    write!(f, ": `{first}`")?;
    write_more(f, others)
}

impl Error<'_> {
    /// Its name, without what it names; empty where it prints as another refusal.
    fn name(&self) -> &'static str
        ensures { result.now ≡ spec.refusal_name self.now }
    {
        match self {
            Error::OutOfMemory => "out of memory",
            Error::CircularVariable(_) => "circular variable",
            Error::CircularRecipe(_) => "circular recipe",
            Error::DependencyArgumentCount { .. } => "dependency argument count",
            Error::FunctionArgumentCount { .. } => "function argument count",
            Error::ModuleAsRecipe(_) => "module as recipe",
            Error::UndefinedVariable(_) => "undefined variable",
            Error::UnknownDependency { .. } => "unknown dependency",
            Error::UnknownFunction(_) => "unknown function",
            Error::UnknownOverride(_) => "unknown override",
            Error::Compile(_) | Error::ConstEval(_) => "",
        }
    }

    /// Writes what stands after its name.
    fn write_fields<W: fmt::Write>(&self, f: &mut fmt::Formatter<W>) -> fmt::Result
        ensures { WritesOnOk W.write_str_gives f.old result (spec.behind_name self.now) f.new }
    {
        match self {
            Error::OutOfMemory => Ok(()),
            Error::Compile(error) => fmt::Display::fmt(error, f),
            Error::ConstEval(error) => fmt::Display::fmt(error, f),
            Error::CircularVariable(names) | Error::CircularRecipe(names) => {
                write_names(f, names.as_slice())
            }
            Error::DependencyArgumentCount {
                recipe,
                dependency,
                found,
            } => write!(f, ": `{recipe}`, `{dependency}`, `{found}`"),
            Error::FunctionArgumentCount { name, found } => write!(f, ": `{name}`, `{found}`"),
            Error::ModuleAsRecipe(path) => write!(f, ": `{path}`"),
            Error::UndefinedVariable(name) | Error::UnknownFunction(name) => {
                write!(f, ": `{name}`")
            }
            Error::UnknownDependency { recipe, dependency } => {
                write!(f, ": `{recipe}`, `{dependency}`")
            }
            Error::UnknownOverride(name) => write!(f, ": `{name}`"),
        }
    }
}

impl fmt::Display for Error<'_> {
    ghost output = { λ refusal. Some (spec.refusal_text refusal) };

    fn fmt<W: fmt::Write>(&self, f: &mut fmt::Formatter<W>) -> fmt::Result {
        f.write_str(self.name())?;
        self.write_fields(f)
    }
}
