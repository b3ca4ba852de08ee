//! Variables that words give a value for.
ghost use Rattle.std.specs.Prelude.{◌≡◌, ◌≢◌, ℕ, IfErr, IfOk, None, OnOk, Some, if◌then◌else◌, nat_eq};
ghost use Rattle.std.specs.Option.{option_or};
ghost use Rattle.evaluate_variables.specs.Opened.{overridden};
ghost use Rattle.resolve_recipes.specs.Named.{AllByName};
ghost use Rattle.resolve_analysis.specs.Overriding.{number_at, number_of, text_if};
ghost use Rattle.just_resolve.specs.Overrides.{AreGiven, IsGivenForNone};
ghost use Rattle.just_resolve.specs.declared.error.Error.TheVariants.{OutOfMemory, UnknownOverride};

use crate::error::Error;
use just_text::{Number, Text};
use just_value::Override;
use modules_compilation::{Compilation, Place};
use resolve_recipes::find_variable;
use std::alloc::{AllocError, Global};
use std::collections::BTreeMap;

/// The number of the variable at the place.
fn variable_number(compilation: &Compilation, place: Place) -> Option<Number>
    ensures { result ≡ number_at compilation.now place }
{
    match compilation.assignment(place) {
        Some(assignment) => Some(assignment.number),
        None => None,
    }
}

/// The number of the variable that is called so: by its name in the root, or after the names of
/// the modules that lead to it, with `::` between two.
fn overridden_number(compilation: &Compilation, name: &str) -> Option<Number>
    ensures { AllByName compilation.now → result ≡ number_of compilation.now name.now }
{
    match find_variable(compilation, name) {
        Some(place) => variable_number(compilation, place),
        None => None,
    }
}

fn set(
    alloc: Global,
    overrides: &mut BTreeMap<Number, String>,
    number: Number,
    value: &str,
) -> Result<(), AllocError>
    ensures { OnOk result ((other : ℕ) → overridden overrides.new other ≡ (if nat_eq number other then Some value.entry.now else overridden overrides.old other)) }
{
    let value = String::from_str(alloc, value)?;
    match overrides.insert(number, value) {
        Ok(_) => Ok(()),
        Err(_) => Err(AllocError),
    }
}

/// That there is no variable of this name.
fn unknown<'src>(alloc: Global, name: &str) -> Error<'src>
    ensures { result ≢ OutOfMemory → result ≡ UnknownOverride name.now }
{
    match Text::from_text(alloc, name) {
        Ok(name) => Error::UnknownOverride(name),
        Err(_) => Error::OutOfMemory,
    }
}

fn add<'src>(
    alloc: Global,
    compilation: &Compilation<'src>,
    overrides: &mut BTreeMap<Number, String>,
    given: &Override,
) -> Result<(), Error<'src>>
    ensures named { OnOk result (AllByName compilation.entry.now → (number : ℕ) × (number_of compilation.entry.now given.entry.now.name ≡ Some number) × ((other : ℕ) → overridden overrides.new other ≡ option_or (text_if (Some number) given.entry.now.value other) (overridden overrides.old other))) }
    ensures unknown { IfErr result (λ error. error ≢ OutOfMemory → AllByName compilation.entry.now → (number_of compilation.entry.now given.entry.now.name ≡ None) × (error ≡ UnknownOverride given.entry.now.name)) }
{
    let name = given.name.as_str();
    match overridden_number(compilation, name) {
        Some(number) => Ok(set(alloc, overrides, number, given.value.as_str())?),
        None => Err(unknown(alloc, name)),
    }
}

fn add_all<'src>(
    alloc: Global,
    compilation: &Compilation<'src>,
    overrides: &mut BTreeMap<Number, String>,
    given: &[Override],
) -> Result<(), Error<'src>>
    ensures given { OnOk result (((number : ℕ) → overridden overrides.old number ≡ None) → AllByName compilation.entry.now → AreGiven compilation.entry.now given.entry.now overrides.new) }
    ensures unknown { IfErr result (λ error. error ≢ OutOfMemory → AllByName compilation.entry.now → IsGivenForNone compilation.entry.now given.entry.now error) }
{
    for one in given {
        add(alloc, compilation, overrides, one)?;
    }
    Ok(())
}

/// The values that are given for variables, by their numbers; the last of one variable counts.
/// Refused where one names no variable that is kept, and where memory runs out.
pub fn resolve_overrides<'src>(
    alloc: Global,
    compilation: &Compilation<'src>,
    given: &[Override],
) -> Result<BTreeMap<Number, String>, Error<'src>>
    ensures given { IfOk result (λ overrides. AllByName compilation.now → AreGiven compilation.now given.now overrides) }
    ensures unknown { IfErr result (λ error. error ≢ OutOfMemory → AllByName compilation.now → IsGivenForNone compilation.now given.now error) }
{
    let mut overrides = BTreeMap::new(alloc);
    match add_all(alloc, compilation, &mut overrides, given) {
        Ok(()) => Ok(overrides),
        Err(error) => {
            drop(overrides);
            Err(error)
        }
    }
}
