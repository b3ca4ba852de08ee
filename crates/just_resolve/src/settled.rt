//! The values of each module's settings.
ghost use Rattle.std.specs.Prelude.{◌≡◌, ◌≢◌, ◌↔◌, ℕ, Err, IfErr, IfOk, Ok, OnOk, flat_map};
ghost use Rattle.evaluate_context.specs.Defaults.{defaults};
ghost use Rattle.evaluate_context.specs.Refusals.{fault_of};
ghost use Rattle.evaluate_variables.specs.Settled.{reading_in};
ghost use Rattle.meaning_dialogues.specs.Faults.{memory};
ghost use Rattle.resolve_references.specs.ItemReferences.{references_of_set};
ghost use Rattle.resolve_references.specs.Places.{places_of};
ghost use Rattle.resolve_references.specs.declared.read_fault.ReadFault.TheVariants as reading;
ghost use Rattle.resolve_analysis.specs.Lists.{numbers_in};
ghost use Rattle.resolve_analysis.specs.Unions.{Has, IsMarkedNumber};
ghost use Rattle.just_resolve.specs.Settling as spec;
ghost use Rattle.just_resolve.specs.Settling.{AreConstants, AreNotSet, AreSet, AreSettled, AreSettledBy, AreUnsettled, AreUnsettledBy, set_at, set_lists, sets_at};
ghost use Rattle.just_resolve.specs.declared.error.Error.TheVariants.{OutOfMemory};

use crate::error::Error;
use evaluate_context::{AssignmentRef, Settings};
use evaluate_variables::{ConstEvaluator, evaluate_const_assignments};
use just_text::Number;
use just_value::Scope;
use modules_compilation::{Compilation, Place};
use resolve_analysis::{ModuleLists, ModuleReads, add_marked};
use resolve_references::{ReadFault, VariableResolver, set_references};
use std::alloc::{AllocError, Global};
use std::collections::{BTreeMap, BTreeSet};
use tree_attributes::{Setting, TruthSetting};
use tree_items::Set;

/// What the setting reads and calls.
fn reads_of_set<'src>(
    alloc: Global,
    resolver: &VariableResolver<'src>,
    set: &Set<'src>,
) -> Result<Vec<usize>, ReadFault<'src>>
    ensures ok { IfOk result (λ places. places_of resolver.now (references_of_set set.now) ≡ Ok places.items) }
    ensures err { IfErr result (λ fault. fault ≢ reading.OutOfMemory → places_of resolver.now (references_of_set set.now) ≡ Err fault) }
{
    let references = set_references(alloc, set)?;
    resolver.resolve_references(alloc, &references)
}

/// What the settings at these places read and call.
fn setting_reads<'src>(
    alloc: Global,
    compilation: &Compilation<'src>,
    sets: &[Place],
    resolver: &VariableResolver<'src>,
) -> Result<Vec<usize>, ReadFault<'src>>
    ensures ok { IfOk result (λ places. places_of resolver.now (flat_map references_of_set (sets_at compilation.now sets.now)) ≡ Ok places.items) }
    ensures err { IfErr result (λ fault. fault ≢ reading.OutOfMemory → places_of resolver.now (flat_map references_of_set (sets_at compilation.now sets.now)) ≡ Err fault) }
{
    let mut places = Vec::new(alloc);
    for place in sets {
        if let Some(set) = compilation.set(*place) {
            let more = reads_of_set(alloc, resolver, set)?;
            places.extend_from_slice(more.as_slice())?;
        }
    }
    Ok(places)
}

/// The numbers of the module's variables that are marked.
fn marked_numbers(
    alloc: Global,
    lists: &ModuleLists,
    marks: &[Option<usize>],
) -> Result<BTreeSet<Number>, AllocError>
    ensures { IfOk result (λ numbers. (number : ℕ) → Has numbers number ↔ IsMarkedNumber (numbers_in lists.now.assignments.items) marks.now number) }
{
    let mut numbers = BTreeSet::new(alloc);
    add_marked(lists, &mut numbers, marks)?;
    Ok(numbers)
}

/// What the item at the place sets lists to, if it does.
fn lists_at(compilation: &Compilation, place: Place) -> Option<bool>
    ensures { result ≡ spec.lists_at compilation.now place }
{
    match compilation.set(place) {
        Some(set) => match &set.value {
            Setting::Truth(TruthSetting::Lists, value) => Some(*value),
            _ => None,
        },
        None => None,
    }
}

/// Whether one of the settings at these places sets lists.
fn sets_lists(compilation: &Compilation, sets: &[Place]) -> bool
    ensures { result ≡ set_lists compilation.now sets.now }
{
    for place in sets {
        if let Some(value) = lists_at(compilation, *place) {
            return value;
        }
    }
    false
}

/// The variables that the settings at these places read, directly or through others.
fn constant_numbers<'src>(
    alloc: Global,
    compilation: &Compilation<'src>,
    sets: &[Place],
    lists: &ModuleLists<'src, '_>,
    reads: &ModuleReads<'src>,
) -> Result<BTreeSet<Number>, ReadFault<'src>>
    ensures ok { IfOk result (λ numbers. AreConstants lists.now reads.now (sets_at compilation.now sets.now) numbers) }
    ensures err { IfErr result (λ fault. fault ≢ reading.OutOfMemory → places_of reads.now.resolver (flat_map references_of_set (sets_at compilation.now sets.now)) ≡ Err fault) }
{
    let places = setting_reads(alloc, compilation, sets, &reads.resolver)?;
    let marks = reads.reached(alloc, places.as_slice())?;
    Ok(marked_numbers(alloc, lists, marks.as_slice())?)
}

/// Sets what the items at these places say, in their order.
fn set_all<'src>(
    alloc: Global,
    compilation: &Compilation<'src>,
    sets: &[Place],
    known: &ConstEvaluator<'_, 'src>,
    settings: &mut Settings,
) -> Result<(), evaluate_context::Error<'src>>
    ensures set { OnOk result (AreSet (reading_in known.entry.now) known.entry.now.lists (sets_at compilation.entry.now sets.entry.now) settings.old settings.new) }
    ensures refused { IfErr result (λ error. fault_of error ≢ memory → AreNotSet (reading_in known.entry.now) known.entry.now.lists (sets_at compilation.entry.now sets.entry.now) settings.old (fault_of error)) }
{
    for place in sets {
        if let Some(set) = compilation.set(*place) {
            known.evaluate_set(alloc, settings, set)?;
        }
    }
    Ok(())
}

/// The values of the settings at these places, where these variables are known.
fn settings_at<'src>(
    alloc: Global,
    compilation: &Compilation<'src>,
    sets: &[Place],
    known: &ConstEvaluator<'_, 'src>,
) -> Result<Settings, evaluate_context::Error<'src>>
    ensures set { IfOk result (λ settings. AreSet (reading_in known.now) known.now.lists (sets_at compilation.now sets.now) defaults settings) }
    ensures refused { IfErr result (λ error. fault_of error ≢ memory → AreNotSet (reading_in known.now) known.now.lists (sets_at compilation.now sets.now) defaults (fault_of error)) }
{
    let mut settings = Settings::new(alloc);
    match set_all(alloc, compilation, sets, known, &mut settings) {
        Ok(()) => Ok(settings),
        Err(error) => {
            drop(settings);
            Err(error)
        }
    }
}

/// The values of the settings at these places, where these variables are evaluated as far as they are
/// constants.
fn known_settings<'src>(
    alloc: Global,
    compilation: &Compilation<'src>,
    sets: &[Place],
    assignments: &[AssignmentRef<'_, 'src>],
    order: &[usize],
    overrides: &BTreeMap<Number, String>,
    constants: &Scope<'_, 'src>,
    numbers: &BTreeSet<Number>,
) -> Result<Settings, evaluate_context::Error<'src>>
    ensures settled { IfOk result (λ settings. AreSettledBy constants.now overrides.now compilation.now sets.now assignments.now order.now numbers.now settings) }
    ensures refused { IfErr result (λ error. fault_of error ≢ memory → AreUnsettledBy constants.now overrides.now compilation.now sets.now assignments.now order.now numbers.now (fault_of error)) }
{
    let lists = sets_lists(compilation, sets);
    let known = evaluate_const_assignments(
        alloc,
        assignments,
        order,
        overrides,
        constants,
        numbers,
        lists,
    )?;
    settings_at(alloc, compilation, sets, &known)
}

/// The values of the module's settings, which stand at these places, by constants alone; its
/// variables' places are given each after those that it reads. Refused where a setting reads or calls what
/// is not there, is no constant or has no value, or where a constant that it reads has none; and
/// where memory runs out.
pub fn settled<'src>(
    alloc: Global,
    compilation: &Compilation<'src>,
    sets: &[Place],
    lists: &ModuleLists<'src, '_>,
    reads: &ModuleReads<'src>,
    order: &[usize],
    overrides: &BTreeMap<Number, String>,
    constants: &Scope<'_, 'src>,
) -> Result<Settings, Error<'src>>
    ensures settled { IfOk result (λ settings. AreSettled constants.now overrides.now compilation.now sets.now lists.now reads.now order.now settings) }
    ensures refused { IfErr result (λ error. error ≢ OutOfMemory → AreUnsettled constants.now overrides.now compilation.now sets.now lists.now reads.now order.now error) }
{
    let numbers = constant_numbers(alloc, compilation, sets, lists, reads)?;
    Ok(known_settings(
        alloc,
        compilation,
        sets,
        lists.assignments.as_slice(),
        order,
        overrides,
        constants,
        &numbers,
    )?)
}
