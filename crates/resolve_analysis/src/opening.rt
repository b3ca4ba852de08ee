//! The variables that a lazy justfile evaluates.
ghost use Rattle.std.specs.Prelude.{◌≡◌, ◌↔◌, ◌++◌, ℕ, [], Contains, IfOk, OnOk, map, option_map, replicate, slice_get};
ghost use Rattle.resolve_order.specs.Needs.{rows as rows_in};
ghost use Rattle.resolve_analysis.specs.Opening as spec;
ghost use Rattle.resolve_analysis.specs.Opening.{AreReadRows, AreRows, IsEvaluated, IsNumberOf, IsOpenedNumber, IsReadByRecipe, needs_of, reads_at, reads_if_marked, wanted_from};
ghost use Rattle.resolve_analysis.specs.Unions.{Has, IsUnion};

use crate::marked::add_marked;
use crate::module_lists::ModuleLists;
use crate::module_reads::ModuleReads;
use crate::recipes::ResolvedRecipe;
use crate::variables::ModuleVariables;
use evaluate_context::{AssignmentRef, Settings};
use just_text::Number;
use resolve_order::reached;
use std::alloc::{AllocError, Global};
use std::collections::BTreeSet;
use tree_items::Assignment;

/// Whether the variable is evaluated whether or not something reads it.
fn is_wanted(assignment: &Assignment, exports_all: bool) -> bool
    ensures { result ≡ spec.is_wanted exports_all assignment.now }
{
    assignment.eager || assignment.export || exports_all
}

/// Adds the places of the variables that are evaluated whether or not something reads them: those
/// that are eager, and those that are exported.
fn add_wanted(
    assignments: &[AssignmentRef],
    places: &mut Vec<usize>,
    exports_all: bool,
) -> Result<(), AllocError>
    ensures { OnOk result (places.new.items ≡ places.old.items ++ wanted_from exports_all 0 assignments.entry.now) }
{
    for place in 0..assignments.len() {
        if is_wanted(assignments[place].assignment, exports_all) {
            places.push(place)?;
        }
    }
    Ok(())
}

/// What the recipe depends on; nothing where dependencies don't run.
fn recipe_row(
    alloc: Global,
    recipe: &ResolvedRecipe,
    no_dependencies: bool,
) -> Result<Vec<usize>, AllocError>
    ensures { IfOk result (λ row. row.items ≡ needs_of no_dependencies recipe.now) }
{
    let mut row = Vec::new(alloc);
    if no_dependencies {
        return Ok(row);
    }
    row.extend_from_slice(recipe.priors.as_slice())?;
    row.extend_from_slice(recipe.subsequents.as_slice())?;
    Ok(row)
}

/// What each recipe depends on; nothing where dependencies don't run.
fn recipe_graph(
    alloc: Global,
    recipes: &[ResolvedRecipe],
    no_dependencies: bool,
) -> Result<Vec<Vec<usize>>, AllocError>
    ensures { IfOk result (λ graph. rows_in graph.items ≡ map (needs_of no_dependencies) recipes.now) }
{
    let mut graph = Vec::new(alloc);
    for recipe in recipes {
        graph.push(recipe_row(alloc, recipe, no_dependencies)?)?;
    }
    Ok(graph)
}

fn empty_rows(alloc: Global, count: usize) -> Result<Vec<Vec<usize>>, AllocError>
    ensures { IfOk result (λ rows. rows_in rows.items ≡ replicate count []) }
{
    let mut rows = Vec::new(alloc);
    for _ in 0..count {
        rows.push(Vec::new(alloc))?;
    }
    Ok(rows)
}

/// Puts what the recipe reads into the row of its module.
fn add_reads(recipe: &ResolvedRecipe, rows: &mut [Vec<usize>]) -> Result<(), AllocError>
    ensures { OnOk result ((home : ℕ) → slice_get (rows_in rows.new) home ≡ option_map (λ row. row ++ reads_at home recipe.entry.now) (slice_get (rows_in rows.old) home)) }
{
    let module = recipe.module;
    if module >= rows.len() {
        return Ok(());
    }
    rows[module].extend_from_slice(recipe.reads.as_slice())?;
    Ok(())
}

/// Puts what the recipe reads into the row of its module, if it is marked.
fn add_if_marked(
    recipe: &ResolvedRecipe,
    mark: Option<usize>,
    rows: &mut [Vec<usize>],
) -> Result<(), AllocError>
    ensures { OnOk result ((home : ℕ) → slice_get (rows_in rows.new) home ≡ option_map (λ row. row ++ reads_if_marked home recipe.entry.now mark) (slice_get (rows_in rows.old) home)) }
{
    match mark {
        Some(_) => add_reads(recipe, rows),
        None => Ok(()),
    }
}

/// Puts what the marked recipes read into the rows of their modules.
fn add_marked_reads(
    recipes: &[ResolvedRecipe],
    marks: &[Option<usize>],
    rows: &mut [Vec<usize>],
) -> Result<(), AllocError>
    ensures { OnOk result ((home : ℕ) → slice_get (rows_in rows.new) home ≡ option_map (λ row. row ++ spec.marked_reads home recipes.entry.now marks.entry.now) (slice_get (rows_in rows.old) home)) }
{
    for place in 0..recipes.len().min(marks.len()) {
        add_if_marked(&recipes[place], marks[place], rows)?;
    }
    Ok(())
}

/// What the marked recipes read, for each of so many modules.
fn marked_reads(
    alloc: Global,
    recipes: &[ResolvedRecipe],
    marks: &[Option<usize>],
    count: usize,
) -> Result<Vec<Vec<usize>>, AllocError>
    ensures { IfOk result (λ rows. AreRows count (λ home. spec.marked_reads home recipes.now marks.now) (rows_in rows.items)) }
{
    let mut rows = empty_rows(alloc, count)?;
    add_marked_reads(recipes, marks, &mut rows)?;
    Ok(rows)
}

/// What a run of the recipes at these places reads, for each of so many modules.
fn recipe_reads(
    alloc: Global,
    recipes: &[ResolvedRecipe],
    called: &[usize],
    no_dependencies: bool,
    count: usize,
) -> Result<Vec<Vec<usize>>, AllocError>
    ensures { IfOk result (λ rows. AreReadRows count (IsReadByRecipe recipes.now no_dependencies called.now) (rows_in rows.items)) }
{
    let graph = recipe_graph(alloc, recipes, no_dependencies)?;
    let marks = reached(alloc, graph.as_slice(), &[], called)?;
    marked_reads(alloc, recipes, marks.as_slice(), count)
}

/// Adds the module's variables that are wanted anyway, those that are read at these places, and what
/// these read.
fn add_module<'src>(
    alloc: Global,
    lists: &ModuleLists<'src, '_>,
    reads: &ModuleReads<'src>,
    numbers: &mut BTreeSet<Number>,
    exports_all: bool,
    row: &[usize],
) -> Result<(), AllocError>
    ensures { OnOk result (IsUnion (Has numbers.old) (IsOpenedNumber exports_all lists.entry.now reads.entry.now (Contains row.entry.now)) (Has numbers.new)) }
{
    let mut places = row.to_vec(alloc)?;
    add_wanted(lists.assignments.as_slice(), &mut places, exports_all)?;
    let marks = reads.reached(alloc, places.as_slice())?;
    add_marked(lists, numbers, marks.as_slice())
}

/// Whether the module exports all its variables.
fn exports_all(settings: &[Settings], module: usize) -> bool
    ensures { result ≡ spec.exports_all (slice_get settings.now «module») }
{
    match settings.get(module) {
        Some(settings) => settings.export,
        None => false,
    }
}

/// Adds the variables of each module, of which these are read at these places.
fn add_modules<'src>(
    alloc: Global,
    lists: &[ModuleLists<'src, '_>],
    reads: &[ModuleReads<'src>],
    settings: &[Settings],
    numbers: &mut BTreeSet<Number>,
    rows: &[Vec<usize>],
) -> Result<(), AllocError>
    ensures { OnOk result (IsUnion (Has numbers.old) (IsNumberOf lists.entry.now reads.entry.now settings.entry.now (rows_in rows.entry.now)) (Has numbers.new)) }
{
    let count = lists.len().min(reads.len());
    for module in 0..rows.len().min(count) {
        let exports_all = exports_all(settings, module);
        let row = rows[module].as_slice();
        add_module(
            alloc,
            &lists[module],
            &reads[module],
            numbers,
            exports_all,
            row,
        )?;
    }
    Ok(())
}

/// The numbers of the variables that are evaluated where these are read at these places.
fn read_numbers<'src>(
    alloc: Global,
    variables: &ModuleVariables<'src, '_>,
    settings: &[Settings],
    rows: &[Vec<usize>],
) -> Result<BTreeSet<Number>, AllocError>
    ensures { IfOk result (λ numbers. (number : ℕ) → Has numbers number ↔ IsNumberOf variables.now.lists.items variables.now.reads.items settings.now (rows_in rows.now) number) }
{
    let lists = variables.lists.as_slice();
    let reads = variables.reads.as_slice();
    let mut numbers = BTreeSet::new(alloc);
    add_modules(alloc, lists, reads, settings, &mut numbers, rows)?;
    Ok(numbers)
}

/// The numbers of the variables that a run of these recipes evaluates where the modules are lazy: in
/// each module those that are eager or exported, those that the recipes read, or, unless dependencies
/// don't run, what they depend on, and what these variables read, directly or through functions. An
/// overridden variable isn't looked into.
pub fn collect_references<'src>(
    alloc: Global,
    variables: &ModuleVariables<'src, '_>,
    recipes: &[ResolvedRecipe<'src>],
    settings: &[Settings],
    called: &[usize],
    no_dependencies: bool,
) -> Result<BTreeSet<Number>, AllocError>
    ensures { IfOk result (λ numbers. (number : ℕ) → Has numbers number ↔ IsEvaluated variables.now recipes.now settings.now called.now no_dependencies number) }
{
    let count = variables.lists.len();
    let rows = recipe_reads(alloc, recipes, called, no_dependencies, count)?;
    read_numbers(alloc, variables, settings, rows.as_slice())
}
