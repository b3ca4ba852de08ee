//! Numbers for all variables that are read.
ghost use Rattle.std.specs.Prelude.{◌≡◌, ℕ, IfOk, List, OnOk, Some, map, slice_get};
ghost use Rattle.std.specs.List.{All, AllZip};
ghost use Rattle.std.specs.Option.{option_or};
ghost use Rattle.tree_items.specs.Contexts.{last_named, number_in};
ghost use Rattle.resolve_recipes.specs.Named.{AllByName};
ghost use Rattle.resolve_references.specs.Seen.{HaveNumbers};
ghost use Rattle.resolve_analysis.specs.Bound.{AreBound, AreNamesOf, binding_number, constant_number};
ghost use Rattle.resolve_analysis.specs.Lists.{variables_at};
ghost use Rattle.resolve_analysis.specs.Numbered.{AreSameFiles, AreSameItems, IsFileNumbered, IsNumbered, IsSameFile, file_names, names_of};

use just_text::Numerator;
use just_value::{CONSTANT_COUNT, constants};
use modules_compilation::{Compilation, File, ModuleNode, Place};
use resolve_references::number_item;
use std::alloc::{AllocError, Global};
use tree_items::{ExpressionContext, Item};

/// The names of the constants.
fn constant_names<'src>(alloc: Global) -> Result<ExpressionContext<'src>, AllocError>
    ensures { IfOk result (λ names. (name : List ℕ) → number_in names name ≡ constant_number name) }
{
    let numerator = Numerator::new(CONSTANT_COUNT);
    let mut names = ExpressionContext::new(alloc);
    for index in 0..CONSTANT_COUNT {
        let (name, _) = constants()[index as usize];
        names.set(name, numerator.constant(index))?;
    }
    Ok(names)
}

/// Puts the variables at these places among the names, in place of those of the same name.
fn add_variables<'src>(
    names: &mut ExpressionContext<'src>,
    compilation: &Compilation<'src>,
    places: &[Place],
) -> Result<(), AllocError>
    ensures { OnOk result ((name : List ℕ) → number_in names.new name ≡ option_or (last_named name (map binding_number (variables_at compilation.now places.now))) (number_in names.old name)) }
{
    for place in places {
        if let Some(assignment) = compilation.assignment(*place) {
            names.set(assignment.name.lexeme(), assignment.number)?;
        }
    }
    Ok(())
}

/// The names that a module's expressions see: the constants, and in place of these the module's
/// variables.
fn module_names<'src>(
    alloc: Global,
    compilation: &Compilation<'src>,
    node: &ModuleNode<'src>,
) -> Result<ExpressionContext<'src>, AllocError>
    ensures { IfOk result (λ names. AreNamesOf compilation.now node.now names) }
{
    let mut names = constant_names(alloc)?;
    add_variables(&mut names, compilation, node.assignments.as_slice())?;
    Ok(names)
}

/// The names that the expressions of each module see.
fn all_names<'src>(
    alloc: Global,
    compilation: &Compilation<'src>,
) -> Result<Vec<ExpressionContext<'src>>, AllocError>
    ensures { IfOk result (λ all. AllZip (AreNamesOf compilation.now) compilation.now.modules.items all.items) }
{
    let mut all = Vec::new(alloc);
    for node in &compilation.modules {
        all.push(module_names(alloc, compilation, node)?)?;
    }
    Ok(all)
}

/// Numbers the variables of the items, which see these names.
fn number_items<'src>(
    alloc: Global,
    items: &mut Vec<Item<'src>>,
    names: &ExpressionContext<'src>,
) -> Result<(), AllocError>
    ensures names { names_of items.new.items ≡ names_of items.old.items }
    ensures same { AreSameItems items.old.items items.new.items }
    ensures numbers { OnOk result (All (HaveNumbers (number_in names.now)) items.new.items) }
{
    for place in 0..items.len() {
        number_item(alloc, &mut items[place], names)?;
    }
    Ok(())
}

/// Numbers the variables of the file, which see the names of its module.
fn number_file<'src>(
    alloc: Global,
    file: &mut File<'src>,
    all: &[ExpressionContext<'src>],
) -> Result<(), AllocError>
    ensures names { file_names file.new ≡ file_names file.old }
    ensures same { IsSameFile file.old file.new }
    ensures numbers { OnOk result (IsFileNumbered all.now file.new) }
{
    match all.get(file.module) {
        Some(names) => number_items(alloc, &mut file.ast.items, names),
        None => Ok(()),
    }
}

/// Numbers the variables of the files, each of which sees the names of its module.
fn number_files<'src>(
    alloc: Global,
    files: &mut Vec<File<'src>>,
    all: &[ExpressionContext<'src>],
) -> Result<(), AllocError>
    ensures names { map file_names files.new.items ≡ map file_names files.old.items }
    ensures same { AreSameFiles files.old.items files.new.items }
    ensures numbers { OnOk result (All (IsFileNumbered all.now) files.new.items) }
{
    for place in 0..files.len() {
        number_file(alloc, &mut files[place], all)?;
    }
    Ok(())
}

/// Gives each variable of all expressions the number of what its name stands for: a parameter of
/// those that the expression sees, else a variable of its module, else a constant; none where it
/// stands for nothing. A submodule sees no variable of another module. Refused only where memory
/// is; some variables may have their numbers then.
pub fn number_variables<'src>(
    alloc: Global,
    compilation: &mut Compilation<'src>,
) -> Result<(), AllocError>
    ensures numbered { IsNumbered compilation.old compilation.new }
    ensures by_name { AllByName compilation.old → AllByName compilation.new }
    ensures bound { OnOk result (AreBound compilation.new) }
{
    let all = all_names(alloc, &*compilation)?;
    number_files(alloc, &mut compilation.files, all.as_slice())
}
