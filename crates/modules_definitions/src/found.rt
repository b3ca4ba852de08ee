//! What the files of a module define.
ghost use Rattle.std.specs.Prelude.{◌≡◌, ◌≤◌, IfOk, OnOk, option_map, slice_get};
ghost use Rattle.modules_compilation.specs.Places.{items_in};
ghost use Rattle.modules_definitions.specs.Defining.{defined_by, module_name, if_enabled, recipe_kind, named_by, submodule_at, named_at, AreDefinitions, InFiles, InItem, InItems, InSubmodules, IsSubmoduleAt, Stands};
ghost use Rattle.modules_definitions.specs.Gathering.{AreApart, Gathers, HaveOwnItems, IsItemAmong, IsItemOf, StaysApart};
ghost use Rattle.modules_definitions.specs.Keeping.{AreInOrder};

use crate::definition::{Definition, Kind};
use crate::file_range::FileRange;
use just_text::{Name, Os};
use modules_compilation::{File, ModuleNode, Place};
use std::alloc::{AllocError, Global};
use tree_items::Item;

/// A name and what it stands for.
#[derive(Clone, Copy)]
struct Named<'src, 'a> {
    kind: Kind,
    name: &'a Name<'src>,
}

/// The name of what is there under the operating system.
fn if_enabled<'src, 'a>(enabled: bool, kind: Kind, name: &'a Name<'src>) -> Option<Named<'src, 'a>>
    ensures { option_map named_by result ≡ if_enabled enabled kind name.now }
{
    if enabled {
        Some(Named { kind, name })
    } else {
        None
    }
}

/// What a recipe is.
fn recipe_kind(enabled: bool) -> Kind
    ensures { result ≡ recipe_kind enabled }
{
    if enabled {
        Kind::Recipe
    } else {
        Kind::Disabled
    }
}

/// What an item defines under this operating system, but for submodules.
fn name_of<'src, 'a>(item: &'a Item<'src>, os: Os) -> Option<Named<'src, 'a>>
    ensures { option_map named_by result ≡ defined_by os item.now }
{
    match item {
        Item::Alias(alias) => if_enabled(true, Kind::Alias, &alias.name),
        Item::Assignment(assignment) => {
            let enabled = assignment.attributes.is_enabled(os);
            if_enabled(enabled, Kind::Variable, &assignment.name)
        }
        Item::Function(function) => if_enabled(true, Kind::Function, &function.name),
        Item::Recipe(recipe) => {
            let kind = recipe_kind(recipe.attributes.is_enabled(os));
            if_enabled(true, kind, &recipe.name)
        }
        Item::Set(set) => if_enabled(set.attributes.is_enabled(os), Kind::Set, &set.name),
        Item::Unexport(unexport) => if_enabled(true, Kind::Unexport, &unexport.name),
        Item::Comment(_) | Item::Import(_) | Item::Module(_) | Item::Newline => None,
    }
}

/// Puts what the item at the place defines after what was found.
fn add_item<'src, 'a>(
    found: &mut Vec<Definition<'src, 'a>>,
    item: &'a Item<'src>,
    place: Place,
    os: Os,
) -> Result<(), AllocError>
    ensures each { OnOk result (Gathers (InItem os item.now place) found.old.items found.new.items) }
    ensures apart { OnOk result (StaysApart (λ at. at ≡ place) found.old.items found.new.items) }
{
    match name_of(item, os) {
        Some(named) => {
            found.push(Definition::new(named.kind, named.name, place))?;
            Ok(())
        }
        None => Ok(()),
    }
}

/// Puts what the items of the file at the place define after what was found.
fn add_items<'src, 'a>(
    found: &mut Vec<Definition<'src, 'a>>,
    items: &'a [Item<'src>],
    file: usize,
    os: Os,
) -> Result<(), AllocError>
    ensures each { OnOk result (Gathers (InItems os items.now file) found.old.items found.new.items) }
    ensures apart { OnOk result (StaysApart (λ at. at.file ≡ file) found.old.items found.new.items) }
{
    for item in 0..items.len() {
        add_item(found, &items[item], Place { file, item }, os)?;
    }
    Ok(())
}

/// The items of the file, in their order.
fn items_of<'file, 'src>(file: &'file File<'src>) -> &'file [Item<'src>]
    ensures { result.now ≡ file.now.ast.items.items }
{
    file.ast.items.as_slice()
}

/// Puts what the items of the file at the place define after what was found, if there is a file.
fn add_file<'src, 'a>(
    found: &mut Vec<Definition<'src, 'a>>,
    files: &'a [File<'src>],
    file: usize,
    os: Os,
) -> Result<(), AllocError>
    ensures each { OnOk result (Gathers (InItems os (items_in files.now file) file) found.old.items found.new.items) }
    ensures apart { OnOk result (StaysApart (λ at. at.file ≡ file) found.old.items found.new.items) }
{
    if file >= files.len() {
        return Ok(());
    }
    add_items(found, items_of(&files[file]), file, os)
}

/// Puts what the files of the range define after what was found.
fn add_files<'src, 'a>(
    found: &mut Vec<Definition<'src, 'a>>,
    files: &'a [File<'src>],
    range: FileRange,
    os: Os,
) -> Result<(), AllocError>
    ensures each { OnOk result (Gathers (InFiles os files.now range.first range.end) found.old.items found.new.items) }
    ensures apart { OnOk result (StaysApart (λ at. range.first ≤ at.file) found.old.items found.new.items) }
{
    for place in range.first..range.end {
        add_file(found, files, place, os)?;
    }
    Ok(())
}

/// The name of a submodule and where its `mod` item stands.
#[derive(Clone, Copy)]
struct Submodule<'src, 'a> {
    name: &'a Name<'src>,
    place: Place,
}

/// The name of the submodule whose `mod` item is this one of the items, if it is one.
fn name_among<'src, 'a>(items: &'a [Item<'src>], item: usize) -> Option<&'a Name<'src>>
    ensures { option_map (λ name. name.now) result ≡ module_name (slice_get items.now item) }
{
    match items.get(item) {
        Some(Item::Module(module)) => Some(&module.name),
        _ => None,
    }
}

/// The name of the submodule whose `mod` item stands at the place, if one does.
fn name_at<'src, 'a>(files: &'a [File<'src>], place: Place) -> Option<&'a Name<'src>>
    ensures { option_map (λ name. name.now) result ≡ named_at files.now place }
{
    if place.file >= files.len() {
        return None;
    }
    name_among(items_of(&files[place.file]), place.item)
}

/// The submodule at the place of all modules, if there is one.
fn submodule_in<'src, 'a>(
    files: &'a [File<'src>],
    modules: &[ModuleNode<'src>],
    module: usize,
) -> Option<Submodule<'src, 'a>>
    ensures { option_map (λ found. (found.name.now, found.place)) result ≡ submodule_at files.now modules.now «module» }
{
    let place = modules.get(module)?.item?;
    let name = name_at(files, place)?;
    Some(Submodule { name, place })
}

/// Puts the submodule at the place of all modules after what was found.
fn add_submodule<'src, 'a>(
    found: &mut Vec<Definition<'src, 'a>>,
    files: &'a [File<'src>],
    modules: &[ModuleNode<'src>],
    module: usize,
) -> Result<(), AllocError>
    ensures each { OnOk result (Gathers (IsSubmoduleAt files.now modules.now «module») found.old.items found.new.items) }
    ensures apart { OnOk result (StaysApart (IsItemOf files.now modules.now «module») found.old.items found.new.items) }
{
    match submodule_in(files, modules, module) {
        Some(inner) => {
            found.push(Definition::new(Kind::Module(module), inner.name, inner.place))?;
            Ok(())
        }
        None => Ok(()),
    }
}

/// Puts the submodules at the places of all modules after what was found.
fn add_submodules<'src, 'a>(
    found: &mut Vec<Definition<'src, 'a>>,
    files: &'a [File<'src>],
    modules: &[ModuleNode<'src>],
    submodules: &[usize],
) -> Result<(), AllocError>
    ensures each { OnOk result (Gathers (InSubmodules files.now modules.now submodules.now) found.old.items found.new.items) }
    ensures apart { OnOk result (HaveOwnItems files.now modules.now submodules.now → StaysApart (IsItemAmong files.now modules.now submodules.now) found.old.items found.new.items) }
{
    for module in submodules {
        add_submodule(found, files, modules, *module)?;
    }
    Ok(())
}

/// What the files of a module, which are those of the range, and its submodules, which stand at these
/// places of all modules, define, in order: by space, by name in byte order, and by place.
///
/// Refused where memory runs out.
pub fn definitions<'src, 'a>(
    alloc: Global,
    files: &'a [File<'src>],
    range: FileRange,
    modules: &[ModuleNode<'src>],
    submodules: &[usize],
    os: Os,
) -> Result<Vec<Definition<'src, 'a>>, AllocError>
    ensures each { IfOk result (λ found. AreDefinitions (Stands os files.now range modules.now submodules.now) found.items) }
    ensures order { IfOk result (λ found. AreInOrder found.items) }
    ensures apart { IfOk result (λ found. HaveOwnItems files.now modules.now submodules.now → AreApart found.items) }
{
    let mut found = Vec::new(alloc);
    add_files(&mut found, files, range, os)?;
    add_submodules(&mut found, files, modules, submodules)?;
    found.sort_by(|one, other| one.compare(other))?;
    Ok(found)
}
