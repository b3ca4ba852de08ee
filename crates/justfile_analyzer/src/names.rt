//! What words may name of a justfile.
ghost use Rattle.std.specs.Prelude.{◌≡◌, ℕ, ◌||◌, [], List, IfOk, OnOk, Some, None, bytes_eq, cond, if◌then◌else◌, map, option_map, slice_get};
ghost use Rattle.std.specs.Option.{option_and_then};
ghost use Rattle.just_text.specs.Tokens.{lexeme};
ghost use Rattle.meaning_evaluation.specs.Stages.Parameters.{is_star};
ghost use Rattle.modules_compilation.specs.Modulepaths.{pieces};
ghost use Rattle.resolve_recipes.specs.Named.{AllByName, IsByName, text_at};
ghost use Rattle.analyze_words.specs.Worded.{slot_of};
ghost use Rattle.analyze_words.specs.declared.menu.Meaning.TheVariants.{Recipe, Submodule};
ghost use Rattle.justfile_analyzer.specs.MenusOf as spec;
ghost use Rattle.justfile_analyzer.specs.MenuRows.{AreCallables, AreMenus, AreNamedBy, Gains, IsMenuOf, put_at};

use analyze_words::{Callable, Meaning, Menu, Menus, Slot};
use evaluate_context::Settings;
use just_text::{Name, Text};
use modules_compilation::{Compilation, ModuleNode, Place};
use resolve_analysis::{RecipeTable, ResolvedRecipe};
use resolve_recipes::{ResolvedAlias, default_recipe, find_recipe};
use std::alloc::{AllocError, Global};
use std::collections::BTreeSet;
use tree_items::{Parameter, ParameterKind};

/// The text, if it is there.
fn text_of<'a>(text: &'a Option<Text>) -> Option<&'a str>
    ensures { option_map (λ text. text.now) result ≡ text.now }
{
    match text {
        Some(text) => Some(text.as_str()),
        None => None,
    }
}

/// Whether the parameter takes any number of values.
fn is_star(kind: ParameterKind) -> bool
    ensures { result ≡ is_star kind }
{
    matches!(kind, ParameterKind::Star)
}

/// The parameter, as words see it.
fn slot<'a>(parameter: &'a Parameter) -> Slot<'a>
    ensures { slot_of result ≡ spec.slot_row parameter.now }
{
    let may_lack = parameter.default.is_some() || parameter.flag;
    Slot {
        long: text_of(&parameter.long),
        short: parameter.short,
        takes_value: !(parameter.flag || parameter.value.is_some()),
        multiple: parameter.multiple,
        variadic: parameter.kind.is_variadic(),
        required: !(may_lack || is_star(parameter.kind)),
    }
}

fn slots<'a>(alloc: Global, parameters: &'a [Parameter]) -> Result<Vec<Slot<'a>>, AllocError>
    ensures { IfOk result (λ slots. map slot_of slots.items ≡ map spec.slot_row parameters.now) }
{
    let mut slots = Vec::with_capacity(alloc, parameters.len())?;
    for parameter in parameters {
        slots.push(slot(parameter))?;
    }
    Ok(slots)
}

/// The parameters of the recipe that stands at this place, as words see them.
fn slots_at<'a, 'src>(
    alloc: Global,
    compilation: &'a Compilation<'src>,
    place: Place,
) -> Result<Vec<Slot<'a>>, AllocError>
    ensures { IfOk result (λ slots. map slot_of slots.items ≡ spec.slots_at compilation.now place) }
{
    match compilation.recipe(place) {
        Some(recipe) => slots(alloc, recipe.parameters.as_slice()),
        None => Ok(Vec::new(alloc)),
    }
}

/// The recipe as words see it, without its parameters where none can name it.
fn callable<'a, 'src>(
    alloc: Global,
    compilation: &'a Compilation<'src>,
    resolved: &ResolvedRecipe<'a>,
    is_named: bool,
) -> Result<Callable<'a>, AllocError>
    ensures name { IfOk result (λ callable. callable.name.now ≡ lexeme resolved.now.name.token) }
    ensures slots { IfOk result (λ callable. map slot_of callable.slots.items ≡ (if is_named then spec.slots_at compilation.now resolved.now.place else [])) }
{
    let name = resolved.name.lexeme();
    let slots = if is_named {
        slots_at(alloc, compilation, resolved.place)?
    } else {
        Vec::new(alloc)
    };
    Ok(Callable { name, slots })
}

/// The recipes in their order; those of these places with their parameters.
fn callables<'a, 'src>(
    alloc: Global,
    compilation: &'a Compilation<'src>,
    recipes: &[ResolvedRecipe<'a>],
    named: &BTreeSet<usize>,
) -> Result<Vec<Callable<'a>>, AllocError>
    ensures { IfOk result (λ all. AreCallables compilation.now named.now recipes.now all.items) }
{
    let mut all = Vec::new(alloc);
    for place in 0..recipes.len() {
        let is_named = named.contains(&place);
        all.push(callable(alloc, compilation, &recipes[place], is_named)?)?;
    }
    Ok(all)
}

/// The places of the recipes that the modules name.
fn named_recipes(alloc: Global, modules: &[Menu]) -> Result<BTreeSet<usize>, AllocError>
    ensures { IfOk result (λ places. AreNamedBy modules.now places) }
{
    let mut places = BTreeSet::new(alloc);
    for module in modules {
        module.add_recipes(&mut places)?;
    }
    Ok(places)
}

/// The names that stand in the words, as a recipe's or on a path.
fn names_in<'w>(alloc: Global, words: &'w [Text]) -> Result<BTreeSet<&'w str>, AllocError>
    ensures { IfOk result (λ names. (name : List ℕ) → spec.has_name names name ≡ spec.is_wanted words.now name) }
{
    let mut names = BTreeSet::new(alloc);
    for word in words {
        add_names(&mut names, word.as_str())?;
    }
    Ok(names)
}

/// Adds the names of the path.
fn add_names<'w>(names: &mut BTreeSet<&'w str>, path: &'w str) -> Result<(), AllocError>
    ensures { OnOk result ((name : List ℕ) → spec.has_name names.new name ≡ (spec.has_name names.old name || spec.is_among (pieces path.now) name)) }
{
    let mut rest = path;
    while let Some((name, others)) = rest.split_once("::") {
        names.insert(name)?;
        rest = others;
    }
    names.insert(rest)?;
    Ok(())
}

/// The name's text of the item at the place, empty where it has none.
fn name_text<'src>(compilation: &Compilation<'src>, place: Place) -> &'src str
    ensures { result.now ≡ text_at compilation.now place }
{
    match compilation.name(place) {
        Some(name) => name.lexeme(),
        None => "",
    }
}

/// The rank of the recipe that stands at this place of its file.
fn rank_at(table: &RecipeTable, place: Place) -> Option<usize>
    ensures { result ≡ spec.rank_at table.now place }
{
    match table.places.get(place) {
        Some(rank) => (rank < table.recipes.len()).then_some(rank),
        None => None,
    }
}

/// Puts the recipe on the menu that stands at this place of its file.
fn put_recipe<'a, 'src>(
    compilation: &'a Compilation<'src>,
    table: &RecipeTable,
    menu: &mut Menu<'a>,
    place: Place,
) -> Result<(), AllocError>
    ensures { OnOk result (Gains (put_at compilation.now table.now place) menu.old menu.new) }
{
    match rank_at(table, place) {
        Some(rank) => menu.put(name_text(compilation, place), Meaning::Recipe(rank)),
        None => Ok(()),
    }
}

/// Puts the recipe on the menu that the module keeps under the name.
fn put_named<'a, 'src>(
    compilation: &'a Compilation<'src>,
    table: &RecipeTable,
    menu: &mut Menu<'a>,
    node: &ModuleNode<'src>,
    name: &str,
) -> Result<(), AllocError>
    ensures { OnOk result (IsByName compilation.now node.now → Gains (λ other. cond (bytes_eq other name.now) (spec.recipe_meant compilation.now table.now node.now other) None) menu.old menu.new) }
{
    match find_recipe(compilation, node, name) {
        Some(place) => put_recipe(compilation, table, menu, place),
        None => Ok(()),
    }
}

/// Puts the recipes on the menu that the module keeps under the names that are wanted, going over
/// these names.
fn put_wanted<'a, 'src>(
    compilation: &'a Compilation<'src>,
    table: &RecipeTable,
    wanted: &BTreeSet<&str>,
    menu: &mut Menu<'a>,
    node: &ModuleNode<'src>,
) -> Result<(), AllocError>
    ensures { OnOk result (IsByName compilation.now node.now → Gains (λ name. cond (spec.has_name wanted.now name) (spec.recipe_meant compilation.now table.now node.now name) None) menu.old menu.new) }
{
    for name in wanted {
        put_named(compilation, table, menu, node, name)?;
    }
    Ok(())
}

/// Puts the recipes on the menu that the module keeps under the names that are wanted, going over
/// the module's recipes.
fn put_kept<'a, 'src>(
    compilation: &'a Compilation<'src>,
    table: &RecipeTable,
    wanted: &BTreeSet<&str>,
    menu: &mut Menu<'a>,
    node: &ModuleNode<'src>,
) -> Result<(), AllocError>
    ensures { OnOk result (IsByName compilation.now node.now → Gains (λ name. cond (spec.has_name wanted.now name) (spec.recipe_meant compilation.now table.now node.now name) None) menu.old menu.new) }
{
    for place in node.recipes.as_slice() {
        let name = name_text(compilation, *place);
        if wanted.contains(name) {
            put_named(compilation, table, menu, node, name)?;
        }
    }
    Ok(())
}

/// Puts the recipes on the menu that the module keeps under the names that are wanted: looks up the
/// names, or the module's recipes among them where these are fewer.
fn put_recipes<'a, 'src>(
    compilation: &'a Compilation<'src>,
    table: &RecipeTable,
    wanted: &BTreeSet<&str>,
    menu: &mut Menu<'a>,
    node: &ModuleNode<'src>,
) -> Result<(), AllocError>
    ensures { OnOk result (IsByName compilation.now node.now → Gains (λ name. cond (spec.has_name wanted.now name) (spec.recipe_meant compilation.now table.now node.now name) None) menu.old menu.new) }
{
    if node.recipes.len() < wanted.len() {
        return put_kept(compilation, table, wanted, menu, node);
    }
    put_wanted(compilation, table, wanted, menu, node)
}

/// Puts the alias on the menu where its name is wanted.
fn put_alias<'a>(
    alias: &ResolvedAlias<'a>,
    wanted: &BTreeSet<&str>,
    menu: &mut Menu<'a>,
) -> Result<(), AllocError>
    ensures { OnOk result (Gains (λ name. cond (spec.has_name wanted.now name) (cond (bytes_eq (lexeme alias.now.name.token) name) (Some (Recipe alias.now.recipe)) None) None) menu.old menu.new) }
{
    let name = alias.name.lexeme();
    if !wanted.contains(name) {
        return Ok(());
    }
    menu.put(name, Meaning::Recipe(alias.recipe))
}

/// Puts the aliases on the menu whose names are wanted.
fn put_aliases<'a>(
    aliases: &[ResolvedAlias<'a>],
    wanted: &BTreeSet<&str>,
    menu: &mut Menu<'a>,
) -> Result<(), AllocError>
    ensures { OnOk result (Gains (λ name. cond (spec.has_name wanted.now name) (spec.alias_meant aliases.now name) None) menu.old menu.new) }
{
    for alias in aliases {
        put_alias(alias, wanted, menu)?;
    }
    Ok(())
}

/// The name of the module at the place; the root has none.
fn own_name<'src>(modules: &[ModuleNode<'src>], module: usize) -> Option<Name<'src>>
    ensures { result ≡ option_and_then (λ node. node.name) (slice_get modules.now «module») }
{
    match modules.get(module) {
        Some(node) => node.name,
        None => None,
    }
}

/// Puts the submodule at the place on the menu; the root has no name.
fn put_submodule<'a, 'src>(
    modules: &'a [ModuleNode<'src>],
    menu: &mut Menu<'a>,
    module: usize,
) -> Result<(), AllocError>
    ensures { OnOk result (Gains (λ name. cond (spec.is_called modules.now name «module») (Some (Submodule «module»)) None) menu.old menu.new) }
{
    match own_name(modules, module) {
        Some(name) => menu.put(name.lexeme(), Meaning::Submodule(module)),
        None => Ok(()),
    }
}

fn put_submodules<'a, 'src>(
    modules: &'a [ModuleNode<'src>],
    menu: &mut Menu<'a>,
    submodules: &[usize],
) -> Result<(), AllocError>
    ensures { OnOk result (Gains (spec.submodule_meant modules.now submodules.now) menu.old menu.new) }
{
    for module in submodules {
        put_submodule(modules, menu, *module)?;
    }
    Ok(())
}

/// Puts the aliases of the module on the menu whose names are wanted.
fn put_aliases_of<'a>(
    table: &RecipeTable<'a>,
    wanted: &BTreeSet<&str>,
    menu: &mut Menu<'a>,
    module: usize,
) -> Result<(), AllocError>
    ensures { OnOk result (Gains (λ name. cond (spec.has_name wanted.now name) (spec.alias_meant (spec.aliases_at table.now «module») name) None) menu.old menu.new) }
{
    let aliases = table.aliases.as_slice();
    if module >= aliases.len() {
        return Ok(());
    }
    put_aliases(aliases[module].as_slice(), wanted, menu)
}

/// Puts the recipes and the aliases of the module on the menu whose names are wanted.
fn put_called<'a, 'src>(
    compilation: &'a Compilation<'src>,
    table: &RecipeTable<'a>,
    wanted: &BTreeSet<&str>,
    menu: &mut Menu<'a>,
    module: usize,
    node: &ModuleNode<'src>,
) -> Result<(), AllocError>
    ensures { OnOk result (IsByName compilation.now node.now → Gains (λ name. cond (spec.has_name wanted.now name) (spec.called_in compilation.now table.now «module» node.now name) None) menu.old menu.new) }
{
    put_recipes(compilation, table, wanted, menu, node)?;
    put_aliases_of(table, wanted, menu, module)
}

/// The names of a module, of its recipes and aliases those that are wanted.
fn menu_of<'a, 'src>(
    alloc: Global,
    compilation: &'a Compilation<'src>,
    table: &RecipeTable<'a>,
    wanted: &BTreeSet<&str>,
    module: usize,
    node: &'a ModuleNode<'src>,
) -> Result<Menu<'a>, AllocError>
    ensures { IfOk result (λ menu. IsByName compilation.now node.now → IsMenuOf compilation.now table.now (spec.has_name wanted.now) «module» node.now menu) }
{
    let mut menu: Menu<'a> = Menu::new(alloc);
    put_called(compilation, table, wanted, &mut menu, module, node)?;
    put_submodules(
        compilation.modules.as_slice(),
        &mut menu,
        node.submodules.as_slice(),
    )?;
    menu.default = default_recipe(compilation, &table.places, node);
    Ok(menu)
}

/// The names of the modules, of their recipes and aliases those that are wanted.
fn all_menus<'a, 'src>(
    alloc: Global,
    compilation: &'a Compilation<'src>,
    table: &RecipeTable<'a>,
    wanted: &BTreeSet<&str>,
) -> Result<Vec<Menu<'a>>, AllocError>
    ensures { IfOk result (λ all. AllByName compilation.now → AreMenus compilation.now table.now (spec.has_name wanted.now) compilation.now.modules.items all.items) }
{
    let modules = compilation.modules.as_slice();
    let mut all = Vec::new(alloc);
    for module in 0..modules.len() {
        all.push(menu_of(alloc, compilation, table, wanted, module, &modules[module])?)?;
    }
    Ok(all)
}

/// Whether the list is written where no words are given.
fn default_list(settings: &[Settings]) -> bool
    ensures { result ≡ spec.lists_by (slice_get settings.now 0) }
{
    match settings.first() {
        Some(settings) => settings.default_list,
        None => false,
    }
}

/// What these words may name: the recipes by their places, and of the names of each module, of which
/// these are the settings, those that stand in the words.
pub fn menus<'a, 'src>(
    alloc: Global,
    compilation: &'a Compilation<'src>,
    table: &RecipeTable<'src>,
    settings: &[Settings],
    words: &[Text],
) -> Result<Menus<'a>, AllocError>
    ensures { IfOk result (λ menus. AllByName compilation.now → spec.AreMenusOf compilation.now table.now settings.now words.now menus) }
{
    let wanted = names_in(alloc, words)?;
    let modules = all_menus(alloc, compilation, table, &wanted)?;
    let named = named_recipes(alloc, modules.as_slice())?;
    let recipes = callables(alloc, compilation, table.recipes.as_slice(), &named)?;
    Ok(Menus {
        recipes,
        modules,
        default_list: default_list(settings),
    })
}
