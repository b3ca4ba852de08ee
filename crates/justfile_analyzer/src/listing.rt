//! The list of recipes.
ghost use Rattle.std.specs.Prelude.{◌≡◌, ◌++◌, IfOk, OnOk, map, option_map};
ghost use Rattle.std.specs.List.{flat_map};
ghost use Rattle.std.specs.String.{string_bytes};
ghost use Rattle.modules_compilation.specs.Places.{item_at};
ghost use Rattle.justfile_analyzer.specs.Listings as spec;
ghost use Rattle.justfile_analyzer.specs.Offers.{lent, module_name};

use crate::offered::{RecipeRef, module_name, public_modules, public_recipes};
use crate::padding::push_spaces;
use modules_compilation::{Compilation, Place};
use std::alloc::{AllocError, Global};
use tree_attributes::{Attribute, AttributeKind};
use tree_items::{Item, Recipe, UnresolvedDependency};
use unicode_width::UnicodeWidthStr;

/// The widest column of signatures.
const WIDEST: usize = 50;

/// A recipe of the list.
#[derive(Drop)]
struct Row<'a> {
    signature: String,
    doc: Option<&'a str>,
}

/// The text of a comment without its mark.
fn comment_text(comment: &str) -> &str
    ensures { result.now ≡ spec.comment_text comment.now }
{
    comment.strip_prefix("#").unwrap_or(comment).trim()
}

/// The comment directly above the item at the place.
fn comment_above<'a, 'src>(compilation: &'a Compilation<'src>, place: Place) -> Option<&'a str>
    ensures { option_map (λ text. text.now) result ≡ spec.comment_above compilation.now place }
{
    if place.item == 0 {
        return None;
    }
    let above = Place {
        file: place.file,
        item: place.item - 1,
    };
    match compilation.item(above) {
        Some(Item::Comment(text)) => Some(comment_text(text)),
        _ => None,
    }
}

/// What is said of the recipe: by its attribute, else by the comment directly above it.
fn doc<'a, 'src>(
    compilation: &'a Compilation<'src>,
    place: Place,
    recipe: &'a Recipe<'src, UnresolvedDependency<'src>>,
) -> Option<&'a str>
    ensures { option_map (λ text. text.now) result ≡ spec.doc compilation.now place recipe.now }
{
    match recipe.attributes.get(AttributeKind::Doc) {
        Some(Attribute::Doc(Some(text))) => Some(text.cooked.as_str()),
        Some(_) => None,
        None => comment_above(compilation, place),
    }
}

/// The recipe of the list.
fn row_of<'a, 'src>(
    alloc: Global,
    compilation: &'a Compilation<'src>,
    recipe: RecipeRef<'a, 'src>,
) -> Result<Row<'a>, AllocError>
    ensures { IfOk result (λ row. spec.listed row ≡ spec.listed_recipe compilation.now (lent recipe.entry)) }
{
    let signature = recipe.recipe.signature().to_string(alloc)?;
    Ok(Row {
        signature,
        doc: doc(compilation, recipe.place, recipe.recipe),
    })
}

fn rows<'a, 'src>(
    alloc: Global,
    compilation: &'a Compilation<'src>,
    recipes: &[RecipeRef<'a, 'src>],
) -> Result<Vec<Row<'a>>, AllocError>
    ensures { IfOk result (λ rows. map spec.listed rows.items ≡ map (spec.listed_recipe compilation.now) (map lent recipes.now)) }
{
    let mut rows = Vec::new(alloc);
    for recipe in recipes {
        rows.push(row_of(alloc, compilation, *recipe)?)?;
    }
    Ok(rows)
}

/// How many columns the signature takes, none where it is too wide.
fn counted(signature: &str) -> usize
    ensures { result ≡ spec.counted signature.now }
{
    let width = signature.width();
    if width <= WIDEST { width } else { 0 }
}

/// The greatest width of the signatures that are not too wide.
fn column(rows: &[Row]) -> usize
    ensures { result ≡ spec.column (map spec.listed rows.now) }
{
    let mut column = 0;
    for row in rows {
        column = counted(row.signature.as_str()).max(column);
    }
    column
}

/// Puts what is said of a recipe after the text, after so many spaces.
fn push_doc(text: &mut String, spaces: usize, doc: Option<&str>) -> Result<(), AllocError>
    ensures { OnOk result (string_bytes text.new ≡ string_bytes text.old ++ spec.doc_text spaces (option_map (λ doc. doc.now) doc.entry)) }
{
    let Some(doc) = doc else {
        return Ok(());
    };
    push_spaces(text, spaces)?;
    text.push_str(" # ")?;
    text.push_str(doc)
}

/// Puts the recipe's line after the text.
fn push_row(text: &mut String, column: usize, row: &Row) -> Result<(), AllocError>
    ensures { OnOk result (string_bytes text.new ≡ string_bytes text.old ++ spec.recipe_line column (spec.listed row.now)) }
{
    let signature = row.signature.as_str();
    text.push_str("    ")?;
    text.push_str(signature)?;
    push_doc(text, column.saturating_sub(signature.width()), row.doc)?;
    text.push('\n')
}

/// Puts a line for each recipe after the text.
fn push_rows(text: &mut String, rows: &[Row]) -> Result<(), AllocError>
    ensures { OnOk result (string_bytes text.new ≡ string_bytes text.old ++ spec.recipe_lines (map spec.listed rows.now)) }
{
    let column = column(rows);
    for row in rows {
        push_row(text, column, row)?;
    }
    Ok(())
}

/// Puts the line of the submodule with this name after the text.
fn push_module(text: &mut String, name: &str) -> Result<(), AllocError>
    ensures { OnOk result (string_bytes text.new ≡ string_bytes text.old ++ spec.module_line name.now) }
{
    text.push_str("    ")?;
    text.push_str(name)?;
    text.push_str(" ...\n")
}

/// Puts a line for each submodule of these names after the text.
fn push_modules(text: &mut String, names: &[&str]) -> Result<(), AllocError>
    ensures { OnOk result (string_bytes text.new ≡ string_bytes text.old ++ spec.module_lines (map (λ name. name.now) names.now)) }
{
    for name in names {
        push_module(text, name)?;
    }
    Ok(())
}

/// The rows of these recipes.
fn rows_of<'a, 'src>(
    alloc: Global,
    compilation: &'a Compilation<'src>,
    recipes: Vec<RecipeRef<'a, 'src>>,
) -> Result<Vec<Row<'a>>, AllocError>
    ensures { IfOk result (λ rows. map spec.listed rows.items ≡ map (spec.listed_recipe compilation.now) (map lent recipes.entry.items)) }
{
    rows(alloc, compilation, recipes.as_slice())
}

/// The recipes of the list.
fn module_rows<'a, 'src>(
    alloc: Global,
    compilation: &'a Compilation<'src>,
    module: usize,
) -> Result<Vec<Row<'a>>, AllocError>
    ensures { IfOk result (λ rows. map spec.listed rows.items ≡ spec.listed_recipes compilation.now «module») }
{
    let recipes = public_recipes(alloc, compilation, module)?;
    rows_of(alloc, compilation, recipes)
}

/// The names of these modules.
fn names<'a, 'src>(
    alloc: Global,
    compilation: &'a Compilation<'src>,
    modules: &[usize],
) -> Result<Vec<&'src str>, AllocError>
    ensures { IfOk result (λ names. map (λ name. name.now) names.items ≡ map (module_name compilation.now) modules.now) }
{
    let mut names = Vec::new(alloc);
    for module in modules {
        names.push(module_name(compilation, *module))?;
    }
    Ok(names)
}

/// The names of the submodules of the list.
fn module_names<'a, 'src>(
    alloc: Global,
    compilation: &'a Compilation<'src>,
    module: usize,
) -> Result<Vec<&'src str>, AllocError>
    ensures { IfOk result (λ names. map (λ name. name.now) names.items ≡ spec.listed_modules compilation.now «module») }
{
    let modules = public_modules(alloc, compilation, module)?;
    names(alloc, compilation, modules.as_slice())
}

/// The list of these recipes and submodules.
fn text_of(alloc: Global, rows: &[Row], names: &[&str]) -> Result<String, AllocError>
    ensures { IfOk result (λ text. string_bytes text ≡ spec.listing_text (map spec.listed rows.now) (map (λ name. name.now) names.now)) }
{
    let mut text = String::from_str(alloc, "Available recipes:\n")?;
    push_rows(&mut text, rows)?;
    push_modules(&mut text, names)?;
    Ok(text)
}

/// The list of the recipes of the module at this place that are not private, each with what is said
/// of it, and of its submodules that are not private.
pub(crate) fn listing_of(
    alloc: Global,
    compilation: &Compilation,
    module: usize,
) -> Result<String, AllocError>
    ensures { IfOk result (λ text. string_bytes text ≡ spec.listing compilation.now «module») }
{
    let rows = module_rows(alloc, compilation, module)?;
    let names = module_names(alloc, compilation, module)?;
    text_of(alloc, rows.as_slice(), names.as_slice())
}
