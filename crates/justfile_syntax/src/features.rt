//! The features of a file that must be asked for.
ghost use Rattle.std.specs.Prelude.{◌≡◌, IfOk};
ghost use Rattle.std.specs.List.{list_any};
ghost use Rattle.tree_items.specs.Files.{item_shape, item_shapes};
ghost use Rattle.justfile_syntax.specs.Features.{features_of, is_cached, is_function, sets_lists};

use std::alloc::{AllocError, Global};
use tree_attributes::AttributeKind;
use tree_items::{Item, UnstableFeature};

/// Whether the item is a recipe with `[cache]`.
#[tactic(auto, using(crate::proofs::AnyShape::any_shape))]
fn is_cached(item: &Item) -> bool
    ensures { result ≡ is_cached (item_shape item.now) }
{
    match item {
        Item::Recipe(recipe) => recipe.attributes.contains(AttributeKind::Cache),
        _ => false,
    }
}

/// Whether the item is a function.
fn is_function(item: &Item) -> bool
    ensures { result ≡ is_function (item_shape item.now) }
{
    match item {
        Item::Function(_) => true,
        _ => false,
    }
}

/// Whether the item is the setting of lists, whatever its value.
fn sets_lists(item: &Item) -> bool
    ensures { result ≡ sets_lists (item_shape item.now) }
{
    match item {
        Item::Set(set) => set.name.lexeme() == "lists",
        _ => false,
    }
}

fn any_cached(items: &[Item]) -> bool
    ensures { result ≡ list_any (λ item. is_cached (item_shape item)) items.now }
{
    items.iter().any(|item| is_cached(item))
}

fn any_function(items: &[Item]) -> bool
    ensures { result ≡ list_any (λ item. is_function (item_shape item)) items.now }
{
    items.iter().any(|item| is_function(item))
}

fn any_lists(items: &[Item]) -> bool
    ensures { result ≡ list_any (λ item. sets_lists (item_shape item)) items.now }
{
    items.iter().any(|item| sets_lists(item))
}

/// The features that a file with these items uses, each once.
#[tactic(auto, using(crate::proofs::AnyShape::any_shape))]
pub(crate) fn features(alloc: Global, items: &[Item]) -> Result<Vec<UnstableFeature>, AllocError>
    ensures { IfOk result (λ features. features.items ≡ features_of (item_shapes items.now)) }
{
    let mut features = Vec::new(alloc);
    if any_cached(items) {
        features.push(UnstableFeature::CachedRecipes)?;
    }
    if any_function(items) {
        features.push(UnstableFeature::DefinedFunctions)?;
    }
    if any_lists(items) {
        features.push(UnstableFeature::Lists)?;
    }
    Ok(features)
}
