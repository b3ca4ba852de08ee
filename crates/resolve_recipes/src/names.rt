//! The recipe that runs where none is named.
ghost use Rattle.std.specs.Prelude.{◌≡◌, filter, if◌then◌else◌, nat_eq};
ghost use Rattle.std.specs.Option.{option_and_then};
ghost use Rattle.resolve_recipes.specs.Defaults as spec;
ghost use Rattle.resolve_recipes.specs.Nodes.{recipe_at};
ghost use Rattle.resolve_recipes.specs.Standing.{place_in};

use crate::item_places::ItemPlaces;
use modules_compilation::{Compilation, ModuleNode, Place};
use tree_attributes::AttributeKind;

/// Whether a recipe with the attribute `default` stands at the place.
fn is_default(compilation: &Compilation, place: Place) -> bool
    ensures { result ≡ spec.has_default (recipe_at compilation.now place) }
{
    match compilation.recipe(place) {
        Some(recipe) => recipe.attributes.contains(AttributeKind::Default),
        None => false,
    }
}

/// Whether the place is the other one, or comes before it in reading order.
fn is_no_later(place: Place, other: Place) -> bool
    ensures { result ≡ spec.is_no_later place other }
{
    place.file < other.file || place.file == other.file && place.item <= other.item
}

/// The earlier of the two places.
fn earlier(found: Option<Place>, place: Place) -> Option<Place>
    ensures { result ≡ spec.earlier found place }
{
    match found {
        Some(found) if is_no_later(found, place) => Some(found),
        _ => Some(place),
    }
}

/// The earlier of the two places, where the second counts.
fn earlier_if(counts: bool, found: Option<Place>, place: Place) -> Option<Place>
    ensures { result ≡ (if counts then spec.earlier found place else found) }
{
    if counts { earlier(found, place) } else { found }
}

/// The earliest of the places at which a recipe with the attribute `default` stands.
fn first_marked(compilation: &Compilation, places: &[Place]) -> Option<Place>
    ensures { result ≡ spec.earliest (filter (λ item. spec.has_default (recipe_at compilation.now item)) places.now) }
{
    let mut first = None;
    for place in places {
        first = earlier_if(is_default(compilation, *place), first, *place);
    }
    first
}

/// The earliest of the places in the file.
fn first_of_file(places: &[Place], file: usize) -> Option<Place>
    ensures { result ≡ spec.earliest (filter (λ item. nat_eq item.file file) places.now) }
{
    let mut first = None;
    for place in places {
        first = earlier_if(place.file == file, first, *place);
    }
    first
}

/// Where the recipe stands that runs where none is named in the module, if there is one.
fn default_place(compilation: &Compilation, node: &ModuleNode) -> Option<Place>
    ensures { result ≡ spec.default_of compilation.now node.now }
{
    let places = node.recipes.as_slice();
    match first_marked(compilation, places) {
        Some(place) => Some(place),
        None => first_of_file(places, node.first_file),
    }
}

/// The recipe that runs where none is named in the module, by the ranks of recipes by where they
/// stand: the first with the attribute `default` in reading order, else the first of the module's own
/// file.
pub fn default_recipe(
    compilation: &Compilation,
    ranks: &ItemPlaces,
    node: &ModuleNode,
) -> Option<usize>
    ensures { result ≡ option_and_then (place_in ranks.now) (spec.default_of compilation.now node.now) }
{
    let place = default_place(compilation, node)?;
    ranks.get(place)
}
