//! Items of all kinds, without their attributes.
ghost use Rattle.std.specs.Prelude.{◌≢◌, IfOk};
ghost use Rattle.just_text.specs.Numbers.{Numbers};
ghost use Rattle.just_text.specs.Tokens.{word_of};
ghost use Rattle.tree_attributes.specs.declared.item_kind.ItemKind.TheVariants as kinds;
ghost use Rattle.parse_expressions.specs.Origins.{origin_of};
ghost use Rattle.parse_expressions.specs.Reading.{Gives, ahead};
ghost use Rattle.parse_recipes.specs.Numbering.{AreUsed, GivesUnless, IsFrugal};
ghost use Rattle.semver.specs.declared.Version.{Version as SemanticVersion};
ghost use Rattle.parse_attributed_items.specs.Bare.{bare_of};
ghost use Rattle.parse_attributed_items.specs.Held.{IsItemNumbered};
ghost use Rattle.parse_attributed_items.specs.Plain.{IsBareCooked, IsBareTree};
ghost use Rattle.parse_attributed_items.specs.Seen.{read_of};

use just_text::{Expander, Numerator};
use parse_expressions::{Context, Cursor, Fault};
use parse_items::item::item;
use parse_items::set::set;
use parse_recipes::recipe::recipe;
use parse_recipes::recipe_law::recipe_law;
use semver::Version;
use std::alloc::Global;
use tree_attributes::ItemKind;
use tree_items::Item;

/// An item, and how many blank lines after its body belong to the file.
#[derive(Drop)]
pub struct ItemRead<'src> {
    pub item: Item<'src>,
    /// Those after the body of a recipe; none after other items.
    pub blank_lines: usize,
}

/// A recipe. The names of its parameters differ.
#[tactic(auto, unfolding(crate::specs::Bare::bare_of))]
fn bare_recipe<'src, E: Expander>(
    alloc: Global,
    cursor: &mut Cursor<'_, 'src>,
    context: &Context<'_, 'src, E>,
    numerator: &mut Numerator,
) -> Result<ItemRead<'src>, Fault<'src>>
    ensures gives { (current : SemanticVersion) → GivesUnless (AreUsed numerator.new) (λ r. (read_of r, ahead cursor.new)) result (bare_of word_of (E.expansion context.now.expander.now) current kinds.Recipe (ahead cursor.old)) }
    ensures numbers { IfOk result (λ r. IsItemNumbered numerator.old numerator.new r.item) }
    ensures frugal { IsFrugal (ahead cursor.old) numerator.old numerator.new }
    ensures plain { IfOk result (λ r. IsBareTree r.item) }
    ensures cooked { IfOk result (λ r. IsBareCooked (origin_of E.expansion context.now) r.item) }
{
    recipe_law();
    let read = recipe(alloc, cursor, context, numerator)?;
    Ok(ItemRead {
        item: Item::Recipe(read.recipe),
        blank_lines: read.blank_lines,
    })
}

/// A setting.
#[tactic(auto, unfolding(crate::specs::Bare::bare_of))]
fn bare_set<'src, E: Expander>(
    alloc: Global,
    cursor: &mut Cursor<'_, 'src>,
    context: &Context<'_, 'src, E>,
    current: &Version,
) -> Result<ItemRead<'src>, Fault<'src>>
    ensures gives { Gives (λ r. (read_of r, ahead cursor.new)) result (bare_of word_of (E.expansion context.now.expander.now) current.now kinds.Set (ahead cursor.old)) }
    ensures plain { IfOk result (λ r. IsBareTree r.item) }
    ensures cooked { IfOk result (λ r. IsBareCooked (origin_of E.expansion context.now) r.item) }
    ensures numbers { (numbers : Numbers) → IfOk result (λ r. IsItemNumbered numbers numbers r.item) }
{
    let set = set(alloc, cursor, context, current)?;
    Ok(ItemRead {
        item: Item::Set(set),
        blank_lines: 0,
    })
}

/// An item of that kind, which is neither a recipe nor a setting.
#[tactic(auto, unfolding(crate::specs::Bare::bare_of))]
fn other<'src, E: Expander>(
    alloc: Global,
    cursor: &mut Cursor<'_, 'src>,
    context: &Context<'_, 'src, E>,
    numerator: &mut Numerator,
    kind: ItemKind,
) -> Result<ItemRead<'src>, Fault<'src>>
    ensures gives { (current : SemanticVersion) → kind ≢ kinds.Recipe → kind ≢ kinds.Set → GivesUnless (AreUsed numerator.new) (λ r. (read_of r, ahead cursor.new)) result (bare_of word_of (E.expansion context.now.expander.now) current kind (ahead cursor.old)) }
    ensures numbers { IfOk result (λ r. IsItemNumbered numerator.old numerator.new r.item) }
    ensures frugal { IsFrugal (ahead cursor.old) numerator.old numerator.new }
    ensures plain { IfOk result (λ r. IsBareTree r.item) }
    ensures cooked { IfOk result (λ r. IsBareCooked (origin_of E.expansion context.now) r.item) }
{
    let item = item(alloc, cursor, context, numerator, kind)?;
    Ok(ItemRead {
        item,
        blank_lines: 0,
    })
}

/// The item of that kind that stands here, without its attributes.
///
/// Refused where no such item stands here, and where numbers or memory run out. After a refusal it
/// is not said where the cursor stands; no more numbers of a kind were used than there were tokens.
pub(crate) fn bare_item<'src, E: Expander>(
    alloc: Global,
    cursor: &mut Cursor<'_, 'src>,
    context: &Context<'_, 'src, E>,
    numerator: &mut Numerator,
    current: &Version,
    kind: ItemKind,
) -> Result<ItemRead<'src>, Fault<'src>>
    ensures gives { GivesUnless (AreUsed numerator.new) (λ r. (read_of r, ahead cursor.new)) result (bare_of word_of (E.expansion context.now.expander.now) current.now kind (ahead cursor.old)) }
    ensures numbers { IfOk result (λ r. IsItemNumbered numerator.old numerator.new r.item) }
    ensures frugal { IsFrugal (ahead cursor.old) numerator.old numerator.new }
    ensures plain { IfOk result (λ r. IsBareTree r.item) }
    ensures cooked { IfOk result (λ r. IsBareCooked (origin_of E.expansion context.now) r.item) }
{
    match kind {
        ItemKind::Recipe => bare_recipe(alloc, cursor, context, numerator),
        ItemKind::Set => bare_set(alloc, cursor, context, current),
        kind => other(alloc, cursor, context, numerator, kind),
    }
}
