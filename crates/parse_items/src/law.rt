//! What reading items and deriving them have to do with each other.
ghost use Rattle.parse_items.specs.Laws.{ItemsHold, ItemsHoldOfWords};

use parse_recipes::recipe_law::recipe_law;

/// What is read is derived, what is derived is read, and a recipe is told from all other items by
/// its first words.
pub fn law()
    ensures items { ItemsHold }
    ensures words { ItemsHoldOfWords }
{
    parse_expressions::law::law();
    recipe_law();
}
