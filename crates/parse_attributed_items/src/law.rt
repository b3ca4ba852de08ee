//! What reading items with attributes and deriving them have to do with each other.
ghost use Rattle.parse_attributed_items.specs.Laws.{AttributedHold, AttributedHoldOfWords};

/// What is read is derived, and what is derived is read, of tokens and of words alone.
pub fn law()
    ensures items { AttributedHold }
    ensures words { AttributedHoldOfWords }
{
    parse_attributes::law::law();
    parse_items::law::law();
    parse_items::setting_law::setting_law();
    parse_recipes::recipe_law::recipe_law();
}
