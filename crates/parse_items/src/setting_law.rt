//! What reading settings and deriving them have to do with each other.
ghost use Rattle.parse_items.specs.SettingLaws.{SetsHold, SetsHoldOfWords};

use parse_recipes::recipe_law::recipe_law;

/// What is read where a setting begins is derived, what is derived is read, and a setting is told by
/// its first words.
pub fn setting_law()
    ensures sets { SetsHold }
    ensures words { SetsHoldOfWords }
{
    parse_expressions::law::law();
    recipe_law();
}
