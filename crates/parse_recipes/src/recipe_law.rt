//! What reading recipes and deriving them have to do with each other.
ghost use Rattle.parse_expressions.specs.Literals.{Expansion};
ghost use Rattle.parse_recipes.specs.Laws.{AtMostOneRecipe, EolsHold, PathsHold, RecipesHold};

use parse_expressions::law::law;

/// What is read is derived, and what is derived is read; words derive at most one recipe.
pub fn recipe_law()
    ensures recipes { (expansion : Expansion) → RecipesHold expansion }
    ensures paths { PathsHold }
    ensures ends { EolsHold }
    ensures one { AtMostOneRecipe }
{
    law();
}
