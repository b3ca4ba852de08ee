//! Things that have a name.
ghost use Rattle.just_text.specs.Tokens.{lexeme};

use crate::item::{Alias, Binding, FunctionDefinition};
use crate::recipe::Recipe;
use crate::set::Set;
use just_text::Name;

/// What has a name, by which it can be looked up.
pub trait Keyed {
    ghost use Rattle.std.specs.Prelude.{◌≡◌, List, ℕ};

    /// The text of the name.
    ghost key_text: { Self → List ℕ };

    /// The text of the name.
    fn key(&self) -> &str
        ensures { result.now ≡ key_text self.now };
}

impl Keyed for Name<'_> {
    ghost key_text = { λ name. lexeme name.token };

    fn key(&self) -> &str {
        self.lexeme()
    }
}

impl<T> Keyed for Alias<'_, T> {
    ghost key_text = { λ alias. lexeme alias.name.token };

    fn key(&self) -> &str {
        self.name.lexeme()
    }
}

impl<V> Keyed for Binding<'_, V> {
    ghost key_text = { λ binding. lexeme binding.name.token };

    fn key(&self) -> &str {
        self.name.lexeme()
    }
}

impl Keyed for FunctionDefinition<'_> {
    ghost key_text = { λ function. lexeme function.name.token };

    fn key(&self) -> &str {
        self.name.lexeme()
    }
}

impl Keyed for Set<'_> {
    ghost key_text = { λ setting. lexeme setting.name.token };

    fn key(&self) -> &str {
        self.name.lexeme()
    }
}

impl<D> Keyed for Recipe<'_, D> {
    ghost key_text = { λ recipe. lexeme recipe.name.token };

    fn key(&self) -> &str {
        self.name.lexeme()
    }
}
