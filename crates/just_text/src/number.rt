//! Numbers of bindings and of recipes.
ghost use Rattle.std.specs.Prelude.{◌≡◌, ◌+◌, ◌^◌, ◌<◌, ◌≤◌, ◌↔◌, IfOk, OnErr, IfErr, IsOk};
ghost use Rattle.just_text.specs.declared.compile_error.CompileErrorKind.TheVariants.{NumbersUsed};

use crate::compile_error::CompileErrorKind;
use std::marker::Model;

/// What tells one binding from all others, or one recipe from all others.
#[derive(Clone, Copy, Debug, PartialEq, Eq, PartialOrd, Ord)]
pub struct Number {
    value: u32,
}

impl Model for Number {
    ghost use Rattle.std.specs.Prelude.{ℕ};

    ghost Value = { ℕ };

    ghost view = { λ n. n.value };

    ghost inverse = { λ n. record { value = n } };
}

/// Hands out each number once: first to the constants, which are bindings too, then to other
/// bindings as they come; recipes are numbered apart.
#[derive(Debug, Drop)]
pub struct Numerator {
    constants: u32,
    bindings: u64,
    recipes: u64,
}

impl Model for Numerator {
    ghost use Rattle.just_text.specs.Numbers.{Numbers};

    ghost Value = { Numbers };

    ghost view = { λ n. record { constants = n.constants; bindings = n.bindings; recipes = n.recipes } };

    ghost use Rattle.std.specs.Prelude.{ℕ, ◌≤◌, ◌^◌};

    ghost invariant = { λ n. (n.bindings ≤ 2 ^ 32) × (n.recipes ≤ 2 ^ 32) };
}

impl Numerator {
    /// With so many constants, which have the first numbers.
    pub fn new(constants: u32) -> Numerator
        ensures { result ≡ record { constants = constants; bindings = constants; recipes = 0 } }
    {
        Numerator {
            constants,
            bindings: u64::from(constants),
            recipes: 0,
        }
    }

    /// The number of the constant at this place.
    pub fn constant(&self, index: u32) -> Number
        requires { index < self.now.constants }
        ensures { result ≡ index }
    {
        Number { value: index }
    }

    /// The next binding's number, above those before it. Refused only where no 32-bit number is
    /// left, and nothing is changed then.
    pub fn next_binding(&mut self) -> Result<Number, CompileErrorKind>
        ensures ok { IfOk result (λ n. (n ≡ self.old.bindings) × (self.new ≡ record self.old { bindings = self.old.bindings + 1 })) }
        ensures err { IfErr result (λ e. (e ≡ NumbersUsed) × (self.old.bindings ≡ 2 ^ 32) × (self.new ≡ self.old)) }
    {
        match u32::try_from(self.bindings) {
            Ok(value) => {
                self.bindings += 1;
                Ok(Number { value })
            }
            Err(_) => Err(CompileErrorKind::NumbersUsed),
        }
    }

    /// The next recipe's number, above those before it. Refused only where no 32-bit number is
    /// left, and nothing is changed then.
    pub fn next_recipe(&mut self) -> Result<Number, CompileErrorKind>
        ensures ok { IfOk result (λ n. (n ≡ self.old.recipes) × (self.new ≡ record self.old { recipes = self.old.recipes + 1 })) }
        ensures err { IfErr result (λ e. (e ≡ NumbersUsed) × (self.old.recipes ≡ 2 ^ 32) × (self.new ≡ self.old)) }
    {
        match u32::try_from(self.recipes) {
            Ok(value) => {
                self.recipes += 1;
                Ok(Number { value })
            }
            Err(_) => Err(CompileErrorKind::NumbersUsed),
        }
    }
}
