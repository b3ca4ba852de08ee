//! Lists as they are printed.
ghost use Rattle.std.specs.Prelude.{Some};

use std::fmt;
use tree_expressions::{Expression, StringLiteral};

/// Expressions, each after a comma and a space.
#[derive(Clone, Copy)]
pub struct Elements<'a, 'src>(pub &'a [Expression<'src>]);

impl fmt::Display for Elements<'_, '_> {
    ghost use Rattle.std.specs.Prelude.{map};
    ghost use Rattle.tree_expressions.specs.Shape.{shape_of};
    ghost use Rattle.tree_attributes.specs.Settings.{elements_text};

    ghost output = { λ row. Some (elements_text (map shape_of row.0.now)) };

    #[tactic(auto, using(crate::proofs::TextsInRow::texts_next))]
    fn fmt<W: fmt::Write>(&self, f: &mut fmt::Formatter<W>) -> fmt::Result {
        for expression in self.0 {
            write!(f, ", {expression}")?;
        }
        Ok(())
    }
}

/// Strings, each after a comma and a space.
#[derive(Clone, Copy)]
pub struct Strings<'a, 'src>(pub &'a [StringLiteral<'src>]);

impl fmt::Display for Strings<'_, '_> {
    ghost use Rattle.tree_attributes.specs.Attributes.{strings_text, strings_of};

    ghost output = { λ row. Some (strings_text (strings_of row.0.now)) };

    #[tactic(auto, using(crate::proofs::TextsInRow::texts_next))]
    fn fmt<W: fmt::Write>(&self, f: &mut fmt::Formatter<W>) -> fmt::Result {
        for string in self.0 {
            let text = string.token.lexeme();
            write!(f, ", {text}")?;
        }
        Ok(())
    }
}
