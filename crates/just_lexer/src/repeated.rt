//! A character again and again.
ghost use Rattle.std.specs.Prelude.{replicate, Some};

use std::fmt;

/// So many spaces.
#[derive(Clone, Copy)]
pub struct Spaces(pub u128);

impl fmt::Display for Spaces {
    ghost output = { λ spaces. Some (replicate spaces.0 32) };

    fn fmt<W: fmt::Write>(&self, f: &mut fmt::Formatter<W>) -> fmt::Result {
        for _i in 0..self.0 {
            write!(f, " ")?;
        }
        Ok(())
    }
}

/// So many carets.
#[derive(Clone, Copy)]
pub struct Carets(pub u128);

impl fmt::Display for Carets {
    ghost output = { λ carets. Some (replicate carets.0 94) };

    fn fmt<W: fmt::Write>(&self, f: &mut fmt::Formatter<W>) -> fmt::Result {
        for _i in 0..self.0 {
            write!(f, "^")?;
        }
        Ok(())
    }
}
