//! How many there are of something, as it is printed.
ghost use Rattle.std.specs.Prelude.{◌≡◌, ◌++◌, ◌==◌, Some, codes, if◌then◌else◌};
ghost use Rattle.std.specs.Fmt.{decimal};
ghost use Rattle.just_text.specs.Counts.{count_text};

use std::fmt;

/// A noun for so many things, with the number or without it.
#[derive(Clone, Copy, Debug)]
pub struct Count<'a> {
    number: Option<usize>,
    noun: &'a str,
    ending: &'a str,
}

impl<'a> Count<'a> {
    ghost use Rattle.just_text.specs.Counts.{counted};

    /// Prints the number, a space and the noun, with `s` unless the number is 1.
    pub fn numbered(noun: &'a str, count: usize) -> Count<'a>
        ensures { count_text result ≡ decimal count ++ codes " " ++ counted noun.now count }
    {
        Count {
            number: Some(count),
            noun,
            ending: ending(count),
        }
    }

    /// Prints the number, a space, and the singular if the number is 1, else the plural.
    pub fn numbered_irregular(singular: &'a str, plural: &'a str, count: usize) -> Count<'a>
        ensures { count_text result ≡ decimal count ++ codes " " ++ (if count == 1 then singular.now else plural.now) }
    {
        Count {
            number: Some(count),
            noun: if count == 1 { singular } else { plural },
            ending: "",
        }
    }

    /// Prints the noun alone, with `s` unless the number is 1.
    pub fn unnumbered(noun: &'a str, count: usize) -> Count<'a>
        ensures { count_text result ≡ counted noun.now count }
    {
        Count {
            number: None,
            noun,
            ending: ending(count),
        }
    }
}

/// What stands after a regular noun.
fn ending(count: usize) -> &'static str
    ensures { result.now ≡ (if count == 1 then codes "" else codes "s") }
{
    if count == 1 { "" } else { "s" }
}

impl fmt::Display for Count<'_> {
    ghost output = { λ count. Some (count_text count) };

    fn fmt<W: fmt::Write>(&self, f: &mut fmt::Formatter<W>) -> fmt::Result {
        let noun = self.noun;
        let ending = self.ending;
        match self.number {
            Some(number) => write!(f, "{number} {noun}{ending}"),
            None => write!(f, "{noun}{ending}"),
        }
    }
}
