//! Indentations of bodies.
ghost use Rattle.std.specs.Prelude.{◌≡◌, true, false, codes, MatchOption, Some};
ghost use Rattle.tree_attributes.specs.Sets.Indentations.{is_indentation};

use std::fmt;
use std::str::FromStr;

/// What stands in front of the lines of a printed body: one tab, or one to eight spaces.
#[derive(Clone, Copy, Debug, PartialEq, Eq)]
pub struct Indentation {
    text: &'static str,
    ghost form: { is_indentation text.now ≡ true },
}

impl Indentation {
    /// The indentation that the text is, if it is one tab or one to eight spaces.
    pub fn from_text(text: &str) -> Option<Indentation>
        ensures { MatchOption result (is_indentation text.now ≡ false) (λ indentation. indentation.text.now ≡ text.now) }
    {
        let text = match text {
            "\t" => "\t",
            " " => " ",
            "  " => "  ",
            "   " => "   ",
            "    " => "    ",
            "     " => "     ",
            "      " => "      ",
            "       " => "       ",
            "        " => "        ",
            _ => return None,
        };
        Some(Indentation { text })
    }

    /// The tab or the spaces.
    pub fn as_str(self) -> &'static str
        ensures text { result.now ≡ self.text.now }
        ensures form { is_indentation result.now ≡ true }
    {
        self.text
    }
}

/// A text that is no indentation.
#[derive(Clone, Copy, Debug, PartialEq, Eq)]
pub struct InvalidIndentation;

impl fmt::Display for InvalidIndentation {
    ghost output = { λ _. Some (codes "an indentation is one tab, or one to eight spaces") };

    fn fmt<W: fmt::Write>(&self, f: &mut fmt::Formatter<W>) -> fmt::Result {
        f.write_str("an indentation is one tab, or one to eight spaces")
    }
}

/// Takes what `from_text` takes.
impl FromStr for Indentation {
    type Err = InvalidIndentation;

    ghost use Rattle.std.specs.Prelude.{IfErr, IfOk};

    ghost from_str_gives = { λ text result. IfOk result (λ indentation. indentation.text.now ≡ text) × IfErr result (λ _. is_indentation text ≡ false) };

    fn from_str(text: &str) -> Result<Indentation, InvalidIndentation> {
        match Indentation::from_text(text) {
            Some(indentation) => Ok(indentation),
            None => Err(InvalidIndentation),
        }
    }
}

/// Four spaces.
impl Default for Indentation {
    fn default() -> Indentation
        ensures { result.text.now ≡ codes "    " }
    {
        Indentation { text: "    " }
    }
}

impl fmt::Display for Indentation {
    ghost output = { λ indentation. Some indentation.text.now };

    fn fmt<W: fmt::Write>(&self, f: &mut fmt::Formatter<W>) -> fmt::Result {
        f.write_str(self.text)
    }
}
