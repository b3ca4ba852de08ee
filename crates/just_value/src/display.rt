//! Values as they are printed.
ghost use Rattle.std.specs.Prelude.{Some, map, encode_utf8};
ghost use Rattle.std.specs.List.{flat_map};
ghost use Rattle.std.specs.String.{string_bytes};
ghost use Rattle.just_value.specs.Values.{escaped, quoted, more_quoted, value_text};

use crate::value::Value;
use std::fmt;

/// A character as it stands between double quotes.
#[derive(Clone, Copy)]
struct Escaped(char);

impl fmt::Display for Escaped {
    ghost output = { λ c. Some (flat_map escaped (encode_utf8 c.0)) };

    fn fmt<W: fmt::Write>(&self, f: &mut fmt::Formatter<W>) -> fmt::Result {
        match self.0 {
            '\t' => f.write_str("\\t"),
            '\n' => f.write_str("\\n"),
            '\r' => f.write_str("\\r"),
            '"' => f.write_str("\\\""),
            '\\' => f.write_str("\\\\"),
            other => f.write_char(other),
        }
    }
}

/// A text between double quotes.
#[derive(Clone, Copy)]
struct Quoted<'a>(&'a str);

impl fmt::Display for Quoted<'_> {
    ghost output = { λ text. Some (quoted text.0.now) };

    #[tactic(auto, using(crate::proofs::Escapes::escaped_next))]
    fn fmt<W: fmt::Write>(&self, f: &mut fmt::Formatter<W>) -> fmt::Result {
        f.write_str("\"")?;
        for character in self.0.chars() {
            let character = Escaped(character);
            write!(f, "{character}")?;
        }
        f.write_str("\"")
    }
}

/// Texts between double quotes, each after a comma and a space.
#[derive(Clone, Copy)]
struct MoreQuoted<'a>(&'a [String]);

impl fmt::Display for MoreQuoted<'_> {
    ghost output = { λ texts. Some (more_quoted (map string_bytes texts.0.now)) };

    #[tactic(auto, using(crate::proofs::TextsInRow::texts_next))]
    fn fmt<W: fmt::Write>(&self, f: &mut fmt::Formatter<W>) -> fmt::Result {
        for text in self.0 {
            let text = Quoted(text.as_str());
            write!(f, ", {text}")?;
        }
        Ok(())
    }
}

/// A single element between double quotes, any other number of them in brackets with a comma and a
/// space between two. Tabs, newlines, carriage returns, double quotes and backslashes are escaped.
impl fmt::Display for Value {
    ghost output = { λ value. Some (value_text value) };

    fn fmt<W: fmt::Write>(&self, f: &mut fmt::Formatter<W>) -> fmt::Result {
        let Some((first, others)) = self.elements().split_first() else {
            return f.write_str("[]");
        };
        let first = Quoted(first.as_str());
        if others.is_empty() {
            return write!(f, "{first}");
        }
        let others = MoreQuoted(others);
        write!(f, "[{first}{others}]")
    }
}

impl fmt::Debug for Value {
    fn fmt<W: fmt::Write>(&self, f: &mut fmt::Formatter<W>) -> fmt::Result {
        fmt::Debug::fmt(self.elements(), f)
    }
}
