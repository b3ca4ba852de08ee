//! The indentation that a file sets.
ghost use Rattle.std.specs.Prelude.{◌≡◌, option_map};
ghost use Rattle.tree_items.specs.FileIndentation as spec;

use crate::ast::{Ast, Item};
use just_text::Os;
use tree_attributes::{Indentation, Setting};

impl Ast<'_> {
    /// The indentation by the file's first enabled item that sets one; which items are enabled, the
    /// operating system decides.
    pub fn indentation(&self, os: Os) -> Option<Indentation>
        ensures { option_map (λ indentation. indentation.text.now) result ≡ spec.file_indentation os self.now.items.items }
    {
        match first_indentation(&self.items, os) {
            Some(text) => Indentation::from_text(text),
            None => None,
        }
    }
}

fn first_indentation<'a>(items: &'a [Item], os: Os) -> Option<&'a str>
    ensures { option_map (λ text. text.now) result ≡ spec.first_given (spec.item_indentation os) items.now }
{
    for item in items {
        match item_indentation(item, os) {
            Some(text) => return Some(text),
            None => {}
        }
    }
    None
}

fn item_indentation<'a>(item: &'a Item, os: Os) -> Option<&'a str>
    ensures { option_map (λ text. text.now) result ≡ spec.item_indentation os item.now }
{
    let Item::Set(set) = item else {
        return None;
    };
    if set.attributes.is_enabled(os) {
        indentation_text(&set.value)
    } else {
        None
    }
}

fn indentation_text<'a>(setting: &'a Setting) -> Option<&'a str>
    ensures { option_map (λ text. text.now) result ≡ spec.indentation_text setting.now }
{
    match setting {
        Setting::Indentation(text) => Some(text.cooked.as_str()),
        _ => None,
    }
}
