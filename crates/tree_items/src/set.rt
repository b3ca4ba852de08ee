//! Settings as items.
ghost use Rattle.std.specs.Prelude.{Some};
ghost use Rattle.tree_attributes.specs.Settings.{set_text};
ghost use Rattle.tree_items.specs.Items.{set_shape};

use just_text::Name;
use std::fmt;
use tree_attributes::{AttributeSet, Setting};

/// An item that gives a setting its value.
#[derive(Drop)]
pub struct Set<'src> {
    pub attributes: AttributeSet<'src>,
    pub name: Name<'src>,
    pub value: Setting<'src>,
}

impl fmt::Display for Set<'_> {
    ghost output = { λ item. Some (set_text (set_shape item)) };

    fn fmt<W: fmt::Write>(&self, f: &mut fmt::Formatter<W>) -> fmt::Result {
        let name = self.name;
        let value = &self.value;
        write!(f, "set {name} := {value}")
    }
}
