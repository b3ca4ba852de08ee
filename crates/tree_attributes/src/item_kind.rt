//! What items are.
ghost use Rattle.std.specs.Prelude.{Some};
ghost use Rattle.tree_attributes.specs.Sets.Kinds as spec;

use std::fmt;

/// What an item is.
#[derive(Clone, Copy, Debug, PartialEq, Eq, PartialOrd, Ord)]
pub enum ItemKind {
    Alias,
    Assignment,
    Comment,
    Function,
    Import,
    Module,
    Newline,
    Recipe,
    Set,
    Unexport,
}

impl fmt::Display for ItemKind {
    ghost output = { λ kind. Some (spec.kind_text kind) };

    fn fmt<W: fmt::Write>(&self, f: &mut fmt::Formatter<W>) -> fmt::Result {
        f.write_str(match self {
            ItemKind::Alias => "alias",
            ItemKind::Assignment => "assignment",
            ItemKind::Comment => "comment",
            ItemKind::Function => "function",
            ItemKind::Import => "import",
            ItemKind::Module => "module",
            ItemKind::Newline => "newline",
            ItemKind::Recipe => "recipe",
            ItemKind::Set => "setting",
            ItemKind::Unexport => "unexport",
        })
    }
}
