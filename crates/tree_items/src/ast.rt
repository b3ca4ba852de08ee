//! Whole files.
ghost use Rattle.std.specs.Prelude.{◌≡◌, ◌++◌, Some, codes};
ghost use Rattle.std.specs.Fmt.{WritesOnOk};
ghost use Rattle.tree_attributes.specs.Attributes.{attributes_text};
ghost use Rattle.tree_attributes.specs.Sets.Sets.{shapes_in};
ghost use Rattle.tree_items.specs.Files as spec;
ghost use Rattle.tree_items.specs.Printable.{printable};

use crate::item::{Alias, Assignment, FunctionDefinition, Import, Module, Unexport};
use crate::printable::are_printable;
use crate::recipe::{Recipe, UnresolvedDependency};
use crate::set::Set;
use just_text::Namepath;
use std::fmt;
use tree_attributes::{AttributeSet, ItemKind};

/// Writes attributes, one a line.
fn print_attributes<'src, W: fmt::Write>(
    attributes: &AttributeSet<'src>,
    f: &mut fmt::Formatter<W>,
) -> fmt::Result
    ensures { WritesOnOk W.write_str_gives f.old result (attributes_text (shapes_in attributes.now)) f.new }
{
    fmt::Display::fmt(attributes, f)
}

/// An item of a file.
#[derive(Drop)]
pub enum Item<'src> {
    Alias(Alias<'src, Namepath<'src>>),
    Assignment(Assignment<'src>),
    /// A comment from its `#` on, without white space at its end.
    Comment(&'src str),
    Function(FunctionDefinition<'src>),
    Import(Import<'src>),
    Module(Module<'src>),
    /// A blank line.
    Newline,
    Recipe(Recipe<'src, UnresolvedDependency<'src>>),
    Set(Set<'src>),
    Unexport(Unexport<'src>),
}

impl<'src> Item<'src> {
    /// What the item is.
    pub fn kind(&self) -> ItemKind
        ensures { result ≡ spec.kind_of (spec.item_shape self.now) }
    {
        match self {
            Item::Alias(_) => ItemKind::Alias,
            Item::Assignment(_) => ItemKind::Assignment,
            Item::Comment(_) => ItemKind::Comment,
            Item::Function(_) => ItemKind::Function,
            Item::Import(_) => ItemKind::Import,
            Item::Module(_) => ItemKind::Module,
            Item::Newline => ItemKind::Newline,
            Item::Recipe(_) => ItemKind::Recipe,
            Item::Set(_) => ItemKind::Set,
            Item::Unexport(_) => ItemKind::Unexport,
        }
    }

    /// Writes the attributes in front of the item, one a line; some items have none.
    fn print_attributes<W: fmt::Write>(&self, f: &mut fmt::Formatter<W>) -> fmt::Result
        ensures { WritesOnOk W.write_str_gives f.old result (attributes_text (spec.attributes_of (spec.item_shape self.now))) f.new }
    {
        let attributes = match self {
            Item::Alias(alias) => &alias.attributes,
            Item::Assignment(assignment) => &assignment.attributes,
            Item::Module(module) => &module.attributes,
            Item::Recipe(recipe) => &recipe.attributes,
            Item::Set(set) => &set.attributes,
            _ => return Ok(()),
        };
        print_attributes(attributes, f)
    }

    /// Writes the item after its attributes, bodies with this indentation, and no newline at its
    /// end.
    pub fn print<W: fmt::Write>(&self, f: &mut fmt::Formatter<W>, indentation: &str) -> fmt::Result
        ensures { WritesOnOk W.write_str_gives f.old result (spec.item_text indentation.now (spec.item_shape self.now)) f.new }
    {
        self.print_attributes(f)?;
        self.print_bare(f, indentation)
    }

    /// Writes the item without its attributes.
    fn print_bare<W: fmt::Write>(&self, f: &mut fmt::Formatter<W>, indentation: &str) -> fmt::Result
        ensures { WritesOnOk W.write_str_gives f.old result (spec.bare_text indentation.now (spec.item_shape self.now)) f.new }
    {
        match self {
            Item::Alias(alias) => fmt::Display::fmt(alias, f),
            Item::Assignment(assignment) => fmt::Display::fmt(assignment, f),
            Item::Comment(text) => f.write_str(text),
            Item::Function(function) => fmt::Display::fmt(function, f),
            Item::Import(import) => fmt::Display::fmt(import, f),
            Item::Module(module) => fmt::Display::fmt(module, f),
            Item::Newline => Ok(()),
            Item::Recipe(recipe) => recipe.print(f, indentation),
            Item::Set(set) => fmt::Display::fmt(set, f),
            Item::Unexport(unexport) => fmt::Display::fmt(unexport, f),
        }
    }
}

/// With an indentation of four spaces.
impl fmt::Display for Item<'_> {
    ghost output = { λ item. Some (spec.item_text (codes "    ") (spec.item_shape item)) };

    fn fmt<W: fmt::Write>(&self, f: &mut fmt::Formatter<W>) -> fmt::Result {
        self.print(f, "    ")
    }
}

/// What a file may only use where it is asked for.
#[derive(Clone, Copy, Debug, PartialEq, Eq, PartialOrd, Ord)]
pub enum UnstableFeature {
    CachedRecipes,
    DefinedFunctions,
    Lists,
}

impl fmt::Display for UnstableFeature {
    ghost output = { λ feature. Some (spec.unstable_text feature) };

    fn fmt<W: fmt::Write>(&self, f: &mut fmt::Formatter<W>) -> fmt::Result {
        f.write_str(match self {
            UnstableFeature::CachedRecipes => "[cache]",
            UnstableFeature::DefinedFunctions => "defined functions",
            UnstableFeature::Lists => "lists",
        })
    }
}

/// What a file may only use where lists are set.
#[derive(Clone, Copy, Debug, PartialEq, Eq, PartialOrd, Ord)]
pub enum ListFeature {
    Comparison,
    Concatenation,
    ConditionalWithoutElse,
    Literal,
    Not,
    StarredArgument,
}

impl fmt::Display for ListFeature {
    ghost output = { λ feature. Some (spec.list_text feature) };

    fn fmt<W: fmt::Write>(&self, f: &mut fmt::Formatter<W>) -> fmt::Result {
        f.write_str(match self {
            ListFeature::Comparison => "comparison",
            ListFeature::Concatenation => "++",
            ListFeature::ConditionalWithoutElse => "if without else",
            ListFeature::Literal => "list literal",
            ListFeature::Not => "!",
            ListFeature::StarredArgument => "starred argument",
        })
    }
}

/// A file: its items in order, and the features that it uses.
pub struct Ast<'src> {
    pub items: Vec<Item<'src>>,
    pub unstable_features: Vec<UnstableFeature>,
}

impl Drop for Ast<'_> {
    fn drop(self) {
        let Ast {
            items: _items,
            unstable_features: _unstable_features,
        } = self;
    }
}

/// Blank lines, two at most.
fn blank_lines(count: usize) -> &'static str
    ensures { result.now ≡ spec.blank_lines count }
{
    if count == 0 {
        ""
    } else if count == 1 {
        "\n"
    } else {
        "\n\n"
    }
}

/// Writes an item after blank lines, and a newline after it.
fn print_behind<'src, W: fmt::Write>(
    item: &Item<'src>,
    f: &mut fmt::Formatter<W>,
    blank: usize,
    indentation: &str,
) -> fmt::Result
    ensures { WritesOnOk W.write_str_gives f.old result (spec.text_behind indentation.now blank (spec.item_shape item.now)) f.new }
{
    f.write_str(blank_lines(blank))?;
    item.print(f, indentation)?;
    f.write_str("\n")
}

impl Ast<'_> {
    /// Writes the file, bodies with this indentation. Between items and at the start, a run of blank
    /// lines is cut to two; after the last item there is one newline.
    pub fn print<W: fmt::Write>(&self, f: &mut fmt::Formatter<W>, indentation: &str) -> fmt::Result
        ensures { WritesOnOk W.write_str_gives f.old result (spec.file_text indentation.now (spec.item_shapes self.now.items.items)) f.new }
    {
        let mut blank = 0;
        for item in &self.items {
            if is_blank(item) {
                blank += 1;
            } else {
                print_behind(item, f, blank, indentation)?;
                blank = 0;
            }
        }
        Ok(())
    }

    /// Whether the file's printed text is read as the file was: no body line ends in a carriage return,
    /// and no argument or parameter that begins with the name `else` follows a conditional that would
    /// take it, as one that was in braces after an `else` would.
    pub fn printable(&self) -> bool
        ensures { result ≡ printable (spec.item_shapes self.now.items.items) }
    {
        are_printable(self.items.as_slice())
    }
}

fn is_blank(item: &Item) -> bool
    ensures { result ≡ spec.is_blank (spec.item_shape item.now) }
{
    match item {
        Item::Newline => true,
        _ => false,
    }
}

/// With an indentation of four spaces.
impl fmt::Display for Ast<'_> {
    ghost output = { λ ast. Some (spec.file_text (codes "    ") (spec.item_shapes ast.items.items)) };

    fn fmt<W: fmt::Write>(&self, f: &mut fmt::Formatter<W>) -> fmt::Result {
        self.print(f, "    ")
    }
}
