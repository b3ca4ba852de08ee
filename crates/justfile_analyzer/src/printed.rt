//! Modules as they are printed.
ghost use Rattle.std.specs.Prelude.{◌≡◌, ◌++◌};
ghost use Rattle.std.specs.Fmt.{WritesOnOk};
ghost use Rattle.justfile_analyzer.specs.Printed as spec;

use modules_compilation::{Compilation, ModuleNode, Place};
use std::fmt;

/// Writes the item at the place after the front, and a newline after it.
fn print_item<'a, 'src, W: fmt::Write>(
    compilation: &'a Compilation<'src>,
    f: &mut fmt::Formatter<W>,
    front: &str,
    place: Place,
) -> fmt::Result
    ensures { WritesOnOk W.write_str_gives f.old result (spec.item_behind compilation.now front.now place) f.new }
{
    match compilation.item(place) {
        Some(item) => write!(f, "{front}{item}\n"),
        None => Ok(()),
    }
}

/// Writes the items at the places, each after an empty line.
fn print_others<W: fmt::Write>(
    compilation: &Compilation,
    f: &mut fmt::Formatter<W>,
    places: &[Place],
) -> fmt::Result
    ensures { WritesOnOk W.write_str_gives f.old result (spec.others_text compilation.now places.now) f.new }
{
    for place in places {
        print_item(compilation, f, "\n", *place)?;
    }
    Ok(())
}

/// Writes the items at the places, the first after the front and each other after an empty line.
fn print_items<W: fmt::Write>(
    compilation: &Compilation,
    f: &mut fmt::Formatter<W>,
    front: &str,
    places: &[Place],
) -> fmt::Result
    ensures { WritesOnOk W.write_str_gives f.old result (spec.items_text compilation.now front.now places.now) f.new }
{
    let Some((first, others)) = places.split_first() else {
        return Ok(());
    };
    print_item(compilation, f, front, *first)?;
    print_others(compilation, f, others)
}

/// An empty line, but nothing where nothing stands before it.
fn front(is_first: bool) -> &'static str
    ensures { result.now ≡ spec.front is_first }
{
    if is_first { "" } else { "\n" }
}

/// Writes the module's variables, aliases and recipes, each kind by name, with an empty line between
/// two.
pub(crate) fn print_node<W: fmt::Write>(
    compilation: &Compilation,
    f: &mut fmt::Formatter<W>,
    node: &ModuleNode,
) -> fmt::Result
    ensures { WritesOnOk W.write_str_gives f.old result (spec.node_text compilation.now node.now) f.new }
{
    let variables = node.assignments.as_slice();
    let aliases = node.aliases.as_slice();
    print_items(compilation, f, "", variables)?;
    print_items(compilation, f, front(variables.is_empty()), aliases)?;
    let is_first = variables.is_empty() && aliases.is_empty();
    print_items(compilation, f, front(is_first), node.recipes.as_slice())
}
