//! Modules as they are loaded.
ghost use Rattle.std.specs.Prelude.{◌≡◌, ◌+◌, ◌++◌, ◌∷◌, [], length, OnOk};
ghost use Rattle.modules_compilation.specs.declared.module_node.ModuleNode.{ModuleNode as Node};
ghost use Rattle.modules_sources.specs.Nodes.{IsNodeOf, IsNoted};

use crate::queue::Pending;
use modules_compilation::{Compilation, ModuleNode};
use std::alloc::{AllocError, Global};

/// A module that keeps nothing yet.
fn new_node<'src>(
    alloc: Global,
    pending: &Pending<'src>,
    first_file: usize,
    end_file: usize,
) -> ModuleNode<'src>
    ensures { IsNodeOf pending.now first_file end_file result }
{
    ModuleNode {
        parent: pending.parent,
        name: pending.name,
        item: pending.item,
        source: pending.source.key,
        first_file,
        end_file,
        aliases: Vec::new(alloc),
        assignments: Vec::new(alloc),
        disabled: Vec::new(alloc),
        functions: Vec::new(alloc),
        recipes: Vec::new(alloc),
        recipe_names: Vec::new(alloc),
        sets: Vec::new(alloc),
        unexports: Vec::new(alloc),
        submodules: Vec::new(alloc),
    }
}

/// Notes the submodule at its parent.
fn note_submodule(
    compilation: &mut Compilation<'_>,
    parent: Option<usize>,
    submodule: usize,
) -> Result<(), AllocError>
    ensures as_many { OnOk result (length compilation.new.modules.items ≡ length compilation.old.modules.items) }
    ensures noted { OnOk result (IsNoted parent submodule compilation.old.modules.items compilation.new.modules.items) }
    ensures files { OnOk result (compilation.new.files ≡ compilation.old.files) }
{
    let Some(parent) = parent else {
        return Ok(());
    };
    if parent >= compilation.modules.len() {
        return Ok(());
    }
    compilation.modules[parent].submodules.push(submodule)?;
    Ok(())
}

/// Puts the module, whose files are those from the place `first_file` on, after the others, and notes
/// it at its parent.
pub fn add_node<'src>(
    alloc: Global,
    compilation: &mut Compilation<'src>,
    pending: &Pending<'src>,
    first_file: usize,
) -> Result<(), AllocError>
    ensures one_more { OnOk result (length compilation.new.modules.items ≡ length compilation.old.modules.items + 1) }
    ensures node { OnOk result ((node : Node) × IsNodeOf pending.now first_file (length compilation.old.files.items) node × IsNoted pending.now.parent (length compilation.old.modules.items) (compilation.old.modules.items ++ node ∷ []) compilation.new.modules.items) }
    ensures files { OnOk result (compilation.new.files.items ≡ compilation.old.files.items) }
{
    let place = compilation.modules.len();
    let node = new_node(alloc, pending, first_file, compilation.files.len());
    compilation.add_module(node)?;
    note_submodule(compilation, pending.parent, place)
}
