//! What compiling makes of files, in words: what each module keeps, or the refusal and its place.
use crate::files::Unchanged;
use just_host::Config;
use just_modules::{Compilation, Compiler, Error, ModuleNode, Modulepath, Place};
use std::alloc::{AllocError, Global};
use std::collections::BTreeMap;

/// The item's name with its file and line, if it has one.
fn tell_place(compilation: &Compilation, out: &mut String, place: Place) -> Result<(), AllocError> {
    if let Some(name) = compilation.name(place) {
        let line = name.token.line.saturating_add(1);
        write!(out, " {name}@{}:{line}", name.token.path)?;
    }
    Ok(())
}

/// The word, and after it the names of the items with their files and lines, if there are any.
fn tell_places(
    compilation: &Compilation,
    out: &mut String,
    word: &str,
    places: &[Place],
) -> Result<(), AllocError> {
    if !places.is_empty() {
        write!(out, " {word}")?;
    }
    for place in places {
        tell_place(compilation, out, *place)?;
    }
    Ok(())
}

/// The module's settings and variables, and the names that it takes back.
fn tell_others(
    compilation: &Compilation,
    out: &mut String,
    node: &ModuleNode,
) -> Result<(), AllocError> {
    tell_places(compilation, out, "sets", node.sets.as_slice())?;
    tell_places(compilation, out, "variables", node.assignments.as_slice())?;
    for name in &node.unexports {
        write!(out, " unexport {name}")?;
    }
    Ok(())
}

/// The module's path, and all that it keeps.
fn tell_module(
    compilation: &Compilation,
    out: &mut String,
    module: usize,
    node: &ModuleNode,
) -> Result<(), AllocError> {
    let modules = compilation.modules.as_slice();
    let path = Modulepath::of_module(*out.allocator(), modules, module)?;
    write!(out, "[{path}]")?;
    tell_places(compilation, out, "aliases", node.aliases.as_slice())?;
    tell_places(compilation, out, "disabled", node.disabled.as_slice())?;
    tell_places(compilation, out, "functions", node.functions.as_slice())?;
    tell_places(compilation, out, "recipes", node.recipes.as_slice())?;
    tell_others(compilation, out, node)
}

/// The module, and all below it.
fn tell_modules(compilation: &Compilation, out: &mut String) -> Result<(), AllocError> {
    let mut open = Vec::new(*out.allocator());
    open.push(0usize)?;
    for _ in 0..compilation.modules.len() {
        let Some(module) = open.pop() else {
            return Ok(());
        };
        if let Some(node) = compilation.module(module) {
            tell_module(compilation, out, module, node)?;
            for submodule in node.submodules.iter().rev() {
                open.push(*submodule)?;
            }
        }
    }
    Ok(())
}

/// The refusal, and its place.
fn tell_error(out: &mut String, error: &Error) -> Result<(), AllocError> {
    write!(out, "{error}")?;
    if let Some(token) = error.place() {
        let line = token.line.saturating_add(1);
        let column = token.column.saturating_add(1);
        write!(out, " at {}:{line}:{column} {}", token.path, token.lexeme())?;
    }
    Ok(())
}

/// The modules of what was compiled, told after `out`. It doesn't change them: what a function owns is
/// borrowed so, as borrowing it to be read takes the check too many steps.
fn tell_lent(compilation: &mut Compilation, out: &mut String) -> Result<(), AllocError> {
    tell_modules(&*compilation, out)
}

/// The same of what is handed over.
fn tell_handed<'src>(
    mut compilation: Compilation<'src>,
    out: &mut String,
) -> Result<(), AllocError> {
    tell_lent(&mut compilation, out)
}

/// What is made of the files, told after `out`.
fn tell_compiled<'src>(
    config: &Config,
    sources: &'src BTreeMap<String, String>,
    root: &'src str,
    out: &mut String,
) -> Result<(), AllocError> {
    match Compiler::compile(*out.allocator(), config, &Unchanged, sources, root) {
        Ok(compilation) => tell_handed(compilation, out),
        Err(error) => tell_error(out, &error),
    }
}

/// What is made of the files, of which the root has this name: each module's path with the names that
/// it keeps, their files and lines, or the refusal and its place. Lines and columns count from 1.
pub fn told_modules(
    alloc: Global,
    config: &Config,
    sources: &BTreeMap<String, String>,
    root: &str,
) -> Result<String, AllocError> {
    let mut out = String::new(alloc);
    tell_compiled(config, sources, root, &mut out)?;
    Ok(out)
}
