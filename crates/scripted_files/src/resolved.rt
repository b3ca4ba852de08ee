//! Whether the modules of files resolve and are steady, in words.
use crate::files::Unchanged;
use just_host::Config;
use just_modules::{Compilation, Compiler};
use just_resolve::{Analysis, Analyzer, Error, number_variables};
use justfile_analyzer::is_steady;
use justfile_syntax::Token;
use std::alloc::{AllocError, Global};
use std::collections::BTreeMap;

/// Writes the place and its text, if there is one: the path, and line and column from 1.
pub fn write_place(out: &mut String, place: Option<Token>) -> Result<(), AllocError> {
    match place {
        Some(token) => {
            let line = token.line.saturating_add(1);
            let column = token.column.saturating_add(1);
            let path = token.path;
            let text = token.lexeme();
            write!(out, " at {path}:{line}:{column} `{text}`")
        }
        None => Ok(()),
    }
}

fn write_error(out: &mut String, error: &Error) -> Result<(), AllocError> {
    write!(out, "error: {error}")?;
    write_place(out, error.place())
}

/// Whether the modules are steady, of which this is known.
fn steadiness<'src>(
    alloc: Global,
    compilation: &Compilation<'src>,
    analysis: &Analysis<'src, '_>,
) -> Result<bool, AllocError> {
    is_steady(
        alloc,
        compilation,
        analysis.table.recipes.as_slice(),
        analysis.variables.lists.as_slice(),
        analysis.values.settings.as_slice(),
    )
}

/// Whether the modules are steady, whose variables have numbers.
fn resolve_numbered<'src>(
    alloc: Global,
    compilation: &Compilation<'src>,
    config: &Config,
) -> Result<bool, Error<'src>> {
    let analysis = Analyzer::analyze(alloc, compilation, config, &[])?;
    match steadiness(alloc, compilation, &analysis) {
        Ok(is_steady) => Ok(is_steady),
        Err(refused) => Err(Error::from(refused)),
    }
}

/// Numbers the variables of the modules, and says whether these are steady.
fn resolve_compiled<'src>(
    alloc: Global,
    config: &Config,
    mut compilation: Compilation<'src>,
) -> Result<bool, Error<'src>> {
    match number_variables(alloc, &mut compilation) {
        Ok(()) => resolve_numbered(alloc, &compilation, config),
        Err(error) => Err(Error::from(error)),
    }
}

/// Whether the modules of the files are steady, of which the root has this name.
fn resolve<'src>(
    alloc: Global,
    config: &Config,
    sources: &'src BTreeMap<String, String>,
    root: &'src str,
) -> Result<bool, Error<'src>> {
    match Compiler::compile(alloc, config, &Unchanged, sources, root) {
        Ok(compilation) => resolve_compiled(alloc, config, compilation),
        Err(error) => Err(Error::from(error)),
    }
}

/// What is said of modules that resolve: that they do, or whether they are steady.
fn resolved_word(says_steady: bool, is_steady: bool) -> &'static str {
    match (says_steady, is_steady) {
        (false, _) => "resolved",
        (true, true) => "steady",
        (true, false) => "not steady",
    }
}

/// Writes this of the files, or why they are refused, and where.
fn write_told(
    config: &Config,
    sources: &BTreeMap<String, String>,
    root: &str,
    says_steady: bool,
    out: &mut String,
) -> Result<(), AllocError> {
    match resolve(*out.allocator(), config, sources, root) {
        Ok(is_steady) => out.push_str(resolved_word(says_steady, is_steady)),
        Err(error) => write_error(out, &error),
    }
}

/// The same as a text.
fn told(
    alloc: Global,
    config: &Config,
    sources: &BTreeMap<String, String>,
    root: &str,
    says_steady: bool,
) -> Result<String, AllocError> {
    let mut out = String::new(alloc);
    write_told(config, sources, root, says_steady, &mut out)?;
    Ok(out)
}

/// The word `resolved` where the files resolve, of which the root has this name: each name stands for
/// something, nothing goes in a cycle, and settings have values. Else why they are refused, and where.
/// Lines and columns count from 1.
pub fn told_resolved(
    alloc: Global,
    config: &Config,
    sources: &BTreeMap<String, String>,
    root: &str,
) -> Result<String, AllocError> {
    told(alloc, config, sources, root, false)
}

/// The word `steady` where each recipe of the files is entered alike as a dependency and by words, of
/// which the root has this name, else `not steady`; or why they are refused, and where.
pub fn told_steady(
    alloc: Global,
    config: &Config,
    sources: &BTreeMap<String, String>,
    root: &str,
) -> Result<String, AllocError> {
    told(alloc, config, sources, root, true)
}
