//! The root file: where it is, and what it says.
ghost use Rattle.std.specs.Prelude.{◌≡◌, IfErr, IfOk, None, Ok, Some, [], unwrap_or};
ghost use Rattle.std.specs.Option.{option_map};
ghost use Rattle.std.specs.String.{string_bytes};
ghost use Rattle.just_run.specs.Root.{IsFileRead, IsMissing, IsRootless, IsUnread, given, reader_of, root_at, text_at};

use just_modules::Parsed;
use just_value::{CONSTANT_COUNT, Positional};
use justfile_syntax::{CompileError, CompileErrorKind, Expander, Numerator, Parser, Text};
use modules_compilation::is_clean;
use semver::Version;
use std::alloc::{AllocError, Global};
use std::collections::BTreeMap;

/// Why the root file can't be read.
#[derive(Drop)]
pub enum RootFault<'src> {
    /// Memory ran out.
    OutOfMemory,
    /// There is no root file for this search directory, which is empty where none was given.
    NoRootForWord(Text),
    /// There is no text at this path of the root file, or it is no clean path.
    MissingRoot(&'src str),
    /// The root file is no justfile, or no number is left for what it says.
    Syntax(CompileError<'src>),
}

impl From<AllocError> for RootFault<'_> {
    ghost use Rattle.just_run.specs.declared.root.RootFault.TheVariants.{OutOfMemory};

    ghost from_gives = { λ _ e. e ≡ OutOfMemory };

    fn from(_refused: AllocError) -> Self {
        RootFault::OutOfMemory
    }
}

impl<'src> From<CompileError<'src>> for RootFault<'src> {
    ghost use Rattle.just_run.specs.Root.{by_syntax};

    ghost from_gives = { λ lower upper. upper ≡ by_syntax lower };

    fn from(error: CompileError<'src>) -> Self {
        match error.kind {
            CompileErrorKind::OutOfMemory => RootFault::OutOfMemory,
            _ => RootFault::Syntax(error),
        }
    }
}

/// The search directory as a key.
fn key_of(alloc: Global, directory: &Option<Text>) -> Result<Option<String>, AllocError>
    ensures { IfOk result (λ key. option_map string_bytes key ≡ directory.now) }
{
    match directory {
        Some(directory) => Ok(Some(String::from_str(alloc, directory.as_str())?)),
        None => Ok(None),
    }
}

/// The word that names the search directory, or the empty word.
fn word_of(alloc: Global, directory: &Option<Text>) -> Result<Text, AllocError>
    ensures { IfOk result (λ word. word ≡ unwrap_or directory.now []) }
{
    match directory {
        Some(directory) => directory.clone(),
        None => Text::from_text(alloc, ""),
    }
}

/// The path of the root file for the words' search directory.
fn find_root<'src>(
    alloc: Global,
    roots: &'src BTreeMap<Option<String>, String>,
    directory: &Option<Text>,
) -> Result<&'src str, RootFault<'src>>
    ensures ok { IfOk result (λ path. root_at roots.now directory.now ≡ Some path.now) }
    ensures err { IfErr result (IsRootless directory.now (root_at roots.now directory.now)) }
{
    let key = key_of(alloc, directory)?;
    match roots.get(&key) {
        Some(path) => Ok(path.as_str()),
        None => Err(RootFault::NoRootForWord(word_of(alloc, directory)?)),
    }
}

/// The text at the path, if the path is clean and there is one.
fn text_of<'src>(sources: &'src BTreeMap<String, String>, path: &str) -> Option<&'src str>
    ensures { option_map (λ text. text.now) result ≡ text_at sources.now path.now }
{
    if !is_clean(path) {
        return None;
    }
    match sources.get(path) {
        Some(text) => Some(text.as_str()),
        None => None,
    }
}

/// The text at the root file's path.
fn find_text<'src>(
    sources: &'src BTreeMap<String, String>,
    path: &'src str,
) -> Result<&'src str, RootFault<'src>>
    ensures ok { IfOk result (λ text. text_at sources.now path.now ≡ Some text.now) }
    ensures err { IfErr result (IsMissing path.now (text_at sources.now path.now)) }
{
    match text_of(sources, path) {
        Some(text) => Ok(text),
        None => Err(RootFault::MissingRoot(path)),
    }
}

/// A root file that was read: its path, its tree, and which numbers are taken, those of the constants and its own.
pub struct Root<'src> {
    pub path: &'src str,
    pub parsed: Parsed<'src>,
}

/// Reads the root file that `roots` name for the words' search directory. The constants' numbers come before its own.
///
/// Refused as `NoRootForWord` where there is none, as `MissingRoot` where its path isn't clean or has no text, as `Syntax` where its text is no justfile, and where memory runs out.
pub fn read_root<'src, E: Expander>(
    alloc: Global,
    words: &Positional,
    sources: &'src BTreeMap<String, String>,
    roots: &'src BTreeMap<Option<String>, String>,
    expander: &E,
    version: &Version,
) -> Result<Root<'src>, RootFault<'src>>
    ensures read { IfOk result (λ root. IsFileRead (given (reader_of (E.expansion expander.now) version.now) sources.now roots.now words.now) root.path.now root.parsed) }
    ensures err { IfErr result (IsUnread (given (reader_of (E.expansion expander.now) version.now) sources.now roots.now words.now)) }
{
    let path = find_root(alloc, roots, &words.search_directory)?;
    let text = find_text(sources, path)?;
    let mut numerator = Numerator::new(CONSTANT_COUNT);
    let ast = Parser::parse_source(alloc, path, text, expander, version, &mut numerator)?;
    Ok(Root {
        path,
        parsed: Parsed { ast, numerator },
    })
}
