//! The files of imports and of submodules.
ghost use Rattle.std.specs.Prelude.{◌≡◌, IfOk, option_map};
ghost use Rattle.std.specs.List.Sorted.{IsStrictlySortedBy};
ghost use Rattle.std.specs.String.{string_bytes};
ghost use Rattle.just_text.specs.Tokens.{lexeme};
ghost use Rattle.modules_compilation.specs.Tables.{text_cmp};
ghost use Rattle.modules_compilation.specs.declared.error.Error.TheVariants as refusals;
ghost use Rattle.modules_files.specs.Chosen as spec;
ghost use Rattle.modules_files.specs.Chosen.{Gives, IsChosen, UnlessMemory, module_answer, named_by, none_answer};
ghost use Rattle.modules_files.specs.Found.{borrowed};

use crate::lines::{ImportLine, ModuleLine};
use crate::search::{Files, file_at, find_key};
use just_text::{Name, Sequence, Text};
use modules_compilation::{Error, Source, key_from};
use std::alloc::{AllocError, Global};
use std::collections::{BTreeMap, BTreeSet};

/// The refusal of an import whose path names this key, or none.
fn missing_import<'src>(
    alloc: Global,
    key: Option<String>,
    path: &str,
) -> Result<Error<'src>, AllocError>
    ensures { IfOk result (λ refusal. refusal ≡ refusals.MissingImport (named_by (option_map string_bytes key) path.now)) }
{
    match key {
        Some(key) => Ok(Error::MissingImport(Text::from_string(key))),
        None => Ok(Error::MissingImport(Text::from_text(alloc, path)?)),
    }
}

/// The file that an import names in the file with this key; none where it may be missing and is.
///
/// Refused as `MissingImport`, and where memory runs out.
pub fn imported<'src>(
    alloc: Global,
    sources: &'src BTreeMap<String, String>,
    file: &str,
    import: ImportLine<'_>,
) -> Result<Option<Source<'src>>, Error<'src>>
    ensures { Gives result (spec.imported sources.now file.now import.entry.path.now import.entry.optional) }
{
    let key = key_from(alloc, file, import.path)?;
    if let Some(source) = find_key(sources, &key) {
        return Ok(Some(source));
    }
    if import.optional {
        return Ok(None);
    }
    let refusal = missing_import(alloc, key, import.path)?;
    Err(refusal)
}

/// The keys in byte order.
fn listed<'src>(alloc: Global, found: &BTreeSet<&'src str>) -> Result<Vec<&'src str>, AllocError>
    ensures all { IfOk result (λ keys. keys.items ≡ found.now.keys) }
    ensures sorted { IfOk result (λ keys. IsStrictlySortedBy text_cmp (borrowed keys.items)) }
{
    let mut keys = Vec::new(alloc);
    for key in found {
        keys.push(*key)?;
    }
    Ok(keys)
}

/// Copies of the keys.
fn copied(alloc: Global, keys: &[&str]) -> Result<Sequence<Text>, AllocError>
    ensures { IfOk result (λ texts. texts ≡ borrowed keys.now) }
{
    let mut texts = Vec::new(alloc);
    for key in keys {
        let text = Text::from_text(alloc, *key)?;
        texts.push(text)?;
    }
    Ok(Sequence::from_vec(texts))
}

/// The refusal of a submodule that may mean these files.
fn ambiguous<'src>(
    alloc: Global,
    name: Name<'src>,
    keys: &[&str],
) -> Result<Error<'src>, AllocError>
    ensures { IfOk result (λ refusal. refusal ≡ refusals.AmbiguousModule name.entry (borrowed keys.now)) }
{
    let found = copied(alloc, keys)?;
    Ok(Error::AmbiguousModule { name, found })
}

/// The only one of the files that a submodule may mean; none where it may be missing and is.
fn only<'src>(
    alloc: Global,
    sources: &'src BTreeMap<String, String>,
    line: &ModuleLine<'_, 'src>,
    keys: &[&'src str],
) -> Result<Option<Source<'src>>, Error<'src>>
    ensures { Gives result (module_answer sources.now line.now.name line.now.optional (borrowed keys.now)) }
{
    let Some((key, others)) = keys.split_first() else {
        return none(line);
    };
    if others.is_empty() {
        return Ok(file_at(sources, *key));
    }
    let refusal = ambiguous(alloc, line.name, keys)?;
    Err(refusal)
}

/// None, where the submodule may be missing.
fn none<'src>(line: &ModuleLine<'_, 'src>) -> Result<Option<Source<'src>>, Error<'src>>
    ensures { Gives result (none_answer line.now.name line.now.optional) }
{
    if line.optional {
        return Ok(None);
    }
    Err(Error::MissingModule(line.name))
}

/// The file of a submodule of the file with this key; none where it may be missing and is.
///
/// Refused as `MissingModule`, as `AmbiguousModule` where two files or more may be meant, with their
/// keys in byte order, and where memory runs out.
pub fn of_module<'src>(
    alloc: Global,
    files: &Files<'src, '_>,
    file: &str,
    line: &ModuleLine<'_, 'src>,
) -> Result<Option<Source<'src>>, Error<'src>>
    ensures { UnlessMemory result (IsChosen files.now.sources.now files.now.folders.now.justfiles file.now (lexeme line.now.name.token) (option_map (λ path. path.now) line.now.path) line.now.name line.now.optional result) }
{
    let found = files.candidates(alloc, file, line)?;
    let keys = listed(alloc, &found)?;
    only(alloc, files.sources, line, keys.as_slice())
}
