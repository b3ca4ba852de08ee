//! Files in one text, and their strings.
use justfile_syntax::{ExpandFault, Expander, Text};
use std::alloc::{AllocError, Global};
use std::collections::BTreeMap;

/// Gives each text as it is.
#[derive(Drop)]
pub struct Unchanged;

impl Expander for Unchanged {
    ghost use Rattle.std.specs.Prelude.{Ok};

    ghost expansion = { λ _ text. Ok text };

    fn expand(&self, alloc: Global, text: &str) -> Result<Text, ExpandFault> {
        Ok(Text::from_text(alloc, text)?)
    }
}

/// The file's name, and the text after its line.
fn name_and_text(file: &str) -> (&str, &str) {
    file.split_once('\n').unwrap_or((file, ""))
}

/// The root's name and text: those of the first file, or `justfile` and nothing where there is none.
/// Each file is its name, a line end and its text, and a byte 0 parts them.
pub fn root_of(files: &str) -> (&str, &str) {
    match files.split('\0').next() {
        Some(file) if !file.is_empty() => name_and_text(file),
        _ => ("justfile", ""),
    }
}

fn put(
    alloc: Global,
    sources: &mut BTreeMap<String, String>,
    file: &str,
) -> Result<(), AllocError> {
    let (name, text) = name_and_text(file);
    let name = String::from_str(alloc, name)?;
    sources.insert(name, String::from_str(alloc, text)?)?;
    Ok(())
}

/// The texts of the files by their names. Each file is its name, a line end and its text, and a byte 0
/// parts them.
pub fn sources(alloc: Global, files: &str) -> Result<BTreeMap<String, String>, AllocError> {
    let mut sources = BTreeMap::new(alloc);
    for file in files.split('\0') {
        if !file.is_empty() {
            put(alloc, &mut sources, file)?;
        }
    }
    Ok(sources)
}
