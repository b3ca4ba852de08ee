//! What a call is given: files, words and a configuration.
use crate::way::{Way, config};
use just_run::Config;
use scripted_files::{root_of, sources};
use std::alloc::{AllocError, Global};
use std::collections::BTreeMap;

/// What a call is given.
#[derive(Drop)]
pub(crate) struct Given {
    pub(crate) config: Config,
    pub(crate) sources: BTreeMap<String, String>,
    pub(crate) roots: BTreeMap<Option<String>, String>,
    pub(crate) words: Vec<String>,
}

fn roots(alloc: Global, root: &str) -> Result<BTreeMap<Option<String>, String>, AllocError> {
    let mut roots = BTreeMap::new(alloc);
    roots.insert(None, String::from_str(alloc, root)?)?;
    Ok(roots)
}

fn words(alloc: Global, text: &str) -> Result<Vec<String>, AllocError> {
    let mut words = Vec::new(alloc);
    for word in text.split(' ') {
        if !word.is_empty() {
            words.push(String::from_str(alloc, word)?)?;
        }
    }
    Ok(words)
}

/// What a call in this way is given with these files and with the words, which spaces part. Each file
/// is its name, a line end and its text; a byte 0 parts them, and the first is the root.
pub(crate) fn given_of(
    alloc: Global,
    way: Way<'_>,
    files: &str,
    text: &str,
) -> Result<Given, AllocError> {
    let words = words(alloc, text)?;
    let roots = roots(alloc, root_of(files).0)?;
    let sources = sources(alloc, files)?;
    let config = config(alloc, way)?;
    Ok(Given {
        config,
        sources,
        roots,
        words,
    })
}
