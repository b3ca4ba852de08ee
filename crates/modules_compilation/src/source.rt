//! Texts of files by their keys.

use std::collections::BTreeMap;

/// A file's key and text, as the map of sources holds them.
#[derive(Clone, Copy)]
pub struct Source<'src> {
    pub key: &'src str,
    pub text: &'src str,
}

impl<'src> Source<'src> {
    /// The file at the key, if there is one.
    pub fn find(sources: &'src BTreeMap<String, String>, key: &str) -> Option<Source<'src>> {
        match sources.get_key_value(key) {
            Some((key, text)) => Some(Source {
                key: key.as_str(),
                text: text.as_str(),
            }),
            None => None,
        }
    }
}
