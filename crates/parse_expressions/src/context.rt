//! What parsers are given beside tokens.

/// The file that is parsed, by its path, and the expander of its strings. The path is what the names
/// of the file's calls borrow.
#[derive(Clone, Copy)]
pub struct Context<'a, 'src, E> {
    pub expander: &'a E,
    pub path: &'src str,
}
