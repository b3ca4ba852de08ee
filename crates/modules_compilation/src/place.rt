//! Where items stand.

/// Where an item stands: the place of its file among all files, and its own among the file's items.
/// Among the items of a module the least place comes first in reading order.
#[derive(Clone, Copy, Debug, PartialEq, Eq, PartialOrd, Ord)]
pub struct Place {
    pub file: usize,
    pub item: usize,
}
