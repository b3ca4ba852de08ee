//! The files of a module.

/// The places of a module's files among all files: from `first` to the one before `end`.
#[derive(Clone, Copy, Debug, PartialEq, Eq)]
pub struct FileRange {
    pub first: usize,
    pub end: usize,
}
