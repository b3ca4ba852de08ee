//! What came of a call.
use justfile_syntax::Text;

/// What came of it.
#[derive(Debug, Drop, PartialEq, Eq)]
pub enum Outcome {
    /// Each recipe ran, or the command.
    Ran,
    /// What a run would hand over was written.
    Planned,
    /// The values were written.
    Evaluated,
    /// The root file was written.
    Dumped,
    /// The root file's path, and its text as it is formatted.
    Formatted { path: Text, text: Text },
    /// The list of recipes was written.
    Listed,
}
