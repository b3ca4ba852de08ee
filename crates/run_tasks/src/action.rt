//! What is to be done.

/// What is to be done.
#[derive(Clone, Copy, Debug, PartialEq, Eq)]
pub enum Action {
    /// Run the recipes that the words name.
    Run,
    /// Write what such a run would hand over and ask the user, and hand over and ask him nothing.
    Plan,
    /// Write the values of variables: of the root module, or of the module or variable that the word
    /// names.
    Evaluate,
    /// Run the command that the words are.
    Command,
    /// Write the root file as it is formatted.
    Dump,
    /// Answer the root file as it is formatted.
    Format,
    /// Write the list of recipes.
    List,
}
