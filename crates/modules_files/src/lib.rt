//! Files by their keys and folders: which an import names, and which a submodule may mean.
#![tactic(auto)]

mod chosen;
mod folders;
mod lines;
mod search;

pub use chosen::{imported, of_module};
pub use folders::Folders;
pub use lines::{ImportLine, ModuleLine};
pub use search::{Files, file_at};
