//! What modules keep of their files, and which rules they break.
#![tactic(auto)]

pub mod compiler;
mod lists;
mod rules;
mod truths;

pub use compiler::Compiler;
pub use modules_compilation::{
    Compilation, Error, File, ModuleNode, Modulepath, Place, Source, Table, Target, folder_from,
    is_clean, key_from, path_token,
};
pub use modules_sources::Parsed;
