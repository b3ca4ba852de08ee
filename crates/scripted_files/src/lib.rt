//! What lexing, parsing, compiling and resolving make of files, in words: for tests.
#![tactic(auto)]

mod files;
mod modules;
mod resolved;
mod syntax;

pub use files::{Unchanged, root_of, sources};
pub use modules::told_modules;
pub use resolved::{told_resolved, told_steady, write_place};
pub use syntax::{Subject, told_printed, told_tokens};
