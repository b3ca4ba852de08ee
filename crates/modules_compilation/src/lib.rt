//! Compiled justfiles: keys of files and tables by key, paths of modules, files, the modules that take
//! them, and why texts make none.
#![tactic(auto)]

pub mod compilation;
pub mod error;
pub mod module_node;
pub mod modulepath;
pub mod path;
pub mod place;
pub mod recipe_name;
pub mod source;
pub mod table;

pub use compilation::{Compilation, Target};
pub use error::{Error, path_token};
pub use module_node::{File, ModuleNode};
pub use modulepath::Modulepath;
pub use path::{folder_from, is_clean, key_from};
pub use place::Place;
pub use recipe_name::{RecipeName, front};
pub use source::Source;
pub use table::Table;
