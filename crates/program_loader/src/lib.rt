//! A project's files: the folder that is searched, the root file there, and the texts that it may name.
#![tactic(auto)]

pub mod base;
pub mod below;
pub mod clean;
pub mod naming;
pub mod reach;
pub mod readable;
pub mod root;
pub mod root_name;
pub mod search;
pub mod sources;
pub mod text;
pub mod walk;

pub use base::base_folder;
pub use clean::clean_folder;
pub use root::find_root;
pub use root_name::is_root_name;
pub use sources::load;
