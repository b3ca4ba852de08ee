//! Laws of loading: files and modules that are loaded, the definitions that they keep and the names that lead to
//! them are those of a world.
#![tactic(auto)]

pub mod law;
