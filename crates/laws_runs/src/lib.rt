//! Laws of what a resolved justfile knows and of its runs: by places they are what its world defines and what
//! runs by paths and names.
#![tactic(auto)]

pub mod law;
