//! Texts of the root: what is written of it, and the list of what it offers. Definitions, and laws on them.
#![tactic(auto)]

pub mod law;
