//! Files and modules, and the rules that files, names and constants may break. Definitions, and laws on them.
#![tactic(auto)]

pub mod law;
