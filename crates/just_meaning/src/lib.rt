//! What a justfile means: what words invoke, what opens, the run for every host and the naive meaning.
//! Definitions, and laws on them.
#![tactic(auto)]

pub mod law;
