//! Dialogues: what an expression asks, reads and comes to. Definitions, and laws on them.
#![tactic(auto)]

pub mod law;
