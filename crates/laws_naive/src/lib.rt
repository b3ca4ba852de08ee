//! Laws of naive runs: by fixed answers a run does what its naive run does, and what it does not reach changes
//! nothing.
#![tactic(auto)]

pub mod law;
