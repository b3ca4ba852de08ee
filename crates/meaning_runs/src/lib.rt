//! Runs of calls, over whatever a call does: for every host, and by fixed answers; and what words invoke.
//! Definitions, and laws on them.
#![tactic(auto)]

pub mod law;
