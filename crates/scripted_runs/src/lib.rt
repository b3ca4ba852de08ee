//! Files that are driven under a host which answers by a script, and what comes of them in words:
//! for tests.
#![tactic(auto)]

mod answers;
mod call;
mod directives;
mod driver;
mod faltering;
mod given;
mod plain;
mod questions;
mod refused;
mod scripted;
mod told;
mod way;
mod whole;

pub use call::{first_unknown, tell};
