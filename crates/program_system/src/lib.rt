//! The operating system as a run reaches it: commands and scripts as processes, files, variables, the
//! user (`host`); and what stands for `~`, `$NAME` and the like in a text (`expansion`).
#![tactic(auto)]

pub mod expansion;
pub mod host;

pub use expansion::environment::Environment;
pub use host::shell::Shell;
