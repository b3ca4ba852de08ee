//! The host of a run: commands and scripts as processes, files, variables, and the user.

pub mod answer;
pub mod ended;
pub mod events;
pub mod job;
pub mod program;
pub mod prompt;
pub mod questions;
pub mod script;
pub mod shell;
