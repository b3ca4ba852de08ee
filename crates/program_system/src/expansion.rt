//! What stands for `~`, `$NAME` and the like in a text, by the environment.

pub mod environment;
pub mod expander;
pub mod reading;
