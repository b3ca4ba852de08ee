//! What is done in a justfile whose modules open: a run of recipes, values of variables as text, or
//! one command.
#![tactic(auto)]

pub mod action;
mod command;
pub mod fault;
mod opened;
mod order;
mod performing;
mod planned;
pub mod request;
pub mod task;
mod wanted;

pub use action::Action;
pub use fault::{CommandFault, TaskFault};
pub use opened::perform;
pub use performing::perform_task;
pub use request::{Request, RootText, request_of};
pub use task::{Performed, Task, TaskContext};
