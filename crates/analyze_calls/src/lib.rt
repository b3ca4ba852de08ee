//! Calls of recipes: what a module opens with, and of each call its parameters, its confirmation, its
//! body, and the calls of its dependencies.
#![tactic(auto)]

mod block;
mod call;
mod confirm;
mod enter;
pub mod fault;
mod frame;
mod opening;
mod plan;
mod running;
mod stack;
mod steps;
pub mod tally;

pub use call::{Call, Done, Pending};
pub use enter::{Entered, begin, end, enter_recipe};
pub use fault::OpeningFault;
pub use justfile_evaluator::RunFault;
pub use opening::{Opened, Opening, open_modules};
pub use plan::{Placed, Planned, Runner};
pub use running::run_calls;
pub use tally::Tally;
