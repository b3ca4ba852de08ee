//! Which recipes the words of a call name, and what they give to their parameters.
#![tactic(auto)]

mod fault;
mod menu;
mod options;
mod parser;
mod taking;

pub use fault::WordFault;
pub use menu::{Callable, Meaning, Menu, Menus, Slot};
pub use parser::{Invocation, InvocationParser};
