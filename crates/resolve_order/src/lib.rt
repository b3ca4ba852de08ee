//! Orders in which each thing stands after all that it needs, and graphs of places: what is reached,
//! which places reach each other.
#![tactic(auto)]

pub mod component_search;
pub mod fault;
pub mod flood;
mod graph;
mod marks;
pub mod ordered;
mod read_cycles;
mod read_rows;
mod search;
pub mod variable_places;

pub use component_search::components;
pub use fault::OrderFault;
pub use flood::reached;
pub use ordered::order;
pub use variable_places::variable_order;
