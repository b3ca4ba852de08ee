//! Values of justfiles: lists of texts, and the words that a call is given.
#![tactic(auto)]

mod blocks;
pub mod bound;
mod combine;
pub mod constant;
mod display;
pub mod fault;
pub mod frame;
pub mod law;
pub mod list;
pub mod path;
pub mod positional;
mod row;
pub mod scope;
pub mod steps;
pub mod uri;
pub mod value;

pub use bound::Bound;
pub use constant::{CONSTANT_COUNT, constants};
pub use fault::{ConstError, ConstEvalError, StringContext, ValueFault};
pub use frame::{Bindings, Frame};
pub use list::{Enclosure, Items, List, Listed, Ticked};
pub use positional::{Override, Positional};
pub use scope::Scope;
pub use steps::Steps;
pub use uri::encode_uri_component;
pub use value::Value;
