//! Attributes of items, read from tokens.
#![tactic(auto)]

mod argument_options;
mod arguments;
mod attribute;
mod between;
pub mod law;
mod parameter_option;
mod pushing;

pub use attribute::{AttributeRead, attributes};
