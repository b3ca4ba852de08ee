//! Items of justfiles but recipes, and settings, read from tokens.
#![tactic(auto)]

mod form;
pub mod item;
pub mod kind;
pub mod law;
mod make;
pub mod set;
pub mod setting_law;

pub use form::{Form, form_named};
