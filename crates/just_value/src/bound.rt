//! What is bound in frames.

use crate::value::Value;
use just_text::{Name, Number};

/// A name with its number and its value.
#[derive(Drop)]
pub struct Bound<'src> {
    /// Whether commands find it among their environment variables.
    pub export: bool,
    pub name: Name<'src>,
    pub number: Number,
    /// Whether it is a constant that each justfile knows.
    pub prelude: bool,
    pub value: Value,
}
