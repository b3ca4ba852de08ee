//! What stands at the front of a text.

pub mod bytes;
pub mod line;
pub mod marks;
pub mod place;
pub mod strings;
