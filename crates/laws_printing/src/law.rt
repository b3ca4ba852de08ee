//! Laws, by what they are about.
pub mod distinct;
pub mod formatted;
pub mod formatting;
pub mod printing;
pub mod reformatted;
