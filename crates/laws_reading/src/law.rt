//! Laws, by what they are about.
pub mod tokens;
pub mod words;
pub mod worlds;
