//! Laws, by what they are about.
pub mod bodies;
pub mod opening;
pub mod soundness;
pub mod terms;
