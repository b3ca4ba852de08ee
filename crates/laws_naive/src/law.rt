//! Laws, by what they are about.
pub mod agreeing;
pub mod example;
pub mod inputs;
pub mod naive;
pub mod plans;
pub mod reach;
