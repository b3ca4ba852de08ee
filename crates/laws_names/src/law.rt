//! Laws, by what they are about.
pub mod constants;
pub mod depending;
pub mod overriding;
pub mod reading;
