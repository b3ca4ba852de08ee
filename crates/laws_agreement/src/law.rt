//! Laws, by what they are about.
pub mod agreement;
pub mod certain;
pub mod determined;
pub mod known;
pub mod repeated;
pub mod unique;
