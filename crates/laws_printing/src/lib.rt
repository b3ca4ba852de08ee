//! Laws of printing: what is printed is read again, and what a text says its formatted text says.
#![tactic(auto)]

pub mod law;
