//! Laws of resolving names: what is read, called, depended on, overridden and settled is what the rules say, and
//! is refused exactly where one is broken.
#![tactic(auto)]

pub mod law;
