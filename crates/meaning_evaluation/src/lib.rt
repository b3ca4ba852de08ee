//! What a call of a recipe does, and what its lines and parameters are evaluated to. Definitions, and laws on
//! them.
#![tactic(auto)]

pub mod law;
