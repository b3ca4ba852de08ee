//! Laws of evaluation: expressions and their parts, parameters, lines of bodies, variables that open; no
//! evaluation of names that are known ends with `internal`.
#![tactic(auto)]

pub mod law;
