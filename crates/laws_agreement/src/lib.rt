//! Laws of agreement: runs that agree with one set of answers go alike, and none ends with `internal`.
#![tactic(auto)]

pub mod law;
