//! Plans of runs: a host that hands nothing over, and what a run would hand over, in lines.
#![tactic(auto)]

mod lines;
pub mod planning;

pub use lines::plan_text;
pub use planning::Planning;
