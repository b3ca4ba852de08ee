//! Values of variables, constants, settings and parameters.
#![tactic(auto)]

mod assignments;
mod const_evaluator;
mod parameters;
mod sets;

pub use assignments::{evaluate_assignments, open_assignments};
pub use const_evaluator::{ConstEvaluator, evaluate_const_assignments};
pub use parameters::{BoundParameters, evaluate_parameters, passes_words};
