//! The built-in functions: their names, how many arguments they take, and what those answer that ask nothing.
#![tactic(auto)]

pub mod cases;
pub mod count;
pub mod fault;
pub mod function;
pub mod paths;
pub mod pure;
pub mod texts;
pub mod values;

pub use count::ArgumentCount;
pub use fault::FunctionFault;
pub use function::Function;
pub use pure::{pure_answer, text_at, text_of};
