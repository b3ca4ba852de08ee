//! Expressions of justfiles, read from tokens.
#![tactic(auto)]

mod context;
mod cursor;
mod expression;
mod fault;
pub mod law;
mod line_end;
mod literal;
mod lone_operand;
mod node;
mod operator;
mod row;
mod string;

pub use context::Context;
pub use cursor::Cursor;
pub use fault::Fault;
pub use line_end::{end_of_line, ended};
pub use row::is_more;
