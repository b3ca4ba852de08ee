//! What the strings, format strings and commands of a justfile stand for, expressions as trees with their
//! printed texts, and numbers for their variables.
#![tactic(auto)]

mod command;
mod cut;
mod escapes;
mod expression;
mod format_part;
mod indentation;
pub mod law;
mod operator;
mod order;
mod printing;
mod string_kind;
mod string_literal;

pub use command::{command_text, is_shebang};
pub use expression::{Expression, VariableNumbers};
pub use format_part::{cook_part, halve};
pub use indentation::unindent;
pub use operator::{ConditionalOperator, ListOperator};
pub use string_kind::{StringDelimiter, StringKind, StringPrefix};
pub use string_literal::StringLiteral;
