//! Names and numbers of variables.

mod attributes;
mod context;
mod resolving;

pub use attributes::resolve_attributes;
pub use context::ExpressionContext;
pub use resolving::resolve_variables;
