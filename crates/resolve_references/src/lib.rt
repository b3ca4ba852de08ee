//! What expressions and the items of a justfile call and read, and numbers for their variables.
#![tactic(auto)]

pub mod functions;
pub mod item_references;
pub mod numbering;
pub mod read_fault;
pub mod references;
pub mod variable_resolver;

pub use functions::{CallFault, Called, DefinedFunction, FunctionNames, resolve_call};
pub use item_references::{recipe_references, set_references};
pub use numbering::number_item;
pub use read_fault::ReadFault;
pub use references::{Reference, References};
pub use variable_resolver::VariableResolver;
