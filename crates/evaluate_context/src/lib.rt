//! What an evaluation of a justfile rests on: settings with their shells, modules as evaluation sees
//! them, the environment of commands, and refusals.
#![tactic(auto)]

pub mod context;
pub mod environment;
pub mod error;
mod pairs;
pub mod settings;

pub use context::{AssignmentRef, ExecutionContext, FunctionRef, ModuleView, find_function};
pub use environment::JobEnvironment;
pub use error::Error;
pub use settings::{DEFAULT_SHELL, DEFAULT_SHELL_ARGS, Settings, interpreter_words};
