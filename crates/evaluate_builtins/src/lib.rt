//! The built-in functions that ask the host or say where a call stands, and commands.
#![tactic(auto)]

pub mod asked;
pub mod call;
pub mod command;
mod files;
mod machine;
mod shell;
pub mod site;
mod variable;

pub use call::call_builtin;
pub use command::{command_output, job_template, run_command};
pub use evaluate_functions::{ArgumentCount, Function, FunctionFault, text_at, text_of};
pub use site::{CallSite, os_name};
