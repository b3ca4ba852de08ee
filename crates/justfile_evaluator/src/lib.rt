//! Values of variables, parameters, constants and settings, all that an evaluation of a justfile rests
//! on, and bodies of recipes: their lines one by one or as one script, up to the first failure.
#![tactic(auto)]

mod body;
mod fault;
mod line;
mod script;
mod site;

pub use body::run_body;
pub use evaluate_builtins::{ArgumentCount, Function, job_template, run_command};
pub use evaluate_context::{
    AssignmentRef, Error, ExecutionContext, FunctionRef, ModuleView, Settings, find_function,
};
pub use evaluate_expressions::Evaluator;
pub use evaluate_variables::{
    BoundParameters, ConstEvaluator, evaluate_assignments, evaluate_const_assignments,
    evaluate_parameters, open_assignments, passes_words,
};
pub use fault::RunFault;
pub use just_host::{
    Answer, CommandJob, Config, Confirmation, DotenvRequest, Entry, Host, HostFault, JobTemplate,
    MachineFact, Pair, Question, Recorded, RunHost, ScriptJob, Shared, Status,
};
pub use just_value::{
    Bindings, Bound, CONSTANT_COUNT, ConstError, ConstEvalError, Enclosure, Frame, List, Override,
    Positional, Scope, Steps, StringContext, Ticked, Value, ValueFault, constants,
    encode_uri_component,
};
pub use site::{Manner, Site};
