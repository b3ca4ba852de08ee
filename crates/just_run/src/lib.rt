//! From texts and words to what a justfile does: runs, texts and single commands.
#![tactic(auto)]

pub mod driver;
pub mod fault;
pub mod outcome;
mod plan;
mod root;
mod texts;

pub use driver::{drive, drive_and_leak};
pub use fault::Fault;
pub use just_host::{
    Answer, Collected, CommandJob, Config, Confirmation, Device, DotenvRequest, Entry, Host,
    HostFault, MachineFact, Out, Pair, Question, Recorded, RunHost, ScriptJob, Shared, Status,
    WriteFailed, write_all,
};
pub use just_value::{Override, Positional};
pub use outcome::Outcome;
pub use run_tasks::{Action, CommandFault};
