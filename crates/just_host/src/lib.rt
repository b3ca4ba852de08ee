//! What a run asks of the world: configuration, questions, jobs, hosts, and the record of what was asked.
#![tactic(auto)]

pub mod config;
pub mod entry;
pub mod host;
pub mod job;
pub mod output;
pub mod recorded;
pub mod shared;

pub use config::Config;
pub use entry::Entry;
pub use host::{Answer, Confirmation, Host, HostFault, MachineFact, Question, RunHost, Status};
pub use job::{CommandJob, DotenvRequest, JobTemplate, Pair, ScriptJob};
pub use output::{Collected, Device, Out, WriteFailed, write_all};
pub use recorded::Recorded;
pub use shared::Shared;
