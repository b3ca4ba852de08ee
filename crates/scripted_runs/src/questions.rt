//! Questions in words.
use just_run::{MachineFact, Question};
use std::alloc::{AllocError, Global};

fn fact_name(fact: MachineFact) -> &'static str {
    match fact {
        MachineFact::Executable => "executable",
        MachineFact::Pid => "pid",
        MachineFact::Cpus => "cpus",
        MachineFact::Cache => "cache",
        MachineFact::Config => "config",
        MachineFact::ConfigLocal => "config local",
        MachineFact::Data => "data",
        MachineFact::DataLocal => "data local",
        MachineFact::Runnable => "runnable",
        MachineFact::Home => "home",
        MachineFact::Runtime => "runtime",
    }
}

/// The question in words: what is asked, without what a command runs under.
pub(crate) fn question_text(alloc: Global, question: &Question) -> Result<String, AllocError> {
    let (what, of) = match question {
        Question::Command(job) => ("command ", job.command.as_str()),
        Question::Environment(name) => ("environment ", name.as_str()),
        Question::Read(path) => ("read ", path.as_str()),
        Question::Exists(path) => ("exists ", path.as_str()),
        Question::Canonicalize(path) => ("canonicalize ", path.as_str()),
        Question::Which { name, .. } => ("which ", name.as_str()),
        Question::Fact(fact) => ("fact ", fact_name(*fact)),
    };
    let mut told = String::from_str(alloc, what)?;
    told.push_str(of)?;
    Ok(told)
}
