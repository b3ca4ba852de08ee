//! What is to be done, what it rests on, and what came of it.
use analyze_calls::Call;
use just_host::Config;
use just_text::{Number, Text};
use justfile_analyzer::EvaluationTarget;
use std::collections::{BTreeMap, BTreeSet};

/// What is to be done once all modules are open.
#[derive(Drop)]
pub enum Task<'a> {
    /// Run these calls, one after another.
    Run(Vec<Call>),
    /// Tell values of variables.
    Evaluate(EvaluationTarget),
    /// Hand these words over as one command; nothing is done where there are none.
    Command(&'a [Text]),
}

/// What came of a task.
#[derive(Debug, Drop, PartialEq, Eq)]
pub enum Performed {
    /// Each call ran, or the command.
    Ran,
    /// The values' text.
    Evaluated(String),
}

/// What a task rests on, beside modules and recipes.
#[derive(Clone, Copy)]
pub struct TaskContext<'run> {
    pub config: &'run Config,
    /// Texts in place of variables' values.
    pub overrides: &'run BTreeMap<Number, String>,
    /// The key of the root file.
    pub root: &'run str,
    /// The modules' places in the order in which they open.
    pub opening_order: &'run [usize],
    /// The variables that lazy modules evaluate; all where none are named.
    pub wanted: Option<&'run BTreeSet<Number>>,
}
