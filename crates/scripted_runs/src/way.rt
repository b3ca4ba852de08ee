//! How a justfile is driven.
ghost use Rattle.std.specs.Prelude.{◌≤◌};

use crate::answers::Answers;
use crate::scripted::Failing;
use just_run::{Action, Config, Confirmation};
use justfile_syntax::Os;
use scripted_files::Subject;
use semver::Version;
use std::alloc::{AllocError, Global};

/// What is told of a justfile, and how much.
#[derive(Clone, Copy)]
pub enum Telling {
    /// What was handed over, with its words and variables; of questions the commands alone.
    Short,
    /// All that was asked, handed over and shown, with what it runs under, one a line.
    Whole,
    /// The commands that are handed over and what is shown, and the answer with its status.
    Plain,
    /// What the modules keep of the files; nothing is asked or handed over.
    Modules,
    /// Whether names, orders and constants resolve; nothing is asked or handed over.
    Resolved,
    /// Whether recipes are entered alike as dependencies and by words; nothing is asked or handed over.
    Steady,
    /// The root as it is printed; nothing is asked or handed over.
    Printed,
    /// The root's tokens; nothing is asked or handed over.
    Tokens(Subject),
}

/// How a justfile is driven.
#[derive(Clone, Copy)]
pub struct Way<'a> {
    pub action: Action,
    pub telling: Telling,
    pub answers: Answers<'a>,
    /// Whether the answers to single questions are used one after the other, each once.
    pub in_turn: bool,
    /// Whether it is told of a refusal where it stands.
    pub is_placed: bool,
    /// What files of variables give: names and values.
    pub pairs: &'a [(&'a str, &'a str)],
    pub confirmation: Confirmation,
    pub dry_run: bool,
    pub yes: bool,
    pub quiet: bool,
    pub loquacious: bool,
    pub no_dependencies: bool,
    pub jobs: Option<u32>,
    /// The folder of the justfile, in which the root's commands run.
    pub base: &'a str,
    /// The shell in place of the justfile's.
    pub shell: Option<&'a str>,
    /// The shell's one word before a command in place of the justfile's.
    pub shell_arg: Option<&'a str>,
    /// How deep calls of functions may lie in each other, in place of 256.
    pub recursion_limit: Option<u64>,
    /// The place of the question or event that fails, from 0; none does at the greatest place.
    pub failing_place: usize,
    pub failing: Failing,
    /// The output takes at most two bytes a write, and fails after so many writes.
    pub writes: Option<usize>,
}

/// Runs, confirms all, and fails nothing.
pub const RUN: Way<'static> = Way {
    action: Action::Run,
    telling: Telling::Short,
    answers: Answers::Echo,
    in_turn: false,
    is_placed: false,
    pairs: &[("D", "1")],
    confirmation: Confirmation::Yes,
    dry_run: false,
    yes: false,
    quiet: false,
    loquacious: false,
    no_dependencies: false,
    jobs: None,
    base: "/base",
    shell: None,
    shell_arg: None,
    recursion_limit: None,
    failing_place: usize::MAX,
    failing: Failing::NotStarted,
    writes: None,
};

/// How deep calls of functions may lie in each other: as deep as is said, and at least 1.
fn recursion_limit(said: Option<u64>) -> u64
    ensures { 1 ≤ result }
{
    let limit = said.unwrap_or(256);
    if limit == 0 { 1 } else { limit }
}

/// What the way says, but for the shell.
fn without_shell(alloc: Global, way: Way<'_>) -> Result<Config, AllocError> {
    Ok(Config {
        os: Os::Linux,
        arch: String::from_str(alloc, "x86_64")?,
        base: String::from_str(alloc, way.base)?,
        working_directory: String::from_str(alloc, way.base)?,
        invocation_directory: String::from_str(alloc, "/started")?,
        dry_run: way.dry_run,
        yes: way.yes,
        no_dependencies: way.no_dependencies,
        quiet: way.quiet,
        loquacious: way.loquacious,
        unstable: false,
        jobs: way.jobs,
        shell: None,
        shell_args: None,
        recursion_limit: recursion_limit(way.recursion_limit),
        version: Version::new(1, 58, 0),
    })
}

fn optional(alloc: Global, text: Option<&str>) -> Result<Option<String>, AllocError> {
    match text {
        Some(text) => Ok(Some(String::from_str(alloc, text)?)),
        None => Ok(None),
    }
}

/// The word alone, where there is one.
fn alone(alloc: Global, word: Option<&str>) -> Result<Option<Vec<String>>, AllocError> {
    let Some(word) = optional(alloc, word)? else {
        return Ok(None);
    };
    let mut words = Vec::new(alloc);
    words.push(word)?;
    Ok(Some(words))
}

/// What a run in this way is told: it was started in `/started`.
pub(crate) fn config(alloc: Global, way: Way<'_>) -> Result<Config, AllocError> {
    let mut config = without_shell(alloc, way)?;
    config.shell = optional(alloc, way.shell)?;
    config.shell_args = alone(alloc, way.shell_arg)?;
    Ok(config)
}
