//! What a run is given beside the justfile.
ghost use Rattle.std.specs.Prelude.{◌≤◌};

use just_text::Os;
use semver::Version;

/// What a run is given beside the justfile and the words.
#[derive(Drop)]
pub struct Config {
    /// The operating system that the run is for.
    pub os: Os,
    /// The name of the machine's architecture, as `x86_64`.
    pub arch: String,
    /// The folder that relative paths of the justfile begin at.
    pub base: String,
    /// The folder that recipes run in, unless they say otherwise.
    pub working_directory: String,
    /// The folder that the program was started in.
    pub invocation_directory: String,
    /// Whether commands are printed and none is run.
    pub dry_run: bool,
    /// Whether each prompt counts as confirmed.
    pub yes: bool,
    /// Whether recipes run without their dependencies.
    pub no_dependencies: bool,
    /// Whether commands are run without being shown, and what they print is dropped.
    pub quiet: bool,
    /// Whether each command is shown, whatever `quiet` and the signs of quiet in a recipe say.
    pub loquacious: bool,
    /// Whether features that may still change are allowed.
    pub unstable: bool,
    /// How many commands may run at a time, where a number is given.
    pub jobs: Option<u32>,
    /// The shell in place of the justfile's, where one is given.
    pub shell: Option<String>,
    /// The shell's words before a command in place of the justfile's, where they are given.
    pub shell_args: Option<Vec<String>>,
    /// How deep calls of the justfile's functions may lie in each other, at least 1.
    pub recursion_limit: u64,
    /// The program's own version.
    pub version: Version,
    ghost limited: { 1 ≤ recursion_limit },
}
