//! The values of a module's settings.
ghost use Rattle.std.specs.Prelude.{◌≡◌, ◌∷◌, IfOk, map, option_map};
ghost use Rattle.std.specs.String.{string_bytes};
ghost use Rattle.evaluate_context.specs.Defaults.{defaults};
ghost use Rattle.evaluate_context.specs.Shells as spec;

use just_host::Config;
use just_text::{Sequence, Text};
use just_value::Value;
use std::alloc::{AllocError, Global};
use tree_attributes::{Indentation, Interpreter};

/// The shell where nothing names one.
pub const DEFAULT_SHELL: &str = "sh";

/// The shell's words before a command where nothing names any.
pub const DEFAULT_SHELL_ARGS: &str = "-cu";

/// The shell's words before a script where nothing names any.
pub const DEFAULT_SCRIPT_ARGS: &str = "-eu";

/// The values of a module's settings.
#[derive(Drop)]
pub struct Settings {
    pub allow_duplicate_recipes: bool,
    pub allow_duplicate_variables: bool,
    pub default_list: bool,
    pub default_script: bool,
    pub dotenv_command: Value,
    pub dotenv_filename: Value,
    pub dotenv_load: bool,
    pub dotenv_override: bool,
    pub dotenv_path: Value,
    pub dotenv_required: bool,
    pub export: bool,
    pub fallback: bool,
    pub guards: bool,
    pub ignore_comments: bool,
    pub indentation: Option<Indentation>,
    pub lazy: bool,
    pub lists: bool,
    pub no_cd: bool,
    pub no_exit_message: bool,
    pub positional_arguments: bool,
    pub quiet: bool,
    pub script_interpreter: Option<Interpreter<Text>>,
    /// Whether the subsequents of the module's recipes pass over the calls that were done before.
    pub share_subsequents: bool,
    pub shell: Option<Interpreter<Text>>,
    pub tempdir: Option<Text>,
    pub unstable: bool,
    pub windows_powershell: bool,
    pub windows_shell: Option<Interpreter<Text>>,
    pub working_directory: Option<Text>,
}

impl Settings {
    /// What holds where nothing is set: false, empty or none. Takes no memory.
    pub fn new(alloc: Global) -> Settings
        ensures { result ≡ defaults }
    {
        Settings {
            allow_duplicate_recipes: false,
            allow_duplicate_variables: false,
            default_list: false,
            default_script: false,
            dotenv_command: Value::new(alloc),
            dotenv_filename: Value::new(alloc),
            dotenv_load: false,
            dotenv_override: false,
            dotenv_path: Value::new(alloc),
            dotenv_required: false,
            export: false,
            fallback: false,
            guards: false,
            ignore_comments: false,
            indentation: None,
            lazy: false,
            lists: false,
            no_cd: false,
            no_exit_message: false,
            positional_arguments: false,
            quiet: false,
            script_interpreter: None,
            share_subsequents: false,
            shell: None,
            tempdir: None,
            unstable: false,
            windows_powershell: false,
            windows_shell: None,
            working_directory: None,
        }
    }

    /// The words that a command stands after: the configuration's shell and its arguments, where
    /// one of them is missing `sh` or `-cu`; where both are, the words of the setting `shell`, else
    /// `sh -cu`.
    pub fn shell(&self, alloc: Global, config: &Config) -> Result<Sequence<Text>, AllocError>
        ensures { IfOk result (λ words. words ≡ spec.shell_words (option_map string_bytes config.now.shell) (option_map (λ arguments. map string_bytes arguments.items) config.now.shell_args) (option_map (λ i. i.command ∷ i.arguments.items) self.now.shell)) }
    {
        match (&config.shell, &config.shell_args) {
            (Some(shell), Some(arguments)) => { words(alloc, shell.as_str(), arguments.as_slice()) }
            (Some(shell), None) => pair(alloc, shell.as_str(), DEFAULT_SHELL_ARGS),
            (None, Some(arguments)) => words(alloc, DEFAULT_SHELL, arguments.as_slice()),
            (None, None) => match &self.shell {
                Some(interpreter) => interpreter_words(alloc, interpreter),
                None => pair(alloc, DEFAULT_SHELL, DEFAULT_SHELL_ARGS),
            },
        }
    }

    /// The words that a script's path stands after where its attribute names none: those of the
    /// setting `script-interpreter`, else `sh -eu`.
    pub fn interpreter(&self, alloc: Global) -> Result<Sequence<Text>, AllocError>
        ensures { IfOk result (λ words. words ≡ spec.script_words (option_map (λ i. i.command ∷ i.arguments.items) self.now.script_interpreter)) }
    {
        match &self.script_interpreter {
            Some(interpreter) => interpreter_words(alloc, interpreter),
            None => pair(alloc, DEFAULT_SHELL, DEFAULT_SCRIPT_ARGS),
        }
    }
}

/// The two words.
fn pair(alloc: Global, first: &str, second: &str) -> Result<Sequence<Text>, AllocError>
    ensures { IfOk result (λ words. words ≡ spec.two first.now second.now) }
{
    let mut words = Sequence::new(alloc);
    words.push(Text::from_text(alloc, first)?)?;
    words.push(Text::from_text(alloc, second)?)?;
    Ok(words)
}

/// The first word and the others after it.
fn words(alloc: Global, first: &str, others: &[String]) -> Result<Sequence<Text>, AllocError>
    ensures { IfOk result (λ words. words ≡ first.now ∷ map string_bytes others.now) }
{
    let mut words = Sequence::new(alloc);
    words.push(Text::from_text(alloc, first)?)?;
    for other in others {
        words.push(Text::from_text(alloc, other.as_str())?)?;
    }
    Ok(words)
}

/// The interpreter's command and its arguments.
pub fn interpreter_words(
    alloc: Global,
    interpreter: &Interpreter<Text>,
) -> Result<Sequence<Text>, AllocError>
    ensures { IfOk result (λ words. words ≡ interpreter.now.command ∷ interpreter.now.arguments.items) }
{
    let mut words = Sequence::new(alloc);
    words.push(interpreter.command.clone()?)?;
    for argument in &interpreter.arguments {
        words.push(argument.clone()?)?;
    }
    Ok(words)
}
