//! The commands, the scripts and the files of variables that a run asks for.
ghost use Rattle.std.specs.Prelude.{◌≡◌, IfOk};

use crate::shared::Shared;
use just_text::{Sequence, Text};
use std::alloc::AllocError;

/// A variable and its value.
#[derive(Drop)]
pub struct Pair {
    pub name: Text,
    pub value: Text,
}

/// What the commands of a body have in common: a job but for its command.
#[derive(Drop)]
pub struct JobTemplate {
    /// The shell and its words, which a command stands after.
    pub shell: Shared<Sequence<Text>>,
    /// The words after a command.
    pub positional: Shared<Sequence<Text>>,
    /// The variables of the environment, of which a later one of a name counts.
    pub pairs: Shared<Sequence<Pair>>,
    /// The names that the environment lacks.
    pub removed: Shared<Sequence<Text>>,
    /// The folder that a command runs in, where one is given.
    pub folder: Shared<Option<Text>>,
    /// Whether what a command prints is dropped: of an event all, of a question its errors.
    pub quiet: bool,
}

/// A command, with what it runs under.
#[derive(Drop)]
pub struct CommandJob {
    /// The shell and its words, which the command stands after.
    pub shell: Shared<Sequence<Text>>,
    pub command: Text,
    /// The words after the command.
    pub positional: Shared<Sequence<Text>>,
    /// The variables of the environment, of which a later one of a name counts.
    pub pairs: Shared<Sequence<Pair>>,
    /// The names that the environment lacks.
    pub removed: Shared<Sequence<Text>>,
    /// The folder that the command runs in, where one is given.
    pub folder: Shared<Option<Text>>,
    /// Whether what the command prints is dropped: of an event all, of a question its errors.
    pub quiet: bool,
}

/// A script, with what it runs under.
#[derive(Drop)]
pub struct ScriptJob {
    /// The interpreter's command and its words, which the script's path stands after.
    pub interpreter: Sequence<Text>,
    /// The script's lines, without what ends them.
    pub lines: Sequence<Text>,
    /// The words after the script's path.
    pub positional: Sequence<Text>,
    /// The end of the script's name, where one is given.
    pub extension: Option<Text>,
    /// The variables of the environment, of which a later one of a name counts.
    pub pairs: Sequence<Pair>,
    /// The names that the environment lacks.
    pub removed: Sequence<Text>,
    /// The folder that the script runs in, where one is given.
    pub folder: Option<Text>,
}

/// Which files of variables are read, and how.
#[derive(Drop)]
pub struct DotenvRequest {
    /// The folder that the files are sought in.
    pub folder: Text,
    /// Whether files are read without a name or a path of one.
    pub load: bool,
    /// The names that are sought in the folder and those above it.
    pub filenames: Sequence<Text>,
    /// The paths of files.
    pub paths: Sequence<Text>,
    /// The command that prints variables, and its words; none where it is empty.
    pub command: Sequence<Text>,
    /// Whether a file's variable comes before the environment's.
    pub overriding: bool,
    /// Whether it is a fault that no file is found.
    pub required: bool,
}

impl Clone for Pair {
    ghost is_clone = { λ s t. t ≡ s };

    fn clone(&self) -> Result<Pair, AllocError> {
        Ok(Pair {
            name: self.name.clone()?,
            value: self.value.clone()?,
        })
    }
}

impl JobTemplate {
    /// The job of the command, which shares what it runs under with the template. Refused only
    /// where memory is.
    pub fn job(&self, command: Text) -> Result<CommandJob, AllocError>
        ensures { IfOk result (λ job. job ≡ record { shell = self.now.shell; command = command; positional = self.now.positional; pairs = self.now.pairs; removed = self.now.removed; folder = self.now.folder; quiet = self.now.quiet }) }
    {
        let JobTemplate {
            shell,
            positional,
            pairs,
            removed,
            folder,
            quiet,
        } = self;
        Ok(CommandJob {
            shell: shell.clone()?,
            command,
            positional: positional.clone()?,
            pairs: pairs.clone()?,
            removed: removed.clone()?,
            folder: folder.clone()?,
            quiet: *quiet,
        })
    }
}

impl Clone for CommandJob {
    ghost is_clone = { λ s t. t ≡ s };

    fn clone(&self) -> Result<CommandJob, AllocError> {
        Ok(CommandJob {
            shell: self.shell.clone()?,
            command: self.command.clone()?,
            positional: self.positional.clone()?,
            pairs: self.pairs.clone()?,
            removed: self.removed.clone()?,
            folder: self.folder.clone()?,
            quiet: self.quiet,
        })
    }
}

impl Clone for ScriptJob {
    ghost is_clone = { λ s t. t ≡ s };

    #[tactic(auto, using(crate::proofs::Cloned::same_elements))]
    fn clone(&self) -> Result<ScriptJob, AllocError> {
        Ok(ScriptJob {
            interpreter: self.interpreter.clone()?,
            lines: self.lines.clone()?,
            positional: self.positional.clone()?,
            extension: self.extension.clone()?,
            pairs: self.pairs.clone()?,
            removed: self.removed.clone()?,
            folder: self.folder.clone()?,
        })
    }
}

impl Clone for DotenvRequest {
    ghost is_clone = { λ s t. t ≡ s };

    #[tactic(auto, using(crate::proofs::Cloned::same_elements))]
    fn clone(&self) -> Result<DotenvRequest, AllocError> {
        Ok(DotenvRequest {
            folder: self.folder.clone()?,
            load: self.load,
            filenames: self.filenames.clone()?,
            paths: self.paths.clone()?,
            command: self.command.clone()?,
            overriding: self.overriding,
            required: self.required,
        })
    }
}
