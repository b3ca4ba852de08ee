//! What a run asks of the outside, and what it is answered.
ghost use Rattle.std.specs.Prelude.{◌≡◌, ◌∷◌, [], ◌++◌, ◌⊎◌, List, Some, codes};
ghost use Rattle.just_host.specs.declared.entry.Entry.{Entry};
ghost use Rattle.just_host.specs.declared.entry.Entry.TheVariants.{Asked, Line, Script, Confirm, Show, Dotenv};
ghost use Rattle.just_host.specs.declared.host.Status.{Status};
ghost use Rattle.just_host.specs.declared.host.Confirmation.{Confirmation};

use crate::job::{CommandJob, DotenvRequest, Pair, ScriptJob};
use just_text::{Sequence, Text};
use std::alloc::{AllocError, AllocFailed, Global};
use std::fmt;

/// A fact about the machine.
#[derive(Clone, Copy, Debug, PartialEq, Eq)]
pub enum MachineFact {
    /// The path of the program itself.
    Executable,
    /// The number of the program's process, in decimal.
    Pid,
    /// The number of processors, in decimal.
    Cpus,
    /// The user's folder for what can be made anew.
    Cache,
    /// The user's folder for settings.
    Config,
    /// The user's folder for settings of this machine alone.
    ConfigLocal,
    /// The user's folder for data.
    Data,
    /// The user's folder for data of this machine alone.
    DataLocal,
    /// The user's folder for programs.
    Runnable,
    /// The user's own folder.
    Home,
    /// The user's folder for what lasts as long as the session.
    Runtime,
}

/// What is asked while texts are evaluated.
#[derive(Drop)]
pub enum Question {
    /// What the command prints.
    Command(CommandJob),
    /// The value of the environment's variable of this name.
    Environment(Text),
    /// The contents of the file at this path.
    Read(Text),
    /// Whether there is something at this path.
    Exists(Text),
    /// The path without links and detours.
    Canonicalize(Text),
    /// The path of the program of this name, sought from this folder.
    Which { name: Text, folder: Text },
    Fact(MachineFact),
}

/// Why a question has no answer. It prints as the words after each.
#[derive(Debug, Drop)]
pub enum HostFault {
    /// A command ended with this code: `exit code N`.
    Code(u8),
    /// A command was ended by this signal: `signal N`.
    Signal(u8),
    /// `could not start`.
    NotStarted,
    /// These bytes, as far as they can be printed, are not UTF-8: `not unicode`.
    NotUnicode(Text),
    /// Any other fault, which prints as its text.
    Io(Text),
    /// `out of memory`.
    Memory,
}

/// What a question is answered.
#[derive(Drop)]
pub enum Answer {
    Text(Text),
    Truth(bool),
    /// There is no such thing.
    Absent,
    Fault(HostFault),
}

/// How a command or a script ended.
#[derive(Clone, Copy, Debug, PartialEq, Eq)]
pub enum Status {
    Code(u8),
    Signal(u8),
    NotStarted,
}

/// What the user said to a prompt.
#[derive(Clone, Copy, Debug, PartialEq, Eq)]
pub enum Confirmation {
    Yes,
    No,
    /// There was no answer to be had.
    Failed,
}

/// The outside, which answers what it likes.
pub trait Host {
    /// How these entries take the host along.
    ghost goes: { Self → List Entry → Self → Type 0 };

    fn ask(&mut self, question: &Question) -> Answer
        ensures { goes self.old (Asked question.now result ∷ []) self.new };

    /// Asked nothing, the host may stay as it is.
    ghost nothing: { (a : Self) → goes a [] a };

    /// Two rows of entries in order are one row.
    ghost joins: { (a b c : Self) (p q : List Entry) → goes a p b → goes b q c → goes a (p ++ q) c };
}

/// The outside of a run, which does what it likes with commands, scripts, prompts and texts.
pub trait RunHost: Host {
    /// What it may answer to a command or a script.
    ghost may_answer: { Status → Type 0 } = { λ _. Unit {0} };

    /// What it may answer to a prompt.
    ghost may_confirm: { Confirmation → Type 0 } = { λ _. Unit {0} };

    /// Runs a command.
    fn line(&mut self, job: &CommandJob) -> Status
        ensures along { Self.goes self.old (Line job.now result ∷ []) self.new }
        ensures allowed { may_answer result };

    /// Runs a script.
    fn script(&mut self, job: &ScriptJob) -> Status
        ensures along { Self.goes self.old (Script job.now result ∷ []) self.new }
        ensures allowed { may_answer result };

    /// Asks the user.
    fn confirm(&mut self, prompt: &str) -> Confirmation
        ensures along { Self.goes self.old (Confirm prompt.now result ∷ []) self.new }
        ensures allowed { may_confirm result };

    /// Shows a text.
    fn show(&mut self, text: &str)
        ensures { Self.goes self.old (Show text.now ∷ []) self.new };

    /// Reads files of variables.
    fn dotenv(&mut self, request: &DotenvRequest) -> Result<Sequence<Pair>, HostFault>
        ensures { Self.goes self.old (Dotenv request.now result ∷ []) self.new };
}

impl From<AllocError> for HostFault {
    ghost use Rattle.std.specs.Prelude.{◌≡◌};
    ghost use Rattle.just_host.specs.declared.host.HostFault.TheVariants.{Memory};

    ghost from_gives = { λ _ fault. fault ≡ Memory };

    fn from(_refused: AllocError) -> HostFault {
        HostFault::Memory
    }
}

impl<T: Drop> From<AllocFailed<T>> for HostFault {
    ghost use Rattle.std.specs.Prelude.{◌≡◌};
    ghost use Rattle.just_host.specs.declared.host.HostFault.TheVariants.{Memory};

    ghost from_gives = { λ _ fault. fault ≡ Memory };

    fn from(_refused: AllocFailed<T>) -> HostFault {
        HostFault::Memory
    }
}

impl HostFault {
    /// The fault of an answer of another kind than was asked for: it prints as
    /// `unexpected answer`. Memory's fault where memory is refused.
    pub fn unexpected(alloc: Global) -> HostFault
        ensures { (result ≡ HostFault.Io (codes "unexpected answer")) ⊎ (result ≡ HostFault.Memory) }
    {
        match Text::from_text(alloc, "unexpected answer") {
            Ok(text) => HostFault::Io(text),
            Err(_) => HostFault::Memory,
        }
    }
}

impl fmt::Display for HostFault {
    ghost use Rattle.just_host.specs.Faults.{fault_text};

    ghost output = { λ fault. Some (fault_text fault) };

    fn fmt<W: fmt::Write>(&self, f: &mut fmt::Formatter<W>) -> fmt::Result {
        match self {
            HostFault::Code(code) => write!(f, "exit code {code}"),
            HostFault::Signal(signal) => write!(f, "signal {signal}"),
            HostFault::NotStarted => write!(f, "could not start"),
            HostFault::NotUnicode(_) => write!(f, "not unicode"),
            HostFault::Io(text) => fmt::Display::fmt(text, f),
            HostFault::Memory => write!(f, "out of memory"),
        }
    }
}

impl Clone for Question {
    ghost is_clone = { λ s t. t ≡ s };

    fn clone(&self) -> Result<Question, AllocError> {
        Ok(match self {
            Question::Command(job) => Question::Command(job.clone()?),
            Question::Environment(name) => Question::Environment(name.clone()?),
            Question::Read(path) => Question::Read(path.clone()?),
            Question::Exists(path) => Question::Exists(path.clone()?),
            Question::Canonicalize(path) => Question::Canonicalize(path.clone()?),
            Question::Which { name, folder } => Question::Which {
                name: name.clone()?,
                folder: folder.clone()?,
            },
            Question::Fact(fact) => Question::Fact(*fact),
        })
    }
}

impl Clone for HostFault {
    ghost is_clone = { λ s t. t ≡ s };

    fn clone(&self) -> Result<HostFault, AllocError> {
        Ok(match self {
            HostFault::Code(code) => HostFault::Code(*code),
            HostFault::Signal(signal) => HostFault::Signal(*signal),
            HostFault::NotStarted => HostFault::NotStarted,
            HostFault::NotUnicode(text) => HostFault::NotUnicode(text.clone()?),
            HostFault::Io(text) => HostFault::Io(text.clone()?),
            HostFault::Memory => HostFault::Memory,
        })
    }
}

impl Clone for Answer {
    ghost is_clone = { λ s t. t ≡ s };

    fn clone(&self) -> Result<Answer, AllocError> {
        Ok(match self {
            Answer::Text(text) => Answer::Text(text.clone()?),
            Answer::Truth(truth) => Answer::Truth(*truth),
            Answer::Absent => Answer::Absent,
            Answer::Fault(fault) => Answer::Fault(fault.clone()?),
        })
    }
}
