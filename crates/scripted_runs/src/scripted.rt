//! A host that answers by a few fixed rules.
use crate::answers::Answers;
use just_run::{
    Answer, CommandJob, Confirmation, DotenvRequest, Host, HostFault, Pair, Question, RunHost,
    ScriptJob, Status,
};
use justfile_syntax::{Sequence, Text};
use std::alloc::{AllocError, Global};

/// How a question or event fails: a command that ends with code 3 or by signal 9, or that doesn't
/// start; and what only a question can come to.
#[derive(Clone, Copy, Debug)]
pub enum Failing {
    Code,
    Signal,
    NotStarted,
    NotUnicode,
    Io,
    Memory,
}

impl Failing {
    /// What a question or a request for files of variables comes to.
    fn fault(self, alloc: Global) -> HostFault {
        match self {
            Failing::Code => HostFault::Code(3),
            Failing::Signal => HostFault::Signal(9),
            Failing::NotStarted => HostFault::NotStarted,
            Failing::NotUnicode => HostFault::NotUnicode(text(alloc)),
            Failing::Io => HostFault::Io(text(alloc)),
            Failing::Memory => HostFault::Memory,
        }
    }

    /// How a command ends.
    fn status(self) -> Status {
        match self {
            Failing::Code => Status::Code(3),
            Failing::Signal => Status::Signal(9),
            _ => Status::NotStarted,
        }
    }

    /// What the user's answer is.
    fn confirmation(self) -> Confirmation {
        match self {
            Failing::Code => Confirmation::No,
            _ => Confirmation::Failed,
        }
    }
}

/// The text of a fault, which is empty where memory is refused.
fn text(alloc: Global) -> Text {
    match Text::from_text(alloc, "x") {
        Ok(text) => text,
        Err(_) => Text::from_string(String::new(alloc)),
    }
}

/// Answers questions by `answers` and each prompt with `confirmation`, and fails the question or event
/// at one place. The command `false` ends with code 1, `kill` by signal 9, `kill 200` by signal 200,
/// `missing` doesn't start, and all others end with code 0. Files of variables give `pairs`, unless they
/// are required.
#[derive(Drop)]
pub struct Scripted<'a> {
    pub alloc: Global,
    pub answers: Answers<'a>,
    /// Names and values.
    pub pairs: &'a [(&'a str, &'a str)],
    pub confirmation: Confirmation,
    pub failing: Failing,
    /// How many questions and events are still to come before the one that fails.
    pub left: usize,
    /// How many questions were asked.
    pub asked: usize,
}

impl Scripted<'_> {
    /// Whether this question or event fails; counts it.
    fn fails(&mut self) -> bool {
        let fails = self.left == 0;
        self.left = self.left.wrapping_sub(1);
        fails
    }

    /// How many questions came before this one; counts it.
    fn before(&mut self) -> usize {
        let before = self.asked;
        self.asked = before.wrapping_add(1);
        before
    }
}

/// How the command ends.
fn status(command: &str) -> Status {
    match command {
        "false" => Status::Code(1),
        "kill" => Status::Signal(9),
        "kill 200" => Status::Signal(200),
        "missing" => Status::NotStarted,
        _ => Status::Code(0),
    }
}

fn memory<T>(made: Result<T, AllocError>) -> Result<T, HostFault> {
    match made {
        Ok(value) => Ok(value),
        Err(_) => Err(HostFault::Memory),
    }
}

fn pair(alloc: Global, name: &str, value: &str) -> Result<Pair, AllocError> {
    Ok(Pair {
        name: Text::from_text(alloc, name)?,
        value: Text::from_text(alloc, value)?,
    })
}

/// The pairs of these names and values.
fn pairs(alloc: Global, known: &[(&str, &str)]) -> Result<Sequence<Pair>, AllocError> {
    let mut pairs = Sequence::new(alloc);
    for (name, value) in known {
        pairs.push(pair(alloc, name, value)?)?;
    }
    Ok(pairs)
}

impl Host for Scripted<'_> {
    ghost goes = { λ _ _ _. Unit {0} };

    fn ask(&mut self, question: &Question) -> Answer {
        if self.fails() {
            return Answer::Fault(self.failing.fault(self.alloc));
        }
        let before = self.before();
        match self.answers.answer(self.alloc, question, before) {
            Ok(answer) => answer,
            Err(_) => Answer::Fault(HostFault::Memory),
        }
    }

    ghost nothing = { λ _. tt };

    ghost joins = { λ _ _ _ _ _ _ _. tt };
}

impl RunHost for Scripted<'_> {
    fn line(&mut self, job: &CommandJob) -> Status {
        if self.fails() {
            return self.failing.status();
        }
        status(job.command.as_str())
    }

    fn script(&mut self, job: &ScriptJob) -> Status {
        if self.fails() {
            return self.failing.status();
        }
        match job.lines.as_slice().last() {
            Some(line) => status(line.as_str()),
            None => Status::Code(0),
        }
    }

    fn confirm(&mut self, _prompt: &str) -> Confirmation {
        if self.fails() {
            return self.failing.confirmation();
        }
        self.confirmation
    }

    fn show(&mut self, _text: &str) {}

    fn dotenv(&mut self, request: &DotenvRequest) -> Result<Sequence<Pair>, HostFault> {
        if self.fails() {
            return Err(self.failing.fault(self.alloc));
        }
        if request.required {
            return Err(HostFault::NotStarted);
        }
        memory(pairs(self.alloc, self.pairs))
    }
}
