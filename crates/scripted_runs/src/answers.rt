//! What questions are answered.
use crate::questions::question_text;
use just_run::{Answer, HostFault, Question};
use justfile_syntax::Text;
use std::alloc::{AllocError, Global};

/// What a question is answered.
#[derive(Clone, Copy)]
pub enum Reply<'a> {
    Text(&'a str),
    Truth(bool),
    Absent,
    Code(u8),
    Signal(u8),
    NotStarted,
    NotUnicode(&'a str),
    Io(&'a str),
    Memory,
}

/// How all questions are answered.
#[derive(Clone, Copy)]
pub enum Answers<'a> {
    /// A command prints its own text, and ends with code 3 where it begins with `fail`; all else is
    /// absent.
    Echo,
    /// All are answered this.
    Always(Reply<'a>),
    /// By the question in words; what no row names is absent.
    Table(&'a [(&'a str, Reply<'a>)]),
    /// Row after row: each question has the next row, and is absent where that row names another.
    InTurn(&'a [(&'a str, Reply<'a>)]),
}

/// The answer that the reply stands for.
fn answer(alloc: Global, reply: Reply<'_>) -> Result<Answer, AllocError> {
    Ok(match reply {
        Reply::Text(text) => Answer::Text(Text::from_text(alloc, text)?),
        Reply::Truth(truth) => Answer::Truth(truth),
        Reply::Absent => Answer::Absent,
        Reply::Code(code) => Answer::Fault(HostFault::Code(code)),
        Reply::Signal(signal) => Answer::Fault(HostFault::Signal(signal)),
        Reply::NotStarted => Answer::Fault(HostFault::NotStarted),
        Reply::NotUnicode(text) => {
            Answer::Fault(HostFault::NotUnicode(Text::from_text(alloc, text)?))
        }
        Reply::Io(text) => Answer::Fault(HostFault::Io(Text::from_text(alloc, text)?)),
        Reply::Memory => Answer::Fault(HostFault::Memory),
    })
}

/// The command's own text; nothing for other questions.
fn echo(question: &Question) -> Result<Answer, AllocError> {
    let Question::Command(job) = question else {
        return Ok(Answer::Absent);
    };
    if job.command.as_str().starts_with("fail") {
        return Ok(Answer::Fault(HostFault::Code(3)));
    }
    Ok(Answer::Text(job.command.clone()?))
}

/// The reply to the question that is told so.
fn known<'a>(table: &[(&'a str, Reply<'a>)], told: &str) -> Reply<'a> {
    for (question, reply) in table {
        if *question == told {
            return *reply;
        }
    }
    Reply::Absent
}

/// The reply of this row, if it is to the question that is told so.
fn known_at<'a>(table: &[(&'a str, Reply<'a>)], row: usize, told: &str) -> Reply<'a> {
    match table.get(row) {
        Some((question, reply)) if *question == told => *reply,
        _ => Reply::Absent,
    }
}

/// The table's answer to the question.
fn looked_up(
    alloc: Global,
    table: &[(&str, Reply<'_>)],
    question: &Question,
) -> Result<Answer, AllocError> {
    let told = question_text(alloc, question)?;
    answer(alloc, known(table, told.as_str()))
}

/// The answer of this row to the question.
fn answered_at(
    alloc: Global,
    table: &[(&str, Reply<'_>)],
    row: usize,
    question: &Question,
) -> Result<Answer, AllocError> {
    let told = question_text(alloc, question)?;
    answer(alloc, known_at(table, row, told.as_str()))
}

impl Answers<'_> {
    /// The answer to the question, before which so many were asked.
    pub(crate) fn answer(
        self,
        alloc: Global,
        question: &Question,
        before: usize,
    ) -> Result<Answer, AllocError> {
        match self {
            Answers::Echo => echo(question),
            Answers::Always(reply) => answer(alloc, reply),
            Answers::Table(table) => looked_up(alloc, table, question),
            Answers::InTurn(table) => answered_at(alloc, table, before, question),
        }
    }
}
