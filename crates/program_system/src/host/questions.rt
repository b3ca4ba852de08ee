//! Questions that are asked while texts are evaluated.
use crate::host::answer::{decoded, fault_of, io_fault, text_answer, variable};
use crate::host::ended::status_of;
use crate::host::job::command_process;
use crate::host::program::which;
use crate::host::shell::Shell;
use just_host::{Answer, CommandJob, Host, HostFault, MachineFact, Question, Status};
use just_text::Text;
use std::alloc::Global;
use std::io::{Input, Write};
use std::process::{Command, Output, Processes, Stdio};
use std::rt::{Env, Files};
use std::{env, fs, io};

/// What a process printed, if it ended with code 0.
fn printed(alloc: Global, output: Output) -> Answer {
    match status_of(output.status) {
        Status::Code(0) => decoded(alloc, output.stdout),
        Status::Code(code) => Answer::Fault(HostFault::Code(code)),
        Status::Signal(signal) => Answer::Fault(HostFault::Signal(signal)),
        Status::NotStarted => Answer::Fault(HostFault::NotStarted),
    }
}

/// Runs a process and takes its standard output.
fn output_of<R: Processes>(rt: &R, command: &mut Command, quiet: bool) -> io::Result<Output> {
    command.stdin(Stdio::inherit());
    command.stderr(if quiet {
        Stdio::null()
    } else {
        Stdio::inherit()
    });
    command.output(rt)
}

/// What a command prints.
fn command_answer<R: Processes + Alloc<A = Global>>(rt: &R, job: &CommandJob) -> Answer {
    let Ok(mut command) = command_process(rt.alloc(), job) else {
        return Answer::Fault(HostFault::Memory);
    };
    match output_of(rt, &mut command, job.quiet) {
        Ok(output) => printed(rt.alloc(), output),
        Err(fault) if fault.kind() == io::ErrorKind::OutOfMemory => {
            Answer::Fault(HostFault::Memory)
        }
        Err(_) => Answer::Fault(HostFault::NotStarted),
    }
}

/// The contents of a file.
fn read<R: Files + Alloc<A = Global>>(rt: &R, path: &str) -> Answer {
    match fs::read(rt, path) {
        Ok(bytes) => decoded(rt.alloc(), bytes),
        Err(fault) => Answer::Fault(io_fault(rt.alloc(), &fault)),
    }
}

/// Whether there is something at the path; there is nothing where that can't be told.
fn exists<R: Files>(rt: &R, path: &str) -> Answer {
    Answer::Truth(fs::exists(rt, path).unwrap_or(false))
}

/// A path, or why there is none.
fn path_answer(alloc: Global, found: io::Result<std::path::PathBuf>) -> Answer {
    match found {
        Ok(path) => text_answer(String::from_str(alloc, path.as_str())),
        Err(fault) => Answer::Fault(io_fault(alloc, &fault)),
    }
}

/// The text, unless it is empty.
fn unless_empty(text: String) -> Answer {
    if text.is_empty() {
        return Answer::Absent;
    }
    Answer::Text(Text::from_string(text))
}

/// The user's own folder; an empty variable tells none.
fn home<R: Env + Alloc<A = Global>>(rt: &R) -> Answer {
    match env::var(rt, "HOME") {
        Ok(folder) => unless_empty(folder),
        Err(fault) => variable(rt.alloc(), Err(fault)),
    }
}

/// A fact about the machine.
fn fact<R: Files + Env + Alloc<A = Global>>(rt: &R, fact: MachineFact, process: u32) -> Answer {
    let alloc = rt.alloc();
    match fact {
        MachineFact::Executable => path_answer(alloc, env::current_exe(rt)),
        MachineFact::Pid => text_answer(format!(in alloc; "{process}")),
        MachineFact::Cpus => Answer::Fault(fault_of(alloc, "unknown")),
        MachineFact::Home => home(rt),
        _ => Answer::Absent,
    }
}

impl<'a, R: Processes + Files + Env + Input + Alloc<A = Global>, V: Write + Drop> Host
    for Shell<'a, R, V> {
    ghost goes = { λ _ _ _. Unit {0} };

    fn ask(&mut self, question: &Question) -> Answer {
        let rt = self.runtime();
        let alloc = rt.alloc();
        match question {
            Question::Command(job) => {
                self.flush();
                command_answer(rt, job)
            }
            Question::Environment(name) => variable(alloc, env::var(rt, name.as_str())),
            Question::Read(path) => read(rt, path.as_str()),
            Question::Exists(path) => exists(rt, path.as_str()),
            Question::Canonicalize(path) => path_answer(alloc, fs::canonicalize(rt, path.as_str())),
            Question::Which { name, folder } => which(rt, name.as_str(), folder.as_str()),
            Question::Fact(asked) => fact(rt, *asked, self.process()),
        }
    }

    ghost nothing = { λ _. tt };

    ghost joins = { λ _ _ _ _ _ _ _. tt };
}
