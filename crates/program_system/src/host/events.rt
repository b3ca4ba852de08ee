//! Events of a run: commands, scripts, prompts, shown texts, and requests for variables.
use crate::host::answer::fault_of;
use crate::host::ended::status_of;
use crate::host::job::command_process;
use crate::host::prompt::answered;
use crate::host::script::run_script;
use crate::host::shell::Shell;
use just_host::{
    CommandJob, Confirmation, DotenvRequest, HostFault, Pair, RunHost, ScriptJob, Status,
};
use just_text::Sequence;
use std::alloc::Global;
use std::io::{Input, Write};
use std::process::{Command, Processes, Stdio};
use std::rt::{Env, Files};

/// Runs a process to its end.
fn run<R: Processes>(rt: &R, command: &mut Command, quiet: bool) -> Status {
    if quiet {
        command.stdout(Stdio::null());
        command.stderr(Stdio::null());
    }
    match command.status(rt) {
        Ok(ended) => status_of(ended),
        Err(_) => Status::NotStarted,
    }
}

/// Runs a command to its end.
fn run_command<R: Processes + Alloc<A = Global>>(rt: &R, job: &CommandJob) -> Status {
    match command_process(rt.alloc(), job) {
        Ok(mut command) => run(rt, &mut command, job.quiet),
        Err(_) => Status::NotStarted,
    }
}

impl<'a, R: Processes + Files + Env + Input + Alloc<A = Global>, V: Write + Drop> RunHost
    for Shell<'a, R, V> {
    fn line(&mut self, job: &CommandJob) -> Status {
        self.flush();
        run_command(self.runtime(), job)
    }

    fn script(&mut self, job: &ScriptJob) -> Status {
        self.flush();
        run_script(self.runtime(), self.script_folder(), job)
    }

    fn confirm(&mut self, prompt: &str) -> Confirmation {
        let _ = write!(self.shown(), "{prompt} ");
        self.flush();
        answered(self.runtime())
    }

    fn show(&mut self, text: &str) {
        let _ = writeln!(self.shown(), "{text}");
    }

    fn dotenv(&mut self, request: &DotenvRequest) -> Result<Sequence<Pair>, HostFault> {
        let alloc = self.runtime().alloc();
        if request.required {
            Err(fault_of(alloc, "dotenv files are not read"))
        } else {
            Ok(Sequence::new(alloc))
        }
    }
}
