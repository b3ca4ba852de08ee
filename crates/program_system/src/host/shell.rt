//! The host.
use std::alloc::Global;
use std::io::{Input, Write};
use std::process::Processes;
use std::rt::{Env, Files};

/// A host that runs commands and scripts, reads files and variables, and asks the user.
#[derive(Drop)]
pub struct Shell<'a, R: Processes + Files + Env + Input + Alloc<A = Global>, V: Write + Drop> {
    /// What starts processes, and reads files, variables and standard input.
    rt: &'a R,
    /// Where texts are shown and prompts are written, which is flushed before a process starts.
    shown: V,
    /// The folder that script files are written to.
    folder: &'a str,
    /// The number of this process.
    process: u32,
}

impl<'a, R: Processes + Files + Env + Input + Alloc<A = Global>, V: Write + Drop> Shell<'a, R, V> {
    /// A host over the runtime, which shows texts on the writer, writes script files into the folder, and tells the
    /// number of its process. It takes no memory.
    pub fn new(rt: &'a R, shown: V, folder: &'a str, process: u32) -> Shell<'a, R, V> {
        Shell {
            rt,
            shown,
            folder,
            process,
        }
    }

    /// Gives the writer back.
    pub fn into_shown(self) -> V {
        self.shown
    }

    /// What the host reaches the system by.
    pub(crate) fn runtime(&self) -> &'a R {
        self.rt
    }

    /// The folder that script files are written to.
    pub(crate) fn script_folder(&self) -> &'a str {
        self.folder
    }

    /// The number of this process.
    pub(crate) fn process(&self) -> u32 {
        self.process
    }

    /// Where texts are shown.
    pub(crate) fn shown(&mut self) -> &mut V {
        &mut self.shown
    }

    /// Sends on what was shown and is kept back. A fault is passed over, as each fault of showing.
    pub(crate) fn flush(&mut self) {
        let _ = self.shown.flush();
    }
}
