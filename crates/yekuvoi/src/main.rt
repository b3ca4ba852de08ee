//! The program: runs what its words name of the justfile of a folder.
#![tactic(auto)]

mod replace;
mod switch;

use anyhow::{Context, Result, bail};
use just_lexer::Excerpt;
use just_run::{Config, Device, Fault, Outcome, Recorded, drive_and_leak};
use just_value::Positional;
use justfile_syntax::{Os, Text};
use program_loader::{base_folder, clean_folder, find_root, load};
use program_system::{Environment, Shell};
use replace::{Change, NEW_NAME, Replaced, replace};
use semver::Version;
use std::alloc::{AllocError, Global};
use std::collections::BTreeMap;
use std::io::{BufWriter, Write};
use std::process::ExitCode;
use std::{env, io, process};
use switch::{Start, read_start};

/// A project, as the words name it.
#[derive(Drop)]
struct Project {
    /// The folder of the root file.
    base: String,
    /// The root file by the words' search directory.
    roots: BTreeMap<Option<String>, String>,
    /// The files by their paths below the folder.
    sources: BTreeMap<String, String>,
}

impl Project {
    /// The text of the file at the path, as it was read; nothing where it has none.
    fn text(&self, path: &str) -> &str {
        match self.sources.get(path) {
            Some(text) => text.as_str(),
            None => "",
        }
    }
}

/// The program's words, without its name.
fn words(rt: &HostRuntime) -> Result<Vec<String>> {
    let mut words = Vec::new(rt.alloc());
    let mut given = env::args(rt).context("could not read the words")?;
    let _name = given.next();
    for word in given {
        words.push(word)?;
    }
    Ok(words)
}

/// The folder that the program was started in.
fn current_folder(rt: &HostRuntime) -> Result<String> {
    let folder = env::current_dir(rt).context("could not find the current folder")?;
    Ok(String::from_str(rt.alloc(), folder.as_str())?)
}

/// How the program runs what it is given.
fn config(alloc: Global, base: &str, current: &str, start: &Start) -> Result<Config> {
    Ok(Config {
        os: Os::Linux,
        arch: String::from_str(alloc, "x86_64")?,
        base: String::from_str(alloc, base)?,
        working_directory: String::from_str(alloc, base)?,
        invocation_directory: String::from_str(alloc, current)?,
        dry_run: start.dry_run,
        yes: start.yes,
        no_dependencies: false,
        quiet: false,
        loquacious: false,
        unstable: false,
        jobs: None,
        shell: None,
        shell_args: None,
        recursion_limit: 256,
        version: Version::new(1, 58, 0),
    })
}

/// The search directory as a key.
fn root_key(alloc: Global, directory: Option<&Text>) -> Result<Option<String>> {
    match directory {
        Some(directory) => Ok(Some(String::from_str(alloc, directory.as_str())?)),
        None => Ok(None),
    }
}

/// The root file's name under the search directory.
fn roots(
    alloc: Global,
    directory: Option<&Text>,
    name: &str,
) -> Result<BTreeMap<Option<String>, String>> {
    let mut roots = BTreeMap::new(alloc);
    roots.insert(root_key(alloc, directory)?, String::from_str(alloc, name)?)?;
    Ok(roots)
}

/// The folder that the search directory names.
fn project_folder(
    rt: &HostRuntime,
    current: &str,
    directory: Option<&Text>,
) -> Result<String, AllocError> {
    let joined = base_folder(rt.alloc(), current, directory)?;
    clean_folder(rt, joined)
}

/// The project in the folder that the search directory names. Without a root file it is empty.
fn read_project(rt: &HostRuntime, current: &str, directory: Option<&Text>) -> Result<Project> {
    let alloc = rt.alloc();
    let base = project_folder(rt, current, directory)?;
    let Some(name) = find_root(rt, base.as_str())? else {
        return Ok(Project {
            base,
            roots: BTreeMap::new(alloc),
            sources: BTreeMap::new(alloc),
        });
    };
    let sources = load(rt, base.as_str(), name.as_str())?;
    let roots = roots(alloc, directory, name.as_str())?;
    Ok(Project {
        base,
        roots,
        sources,
    })
}

/// Shows why the run ended, unless nothing is to be said of it, and gives the status to end with.
fn report<W: Write>(shown: &mut W, fault: &Fault) -> u8 {
    if fault.is_silent() {
        return fault.status();
    }
    let _ = writeln!(shown, "error: {fault}");
    if let Some(token) = fault.place() {
        let _ = writeln!(shown, "{}", Excerpt(&token));
    }
    let _ = shown.flush();
    fault.status()
}

/// Tells why the file is as it was, if it is.
fn ensure_replaced(replaced: Replaced, path: &str) -> Result<()> {
    match replaced {
        Replaced::Whole => Ok(()),
        Replaced::Taken => bail!("`{NEW_NAME}` is there: another run makes it, or left it"),
        Replaced::Changed => bail!("`{path}` was changed during the run"),
    }
}

/// Puts the formatted text in the place of the root file, if it is another one.
fn rewrite(rt: &HostRuntime, project: &Project, outcome: Outcome) -> Result<()> {
    let Outcome::Formatted { path, text } = outcome else {
        return Ok(());
    };
    let change = Change {
        before: project.text(path.as_str()),
        after: text.as_str(),
    };
    if change.before == change.after {
        return Ok(());
    }
    let replaced = replace(rt, project.base.as_str(), path.as_str(), change)?;
    ensure_replaced(replaced, path.as_str())
}

/// Drives the project by the words, and gives the status to end with.
fn drive_project(
    rt: &HostRuntime,
    config: &Config,
    project: &Project,
    start: Start,
    words: &[String],
) -> Result<u8> {
    let alloc = rt.alloc();
    let environment = Environment::read(rt)?;
    let shown = BufWriter::new(alloc, rt.stderr())?;
    let shell = Shell::new(rt, shown, config.base.as_str(), process::id(rt.process()));
    let mut host = Recorded::new(alloc, shell);
    let mut out = Device::new(alloc, io::writer(rt));
    let answer = drive_and_leak(
        alloc,
        config,
        &environment,
        &project.sources,
        &project.roots,
        words,
        start.action,
        &mut host,
        &mut out,
    );
    let exhausted = host.exhausted();
    let mut shown = host.into_host_and_leak().into_shown();
    match answer {
        Ok(_) if exhausted => Ok(report(&mut shown, &Fault::OutOfMemory)),
        Ok(outcome) => {
            let _ = shown.flush();
            rewrite(rt, project, outcome)?;
            Ok(0)
        }
        Err(fault) => Ok(report(&mut shown, &fault)),
    }
}

/// The largest block, in bytes, that glibc maps from the system for itself once one of its size was
/// freed.
const LARGEST_MAPPED: usize = 33_546_240;

/// A block, in bytes, two of which glibc keeps once they are freed.
const HALF_KEPT: usize = 33_400_000;

/// A block of that size, unused.
fn block(alloc: Global, size: usize) -> Result<Vec<u8>, AllocError> {
    Vec::with_capacity(alloc, size)
}

/// Takes large blocks and frees them, unused. From then on glibc keeps what is freed, where it would
/// give each large block back to the system: so the memory of the tokens is used again, and its pages
/// aren't made anew. The last two leave it room in one piece, so that a list that grows need not be
/// copied. With another allocator it does nothing.
fn keep_freed_blocks(alloc: Global) {
    drop(block(alloc, LARGEST_MAPPED));
    let first = block(alloc, HALF_KEPT);
    let second = block(alloc, HALF_KEPT);
    drop(second);
    drop(first);
}

/// Does what the program's words ask, and gives the status to end with.
fn run(rt: &HostRuntime) -> Result<u8> {
    let alloc = rt.alloc();
    keep_freed_blocks(alloc);
    let words = words(rt)?;
    let given = words.as_slice();
    let start = read_start(given);
    let rest = &given[start.count..];
    let positional = Positional::from_values(alloc, rest)?;
    let current = current_folder(rt)?;
    let project = read_project(rt, current.as_str(), positional.search_directory.as_ref())?;
    let config = config(alloc, project.base.as_str(), current.as_str(), &start)?;
    drive_project(rt, &config, &project, start, rest)
}

fn main(rt: HostRuntime) -> ExitCode {
    match run(&rt) {
        Ok(status) => ExitCode::from(status),
        Err(fault) => {
            let _ = eprintln!(rt; "error: {fault:#}");
            ExitCode::FAILURE
        }
    }
}
