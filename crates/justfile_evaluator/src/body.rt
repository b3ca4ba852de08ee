//! Bodies whose lines are commands.
ghost use Rattle.std.specs.Prelude.{◌≡◌, ◌++◌, ◌∷◌, ◌-◌, length, slice_get, [], true, false, Err, IfErr, IfOk, IfSome, None, OnOk, map, option_map};
ghost use Rattle.std.specs.String.{string_bytes};
ghost use Rattle.just_text.specs.Tokens.{lexeme};
ghost use Rattle.tree_items.specs.Lines.{is_byte, pieces_of, sigils_of};
ghost use Rattle.just_host.specs.Kinds.{AsksQuestions, AsksWork};
ghost use Rattle.just_host.specs.Follows.{Follows};
ghost use Rattle.just_host.specs.declared.entry.Entry.TheVariants.{Show};
ghost use Rattle.laws_evaluation.specs.Bodies.Left.{added};
ghost use Rattle.laws_evaluation.specs.Bodies.Marked.{EndsSlashed};
ghost use Rattle.laws_evaluation.specs.Bodies.Performing.{Performs};
ghost use Rattle.meaning_evaluation.specs.Bodies.{first_of, goes_on_below};
ghost use Rattle.justfile_evaluator.specs.Bodies.{IsBodyOf, IsSiteOf, MeansLine, NamedBody, lines_of, task_of};
ghost use Rattle.justfile_evaluator.specs.Ended.{SaysSo, ended, next_of};
ghost use Rattle.justfile_evaluator.specs.Sites.{folder_in, job_by, shows_in, template_in, words_in};
ghost use Rattle.justfile_evaluator.specs.Turns as spec;
ghost use Rattle.justfile_evaluator.specs.Turns.{EndsInText, IsHeld, IsMarked, IsPut, IsSound, Reads, Turns, unmarked_text};

use crate::fault::RunFault;
use crate::line::line_text;
use crate::script::run_script;
use crate::site::{Site, folder_of, judge};
use evaluate_builtins::job_template;
use evaluate_context::Error;
use evaluate_expressions::Evaluator;
use just_host::{CommandJob, JobTemplate, Recorded, RunHost};
use just_text::Text;
use std::alloc::{AllocError, Global};
use tree_items::{Fragment, Line, Sigils};

/// A command of one or more lines, as far as they were read.
#[derive(Drop)]
struct Command {
    text: String,
    /// The marks of its first line.
    sigils: Sigils,
    /// Whether the next line goes on with it.
    is_open: bool,
}

/// Whether the text ends with a backslash.
fn ends_in_backslash(text: &str) -> bool
    ensures { result ≡ is_byte 92 (slice_get text.now (length text.now - 1)) }
{
    match text.as_bytes().last() {
        Some(byte) => *byte == b'\\',
        None => false,
    }
}

/// Whether the line ends with a text that ends with a backslash, so that the next one goes on with
/// it.
fn goes_on(line: &Line) -> bool
    ensures valid { EndsInText (pieces_of line.now) }
    ensures is { result ≡ goes_on_below (pieces_of line.now) }
{
    match line.fragments.last() {
        Some(Fragment::Text { token }) => ends_in_backslash(token.lexeme()),
        _ => false,
    }
}

impl Command {
    fn new(alloc: Global) -> Command
        ensures { result.is_open ≡ false }
    {
        Command {
            text: String::new(alloc),
            sigils: Sigils {
                guard: false,
                infallible: false,
                quiet: false,
            },
            is_open: false,
        }
    }

    /// Begins with the line and its text.
    fn begin(&mut self, line: &Line, text: String, guards: bool)
        ensures marks { self.new.sigils ≡ sigils_of guards (first_of (pieces_of line.now)) }
        ensures text { string_bytes self.new.text ≡ string_bytes text }
    {
        self.sigils = line.sigils(guards);
        self.text = text;
    }

    /// Whether the next line goes on with the command after this one, whose backslash is left out
    /// then.
    fn end_line(&mut self, line: &Line)
        ensures valid { EndsInText (pieces_of line.now) }
        ensures goes_on { self.new.is_open ≡ goes_on_below (pieces_of line.now) }
        ensures marks { self.new.sigils ≡ self.old.sigils }
        ensures text { (goes_on_below (pieces_of line.now) ≡ true → EndsSlashed (string_bytes self.old.text)) → string_bytes self.new.text ≡ added (pieces_of line.now) (string_bytes self.old.text) }
    {
        self.is_open = goes_on(line);
        if !self.is_open {
            return;
        }
        let _backslash = self.text.pop();
    }

    /// The first line, or one that goes on with the command: its text, and whether the next goes on.
    fn put(&mut self, line: &Line, text: String, guards: bool) -> Result<(), AllocError>
        ensures { OnOk result (IsPut guards self.old (pieces_of line.now) (string_bytes text) self.new) }
    {
        if !self.is_open {
            self.begin(line, text, guards);
            self.end_line(line);
            return Ok(());
        }
        self.text.push_str(text.as_str())?;
        self.end_line(line);
        Ok(())
    }

    /// The text after the marks.
    fn behind_sigils(&self) -> &str
        ensures { IsMarked self.now → result.now ≡ unmarked_text self.now }
    {
        let text = self.text.as_str();
        let count = self.sigils.count();
        if count <= text.len() && text.is_char_boundary(count) {
            &text[count..]
        } else {
            text
        }
    }
}

/// How far a body ran.
#[derive(Drop)]
struct Progress {
    command: Command,
    /// What the body's commands have in common, once one was handed over.
    template: Option<JobTemplate>,
}

impl Progress {
    fn new(alloc: Global) -> Progress
        ensures command { result.command.is_open ≡ false }
        ensures template { result.template ≡ None }
    {
        Progress {
            command: Command::new(alloc),
            template: None,
        }
    }

    /// Takes out what the commands have in common, which the first of them makes.
    fn take_template(&mut self, alloc: Global, site: &Site) -> Result<JobTemplate, AllocError>
        ensures command { self.new.command ≡ self.old.command }
        ensures is { IsHeld site.now self.old → IfOk result (λ template. template ≡ template_in site.now) }
        ensures taken { self.new.template ≡ None }
    {
        match self.template.take() {
            Some(template) => Ok(template),
            None => job_template_of(alloc, site),
        }
    }

    /// What is handed over for the command.
    fn job(&mut self, alloc: Global, site: &Site) -> Result<CommandJob, AllocError>
        ensures command { self.new.command ≡ self.old.command }
        ensures held { IsHeld site.now self.old → IsHeld site.now self.new }
        ensures is { IsHeld site.now self.old → IsMarked self.old.command → IfOk result (λ job. job ≡ job_by (template_in site.now) (unmarked_text self.old.command)) }
    {
        let template = self.take_template(alloc, site)?;
        let command = Text::from_text(alloc, self.command.behind_sigils())?;
        let job = template.job(command)?;
        self.template = Some(template);
        Ok(job)
    }
}

/// Puts copies of the words after the others.
fn push_copies(words: &mut Vec<String>, more: &[String]) -> Result<(), AllocError>
    ensures { OnOk result (map string_bytes words.new.items ≡ map string_bytes words.old.items ++ map string_bytes more.now) }
{
    for word in more {
        words.push(word.clone()?)?;
    }
    Ok(())
}

/// The word alone.
fn one_word(alloc: Global, word: &str) -> Result<Vec<String>, AllocError>
    ensures { IfOk result (λ words. map string_bytes words.items ≡ word.now ∷ []) }
{
    let mut words = Vec::new(alloc);
    words.push(String::from_str(alloc, word)?)?;
    Ok(words)
}

/// The recipe's name and the parameters' values.
fn named_words(alloc: Global, site: &Site) -> Result<Vec<String>, AllocError>
    ensures { IfOk result (λ words. map string_bytes words.items ≡ lexeme site.now.name.token ∷ map string_bytes site.now.positional.now) }
{
    let mut words = one_word(alloc, site.name.lexeme())?;
    push_copies(&mut words, site.positional)?;
    Ok(words)
}

/// The words that a line's command gets, of which the first is the recipe's name.
fn line_words(alloc: Global, site: &Site) -> Result<Vec<String>, AllocError>
    ensures { IfOk result (λ words. map string_bytes words.items ≡ words_in site.now) }
{
    if site.manner.passes_words {
        return named_words(alloc, site);
    }
    Ok(Vec::new(alloc))
}

/// What the body's commands have in common in this folder.
fn job_template_in(
    alloc: Global,
    site: &Site,
    folder: Option<&str>,
) -> Result<JobTemplate, AllocError>
    ensures { option_map (λ text. text.now) folder.entry ≡ folder_in site.now.context.now site.now.attributes.now → IfOk result (λ template. template ≡ template_in site.now) }
{
    let words = line_words(alloc, site)?;
    job_template(
        alloc,
        site.context,
        site.env,
        site.scope,
        folder,
        words.as_slice(),
    )
}

/// What the body's commands have in common.
fn job_template_of(alloc: Global, site: &Site) -> Result<JobTemplate, AllocError>
    ensures { IfOk result (λ template. template ≡ template_in site.now) }
{
    match folder_of(alloc, site.context, site.attributes)? {
        Some(folder) => job_template_in(alloc, site, Some(folder.as_str())),
        None => job_template_in(alloc, site, None),
    }
}

/// Hands the command over; whether the body goes on.
fn hand_over<'src, H: RunHost + Drop>(
    alloc: Global,
    host: &mut Recorded<H>,
    site: &Site<'_, 'src>,
    progress: &mut Progress,
) -> Result<bool, RunFault<'src>>
    ensures asks { AsksWork false H.goes host.old host.new }
    ensures command { progress.new.command ≡ progress.old.command }
    ensures held { IsHeld site.now progress.old → IsHeld site.now progress.new }
    ensures performs { (b : NamedBody) → IsSiteOf b site.now → IsHeld site.now progress.old → IsMarked progress.old.command → Performs b.reading (spec.handed b progress.old.command) host.old host.new (next_of result) }
    ensures said { IfErr result (SaysSo site.now.name site.now.manner.is_silent) }
{
    let job = progress.job(alloc, site)?;
    let status = host.line(&job);
    let sigils = progress.command.sigils;
    judge(site.name, status, sigils, site.manner.is_silent)
}

/// Shows a command where it is to be shown.
fn show<H: RunHost + Drop>(host: &mut Recorded<H>, site: &Site, command: &str, is_quiet: bool)
    ensures asks { AsksWork site.now.context.now.config.now.dry_run H.goes host.old host.new }
    ensures shown { shows_in site.now.manner site.now.context.now.config.now is_quiet ≡ true → Follows H.goes host.old (Show command.now ∷ []) host.new }
    ensures hidden { shows_in site.now.manner site.now.context.now.config.now is_quiet ≡ false → host.new ≡ host.old }
{
    let manner = site.manner;
    if !manner.shows_line(site.context.config, is_quiet) {
        return;
    }
    host.show(command);
}

/// Shows the command and hands it over; whether the body goes on.
fn run_line<'src, H: RunHost + Drop>(
    alloc: Global,
    host: &mut Recorded<H>,
    site: &Site<'_, 'src>,
    progress: &mut Progress,
) -> Result<bool, RunFault<'src>>
    ensures asks { AsksWork site.now.context.now.config.now.dry_run H.goes host.old host.new }
    ensures command { progress.new.command ≡ progress.old.command }
    ensures held { IsHeld site.now progress.old → IsHeld site.now progress.new }
    ensures performs { (b : NamedBody) → IsSiteOf b site.now → IsHeld site.now progress.old → IsMarked progress.old.command → Performs b.reading (spec.run b progress.old.command) host.old host.new (next_of result) }
    ensures said { IfErr result (SaysSo site.now.name site.now.manner.is_silent) }
{
    let text = progress.command.behind_sigils();
    if text.is_empty() {
        return Ok(true);
    }
    show(host, site, text, progress.command.sigils.quiet);
    if site.context.config.dry_run {
        return Ok(true);
    }
    hand_over(alloc, host, site, progress)
}

/// Evaluates a line and puts it to the command.
fn read_line<'src, H: RunHost + Drop>(
    alloc: Global,
    host: &mut Recorded<H>,
    evaluator: &Evaluator<'_, 'src>,
    command: &mut Command,
    line: &Line<'src>,
    guards: bool,
) -> Result<(), Error<'src>>
    ensures asks { AsksQuestions H.goes host.old host.new }
    ensures reads { (b : NamedBody) → guards ≡ b.scene.row.guards → MeansLine b evaluator.now line.now → IsSound command.old → Reads b command.old (pieces_of line.now) command.new host.old host.new result }
{
    let text = line_text(alloc, host, evaluator, line, command.is_open)?;
    command.put(line, text, guards)?;
    Ok(())
}

/// Whether the line is a comment that is left out: no command is open, and comments are left out.
#[tactic(auto, using(laws_evaluation::proofs::Bodies::Read::first_read))]
fn is_left_out(site: &Site, command: &Command, line: &Line) -> bool
    ensures { result ≡ spec.is_left_out site.now command.now (pieces_of line.now) }
{
    if command.is_open || !site.context.module.settings.ignore_comments {
        return false;
    }
    line.is_comment()
}

/// Reads a line, and runs the command if it ends there; whether the body goes on.
fn turn_line<'src, H: RunHost + Drop>(
    alloc: Global,
    host: &mut Recorded<H>,
    evaluator: &Evaluator<'_, 'src>,
    site: &Site<'_, 'src>,
    progress: &mut Progress,
    line: &Line<'src>,
) -> Result<bool, RunFault<'src>>
    ensures asks { AsksWork site.now.context.now.config.now.dry_run H.goes host.old host.new }
    ensures held { IsHeld site.now progress.old → IsHeld site.now progress.new }
    ensures turns { (b : NamedBody) → IsSiteOf b site.now → MeansLine b evaluator.now line.now → IsHeld site.now progress.old → Turns b progress.old.command (pieces_of line.now) progress.new.command host.old host.new result }
    ensures said { IfErr result (SaysSo site.now.name site.now.manner.is_silent) }
{
    if is_left_out(site, &progress.command, line) {
        return Ok(true);
    }
    let guards = site.context.module.settings.guards;
    read_line(alloc, host, evaluator, &mut progress.command, line, guards)?;
    if progress.command.is_open {
        return Ok(true);
    }
    run_line(alloc, host, site, progress)
}

/// Runs the lines of a body in order, up to the first that fails or a guard that ends it.
fn run_lines<'src, H: RunHost + Drop>(
    alloc: Global,
    host: &mut Recorded<H>,
    evaluator: &Evaluator<'_, 'src>,
    site: &Site<'_, 'src>,
    body: &[Line<'src>],
) -> Result<(), RunFault<'src>>
    ensures asks { AsksWork site.now.context.now.config.now.dry_run H.goes host.old host.new }
    ensures performs { (b : NamedBody) → IsBodyOf b site.now evaluator.now body.now → Performs b.reading (lines_of b) host.old host.new (ended result) }
    ensures said { IfErr result (SaysSo site.now.name site.now.manner.is_silent) }
{
    let mut progress = Progress::new(alloc);
    for line in body {
        if !turn_line(alloc, host, evaluator, site, &mut progress, line)? {
            return Ok(());
        }
    }
    if !progress.command.is_open {
        return Ok(());
    }
    let _goes_on = run_line(alloc, host, site, &mut progress)?;
    Ok(())
}

/// Runs the recipe's body.
pub fn run_body<'src, H: RunHost + Drop>(
    alloc: Global,
    host: &mut Recorded<H>,
    evaluator: &Evaluator<'_, 'src>,
    site: &Site<'_, 'src>,
    body: &[Line<'src>],
) -> Result<(), RunFault<'src>>
    ensures asks { AsksWork site.now.context.now.config.now.dry_run H.goes host.old host.new }
    ensures performs { (b : NamedBody) → IsBodyOf b site.now evaluator.now body.now → Performs b.reading (task_of b) host.old host.new (ended result) }
    ensures said { IfErr result (SaysSo site.now.name site.now.manner.is_silent) }
{
    if site.manner.is_script {
        return run_script(alloc, host, evaluator, site, body);
    }
    run_lines(alloc, host, evaluator, site, body)
}
