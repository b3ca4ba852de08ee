//! A host over a record, and what the record keeps.
ghost use Rattle.std.specs.Prelude.{◌≡◌, ◌∷◌, [], refl, true, false, IfSome};
ghost use Rattle.std.proofs.Common.{◌∙◌};
ghost use Rattle.just_host.specs.Follows.{Follows, questions};
ghost use Rattle.just_host.specs.Steps.{idle, then, questions-join};
ghost use Rattle.just_host.specs.declared.entry.Entry.TheVariants.{Asked, Line, Script, Confirm, Show, Dotenv};
ghost use Rattle.just_host.specs.declared.host.Status.{Status};
ghost use Rattle.just_host.specs.declared.host.Confirmation.{Confirmation};

use just_host::{
    Answer, CommandJob, Confirmation, DotenvRequest, Entry, Host, HostFault, JobTemplate, Pair,
    Question, Recorded, RunHost, ScriptJob, Shared, Status,
};
use just_text::{Sequence, Text};
use std::alloc::{AllocError, Global};
use std::test::Fail;

/// Answers questions, and counts what it is asked.
#[derive(Drop)]
struct Counting {
    alloc: Global,
    asked: u8,
    commands: u8,
    prompts: u8,
    texts: u8,
}

impl Counting {
    fn new(alloc: Global) -> Counting {
        Counting {
            alloc,
            asked: 0,
            commands: 0,
            prompts: 0,
            texts: 0,
        }
    }
}

impl Host for Counting {
    ghost goes = { λ _ _ _. Unit {0} };

    fn ask(&mut self, question: &Question) -> Answer {
        self.asked = self.asked.saturating_add(1);
        match question {
            Question::Exists(_) => Answer::Truth(true),
            Question::Fact(_) => Answer::Absent,
            Question::Environment(name) => match name.clone() {
                Ok(name) => Answer::Text(name),
                Err(_) => Answer::Fault(HostFault::Memory),
            },
            _ => Answer::Fault(HostFault::Code(2)),
        }
    }

    ghost nothing = { λ _. tt };

    ghost joins = { λ _ _ _ _ _ _ _. tt };
}

impl RunHost for Counting {
    fn line(&mut self, _job: &CommandJob) -> Status {
        self.commands = self.commands.saturating_add(1);
        Status::Code(3)
    }

    fn script(&mut self, _job: &ScriptJob) -> Status {
        self.commands = self.commands.saturating_add(1);
        Status::Signal(9)
    }

    fn confirm(&mut self, _prompt: &str) -> Confirmation {
        self.prompts = self.prompts.saturating_add(1);
        Confirmation::No
    }

    fn show(&mut self, _text: &str) {
        self.texts = self.texts.saturating_add(1);
    }

    fn dotenv(&mut self, _request: &DotenvRequest) -> Result<Sequence<Pair>, HostFault> {
        self.asked = self.asked.saturating_add(1);
        Ok(Sequence::new(self.alloc))
    }
}

/// Passes its questions on to a record, and does nothing else.
#[derive(Drop)]
struct Planning<'a, G> {
    inner: &'a mut Recorded<G>,
}

impl<G: RunHost + Drop> Host for Planning<'_, G> {
    ghost goes = { λ a piece b. (b.inner.ghost_name ≡ a.inner.ghost_name) × Follows G.goes a.inner.now (questions piece) b.inner.now };

    fn ask(&mut self, question: &Question) -> Answer {
        self.inner.ask(question)
    }

    ghost nothing = { λ a. (refl, idle G.goes G.nothing a.inner.now) };

    ghost joins = { λ a b c p q first second. (second.0 ∙ first.0, questions-join (Follows G.goes) (then G.goes G.joins) a.inner.now b.inner.now c.inner.now p q first.1 second.1) };
}

impl<G: RunHost + Drop> RunHost for Planning<'_, G> {
    ghost use Rattle.just_host.specs.declared.host.Status.TheVariants.{Code};
    ghost use Rattle.just_host.specs.declared.host.Confirmation.TheVariants.{Yes};

    ghost may_answer = { λ status. status ≡ Code 0 };

    ghost may_confirm = { λ answer. answer ≡ Yes };

    fn line(&mut self, _job: &CommandJob) -> Status {
        Status::Code(0)
    }

    fn script(&mut self, _job: &ScriptJob) -> Status {
        Status::Code(0)
    }

    fn confirm(&mut self, _prompt: &str) -> Confirmation {
        Confirmation::Yes
    }

    fn show(&mut self, _text: &str) {}

    fn dotenv(&mut self, request: &DotenvRequest) -> Result<Sequence<Pair>, HostFault> {
        self.inner.dotenv(request)
    }
}

/// What a question, a command, a prompt and a request were answered.
#[derive(Drop)]
struct Answers {
    asked: Answer,
    line: Status,
    script: Status,
    confirm: Confirmation,
    dotenv: Result<Sequence<Pair>, HostFault>,
}

/// One of each.
#[derive(Drop)]
struct Asking {
    question: Question,
    line: CommandJob,
    script: ScriptJob,
    request: DotenvRequest,
}

/// The text; the empty one where memory is refused.
fn text(alloc: Global, text: &str) -> Text {
    match Text::from_text(alloc, text) {
        Ok(text) => text,
        Err(_) => Text::from_string(String::new(alloc)),
    }
}

fn command_job(alloc: Global) -> Result<CommandJob, AllocError> {
    let template = JobTemplate {
        shell: Shared::new(alloc, Sequence::new(alloc))?,
        positional: Shared::new(alloc, Sequence::new(alloc))?,
        pairs: Shared::new(alloc, Sequence::new(alloc))?,
        removed: Shared::new(alloc, Sequence::new(alloc))?,
        folder: Shared::new(alloc, None)?,
        quiet: true,
    };
    template.job(text(alloc, "make"))
}

fn script_job(alloc: Global) -> ScriptJob {
    ScriptJob {
        interpreter: Sequence::new(alloc),
        lines: Sequence::new(alloc),
        positional: Sequence::new(alloc),
        extension: None,
        pairs: Sequence::new(alloc),
        removed: Sequence::new(alloc),
        folder: Some(text(alloc, "/")),
    }
}

fn dotenv_request(alloc: Global) -> DotenvRequest {
    DotenvRequest {
        folder: text(alloc, "/"),
        load: true,
        filenames: Sequence::new(alloc),
        paths: Sequence::new(alloc),
        command: Sequence::new(alloc),
        overriding: false,
        required: false,
    }
}

fn boxed<T: Drop>(alloc: Global, value: T) -> Result<Box<T>, AllocError> {
    Ok(Box::new(alloc, value)?)
}

fn one_of_each(alloc: Global) -> Result<Box<Asking>, AllocError> {
    let asking = Asking {
        question: Question::Environment(text(alloc, "HOME")),
        line: command_job(alloc)?,
        script: script_job(alloc),
        request: dotenv_request(alloc),
    };
    boxed(alloc, asking)
}

/// Asks for one of each, in order.
fn ask_all<H: RunHost + Drop>(host: &mut Recorded<H>, asking: &Asking) -> Answers
    ensures followed { Follows H.goes host.old (Asked asking.now.question result.asked ∷ Line asking.now.line result.line ∷ Script asking.now.script result.script ∷ Confirm [] result.confirm ∷ Show [] ∷ Dotenv asking.now.request result.dotenv ∷ []) host.new }
    ensures allowed { host.new.exhausted ≡ false → (H.may_answer result.line) × (H.may_answer result.script) × (H.may_confirm result.confirm) }
{
    let asked = host.ask(&asking.question);
    let line = host.line(&asking.line);
    let script = host.script(&asking.script);
    let confirm = host.confirm("");
    host.show("");
    let dotenv = host.dotenv(&asking.request);
    Answers {
        asked,
        line,
        script,
        confirm,
        dotenv,
    }
}

/// Asks for one of each through a second record, and does nothing else.
fn plan<G: RunHost + Drop>(
    alloc: Global,
    host: &mut Recorded<G>,
    asking: &Asking,
) -> Option<Answers>
    ensures answered { IfSome result (λ r. (r.line ≡ Status.Code 0) × (r.script ≡ Status.Code 0) × (r.confirm ≡ Confirmation.Yes)) }
    ensures followed { IfSome result (λ r. Follows G.goes host.old (Asked asking.now.question r.asked ∷ Dotenv asking.now.request r.dotenv ∷ []) host.new) }
{
    let mut planned = Recorded::new(alloc, Planning { inner: host });
    let answers = ask_all(&mut planned, asking);
    let exhausted = planned.exhausted();
    let Planning { inner: _inner } = planned.into_host();
    if exhausted { None } else { Some(answers) }
}

/// Plans within a plan: the outermost record grows by the questions alone.
fn plan_deep<G: RunHost + Drop>(
    alloc: Global,
    host: &mut Recorded<G>,
    asking: &Asking,
) -> Option<Answers>
    ensures { IfSome result (λ r. Follows G.goes host.old (Asked asking.now.question r.asked ∷ Dotenv asking.now.request r.dotenv ∷ []) host.new) }
{
    let mut planned = Recorded::new(alloc, Planning { inner: host });
    let answers = plan(alloc, &mut planned, asking);
    let exhausted = planned.exhausted();
    let Planning { inner: _inner } = planned.into_host();
    if exhausted { None } else { answers }
}

fn is_home(question: &Question) -> bool {
    match question {
        Question::Environment(name) => name.as_str() == "HOME",
        _ => false,
    }
}

fn is_text(answer: &Answer, text: &str) -> bool {
    match answer {
        Answer::Text(found) => found.as_str() == text,
        _ => false,
    }
}

fn is_root(folder: &Option<Text>) -> bool {
    match folder {
        Some(folder) => folder.as_str() == "/",
        None => false,
    }
}

/// Whether the job is that of `command_job`.
fn is_command(job: &CommandJob) -> bool {
    job.shell.is_empty()
        && job.command.as_str() == "make"
        && job.positional.is_empty()
        && job.pairs.is_empty()
        && job.removed.is_empty()
        && job.folder.is_none()
        && job.quiet
}

/// Whether the job is that of `script_job`.
fn is_script(job: &ScriptJob) -> bool {
    job.interpreter.is_empty()
        && job.lines.is_empty()
        && job.positional.is_empty()
        && job.extension.is_none()
        && job.pairs.is_empty()
        && job.removed.is_empty()
        && is_root(&job.folder)
}

/// Whether the request is that of `dotenv_request`.
fn is_request(request: &DotenvRequest) -> bool {
    request.folder.as_str() == "/"
        && request.load
        && request.filenames.is_empty()
        && request.paths.is_empty()
        && request.command.is_empty()
        && !request.overriding
        && !request.required
}

fn are_no_pairs(answer: &Result<Sequence<Pair>, HostFault>) -> bool {
    match answer {
        Ok(pairs) => pairs.is_empty(),
        Err(_) => false,
    }
}

/// Whether the answers are those of `Counting`.
fn are_counted_answers(answers: &Answers) -> bool {
    is_text(&answers.asked, "HOME")
        && answers.line == Status::Code(3)
        && answers.script == Status::Signal(9)
        && answers.confirm == Confirmation::No
        && are_no_pairs(&answers.dotenv)
}

/// Whether this is one of each with the answer of `Counting`, by its place in the order.
fn is_entry(place: usize, entry: &Entry) -> bool {
    match (place, entry) {
        (0, Entry::Asked(question, answer)) => is_home(question) && is_text(answer, "HOME"),
        (1, Entry::Line(job, status)) => is_command(job) && *status == Status::Code(3),
        (2, Entry::Script(job, status)) => is_script(job) && *status == Status::Signal(9),
        (3, Entry::Confirm(prompt, answer)) => prompt.is_empty() && *answer == Confirmation::No,
        (4, Entry::Show(text)) => text.is_empty(),
        (5, Entry::Dotenv(request, answer)) => is_request(request) && are_no_pairs(answer),
        _ => false,
    }
}

/// Whether the entries are those of each, in order.
fn are_entries(entries: &[Entry]) -> bool {
    for (place, entry) in entries.iter().enumerate() {
        if !is_entry(place, entry) {
            return false;
        }
    }
    entries.len() == 6
}

/// Whether one of each is answered and kept.
fn is_kept(host: &mut Recorded<Counting>, asking: &Asking) -> bool {
    let answers = ask_all(host, asking);
    are_counted_answers(&answers) && !host.exhausted() && are_entries(host.entries())
}

/// Whether one of each is answered through two plans, as a plan answers a command.
fn is_planned(alloc: Global, host: &mut Recorded<Counting>, asking: &Asking) -> bool {
    match plan_deep(alloc, host, asking) {
        Some(answers) => answers.line == Status::Code(0),
        None => false,
    }
}

/// How often a host was asked, how many commands it ran, how often it prompted and showed.
fn counts(host: Recorded<Counting>) -> [u8; 4] {
    let counted = host.into_host();
    [
        counted.asked,
        counted.commands,
        counted.prompts,
        counted.texts,
    ]
}

/// What a host counts that is asked for one of each; nothing where an answer or an entry differs.
fn counts_asked(alloc: Global, asking: &Asking) -> [u8; 4] {
    let mut host = Recorded::new(alloc, Counting::new(alloc));
    if !is_kept(&mut host, asking) {
        return [0; 4];
    }
    counts(host)
}

/// What a host counts for which one of each is planned; nothing where an answer or how many
/// entries are kept differs.
fn counts_planned(alloc: Global, asking: &Asking) -> [u8; 4] {
    let mut host = Recorded::new(alloc, Counting::new(alloc));
    if !is_planned(alloc, &mut host, asking) || host.exhausted() || host.entries().len() != 2 {
        return [0; 4];
    }
    counts(host)
}

#[test]
fn everything_is_kept_in_order(rt: HostRuntime) -> Result<(), Fail> {
    let asking = one_of_each(rt.alloc())?;
    let counted = counts_asked(rt.alloc(), &asking);
    assert!(rt; counted == [2, 2, 1, 1]);
    Ok(())
}

#[test]
fn a_plan_asks_and_does_nothing(rt: HostRuntime) -> Result<(), Fail> {
    let asking = one_of_each(rt.alloc())?;
    let counted = counts_planned(rt.alloc(), &asking);
    assert!(rt; counted == [2, 0, 0, 0]);
    Ok(())
}
