//! A host with the record of what it was asked.
ghost use Rattle.std.specs.Prelude.{◌≡◌, ◌++◌, ◌∷◌, ◌<◌, [], true, false, IfSome, IfOk, Err};
ghost use Rattle.std.specs.Vec.{vec_len, vec_capacity};
ghost use Rattle.just_host.specs.Follows.{Follows};
ghost use Rattle.just_host.specs.declared.entry.Entry.TheVariants.{Asked, Line, Script, Confirm, Show, Dotenv};
ghost use Rattle.just_host.specs.declared.host.HostFault.TheVariants.{Memory};

use crate::entry::Entry;
use crate::host::{Answer, Confirmation, Host, HostFault, Question, RunHost, Status};
use crate::job::{CommandJob, DotenvRequest, Pair, ScriptJob};
use just_text::{Sequence, Text};
use std::alloc::{AllocError, Global};
use std::marker::Model;
use std::mem;

/// A host, and what was asked of it. It copies what is asked and grows its record before it asks;
/// where that is refused it asks nothing, then or later. Where the copy of an answer is refused,
/// the record keeps the answer, the caller gets memory's fault, and nothing is asked later.
#[derive(Drop)]
pub struct Recorded<H> {
    host: H,
    entries: Vec<Entry>,
    exhausted: bool,
    alloc: Global,
}

impl<H> Model for Recorded<H> {
    ghost use Rattle.just_host.specs.Record.{Record};

    ghost Value = { Record H };

    ghost view = { λ r. record { host = r.host; entries = r.entries.items; exhausted = r.exhausted } };
}

impl<H> Recorded<H> {
    /// An empty record, which takes no memory.
    pub fn new(alloc: Global, host: H) -> Recorded<H>
        ensures { result ≡ record { host = host; entries = []; exhausted = false } }
    {
        Recorded {
            host,
            entries: Vec::new(alloc),
            exhausted: false,
            alloc,
        }
    }

    /// What was asked, in order, with the answers.
    pub fn entries(&self) -> &[Entry]
        ensures { result.now ≡ self.now.entries }
    {
        self.entries.as_slice()
    }

    /// Whether memory was wanting: nothing was asked since.
    pub fn exhausted(&self) -> bool
        ensures { result ≡ self.now.exhausted }
    {
        self.exhausted
    }
}

impl<H: Drop> Recorded<H> {
    /// Gives the host back.
    pub fn into_host(self) -> H
        ensures { result ≡ self.host }
    {
        self.host
    }

    /// Gives the host back, and leaves the record to the system, as a program does that ends.
    pub fn into_host_and_leak(self) -> H
        ensures { result ≡ self.host }
    {
        mem::forget(self.entries);
        self.host
    }
}

impl<H: Host + Drop> Recorded<H> {
    /// Asks the host, and keeps the question with the answer. Memory's fault where memory is or
    /// was wanting.
    pub fn ask(&mut self, question: &Question) -> Answer
        ensures followed { Follows H.goes self.old (Asked question.now result ∷ []) self.new }
        ensures refused { self.new.exhausted ≡ true → result ≡ Answer.Fault Memory }
        ensures unasked { self.new.entries ≡ self.old.entries → self.new.host ≡ self.old.host }
    {
        let Some(kept) = prepared(self.exhausted, &mut self.entries, question) else {
            self.exhausted = true;
            return Answer::Fault(HostFault::Memory);
        };
        let answer = self.host.ask(question);
        let handed: Result<_, _> = answer.clone();
        self.entries.push(Entry::Asked(kept, answer)).unwrap();
        match handed {
            Ok(handed) => handed,
            Err(_) => {
                self.exhausted = true;
                Answer::Fault(HostFault::Memory)
            }
        }
    }
}

impl<H: RunHost + Drop> Recorded<H> {
    /// Runs a command, and keeps it with how it ended. `NotStarted` where memory is or was wanting.
    pub fn line(&mut self, job: &CommandJob) -> Status
        ensures followed { Follows H.goes self.old (Line job.now result ∷ []) self.new }
        ensures allowed { self.new.exhausted ≡ false → H.may_answer result }
        ensures refused { self.new.exhausted ≡ true → (self.new.entries ≡ self.old.entries) × (self.new.host ≡ self.old.host) × (result ≡ Status.NotStarted) }
    {
        let Some(kept) = prepared(self.exhausted, &mut self.entries, job) else {
            self.exhausted = true;
            return Status::NotStarted;
        };
        let status = self.host.line(job);
        self.entries.push(Entry::Line(kept, status)).unwrap();
        status
    }

    /// Runs a script, and keeps it with how it ended. `NotStarted` where memory is or was wanting.
    pub fn script(&mut self, job: &ScriptJob) -> Status
        ensures followed { Follows H.goes self.old (Script job.now result ∷ []) self.new }
        ensures allowed { self.new.exhausted ≡ false → H.may_answer result }
        ensures refused { self.new.exhausted ≡ true → (self.new.entries ≡ self.old.entries) × (self.new.host ≡ self.old.host) × (result ≡ Status.NotStarted) }
    {
        let Some(kept) = prepared(self.exhausted, &mut self.entries, job) else {
            self.exhausted = true;
            return Status::NotStarted;
        };
        let status = self.host.script(job);
        self.entries.push(Entry::Script(kept, status)).unwrap();
        status
    }

    /// Asks the user, and keeps the prompt with the answer. `Failed` where memory is or was wanting.
    pub fn confirm(&mut self, prompt: &str) -> Confirmation
        ensures followed { Follows H.goes self.old (Confirm prompt.now result ∷ []) self.new }
        ensures allowed { self.new.exhausted ≡ false → H.may_confirm result }
        ensures refused { self.new.exhausted ≡ true → (self.new.entries ≡ self.old.entries) × (self.new.host ≡ self.old.host) × (result ≡ Confirmation.Failed) }
    {
        let Some(kept) = prepared_text(self.alloc, self.exhausted, &mut self.entries, prompt) else {
            self.exhausted = true;
            return Confirmation::Failed;
        };
        let answer = self.host.confirm(prompt);
        self.entries.push(Entry::Confirm(kept, answer)).unwrap();
        answer
    }

    /// Shows a text, and keeps it. Nothing is shown where memory is or was wanting.
    pub fn show(&mut self, text: &str)
        ensures followed { Follows H.goes self.old (Show text.now ∷ []) self.new }
        ensures refused { self.new.exhausted ≡ true → (self.new.entries ≡ self.old.entries) × (self.new.host ≡ self.old.host) }
    {
        let Some(kept) = prepared_text(self.alloc, self.exhausted, &mut self.entries, text) else {
            self.exhausted = true;
            return;
        };
        self.host.show(text);
        self.entries.push(Entry::Show(kept)).unwrap();
    }

    /// Reads files of variables, and keeps the request with the answer. Memory's fault where memory
    /// is or was wanting.
    pub fn dotenv(&mut self, request: &DotenvRequest) -> Result<Sequence<Pair>, HostFault>
        ensures followed { Follows H.goes self.old (Dotenv request.now result ∷ []) self.new }
        ensures refused { self.new.exhausted ≡ true → result ≡ Err Memory }
        ensures unasked { self.new.entries ≡ self.old.entries → self.new.host ≡ self.old.host }
    {
        let Some(kept) = prepared(self.exhausted, &mut self.entries, request) else {
            self.exhausted = true;
            return Err(HostFault::Memory);
        };
        let answer = self.host.dotenv(request);
        let handed = copied(&answer);
        self.entries.push(Entry::Dotenv(kept, answer)).unwrap();
        match handed {
            Ok(handed) => handed,
            Err(_) => {
                self.exhausted = true;
                Err(HostFault::Memory)
            }
        }
    }
}

/// A copy of what is asked, and room for its entry; none where either is or was refused.
fn prepared<T: Clone + Drop>(exhausted: bool, entries: &mut Vec<Entry>, asked: &T) -> Option<T>
    ensures unchanged { entries.new.items ≡ entries.old.items }
    ensures ready { IfSome result (λ copy. T.is_clone asked.now copy × (vec_len entries.new < vec_capacity entries.new) × (exhausted ≡ false)) }
{
    if exhausted {
        return None;
    }
    let Ok(copy) = asked.clone() else {
        return None;
    };
    match entries.reserve(1) {
        Ok(()) => Some(copy),
        Err(_) => None,
    }
}

/// A copy of a text, and room for its entry; none where either is or was refused.
fn prepared_text(
    alloc: Global,
    exhausted: bool,
    entries: &mut Vec<Entry>,
    text: &str,
) -> Option<Text>
    ensures unchanged { entries.new.items ≡ entries.old.items }
    ensures ready { IfSome result (λ copy. (copy ≡ text.now) × (vec_len entries.new < vec_capacity entries.new) × (exhausted ≡ false)) }
{
    if exhausted {
        return None;
    }
    let Ok(copy) = Text::from_text(alloc, text) else {
        return None;
    };
    match entries.reserve(1) {
        Ok(()) => Some(copy),
        Err(_) => None,
    }
}

/// A copy of the answer to a request.
#[tactic(auto, using(crate::proofs::Cloned::same_elements))]
fn copied(
    answer: &Result<Sequence<Pair>, HostFault>,
) -> Result<Result<Sequence<Pair>, HostFault>, AllocError>
    ensures { IfOk result (λ copy. copy ≡ answer.now) }
{
    Ok(match answer {
        Ok(pairs) => Ok(pairs.clone()?),
        Err(fault) => Err(fault.clone()?),
    })
}
