//! Calls of recipes, and which were done.
ghost use Rattle.std.specs.Prelude.{◌≡◌, ◌↔◌, ◌∷◌, [], IsTrue, MatchOption, IfErr, IfOk, OnOk, OnErr};
ghost use Rattle.analyze_calls.specs.Calls.{row_of, same_call};
ghost use Rattle.meaning_runs.specs.Parts.{is_met, Joins};

use just_value::Value;
use std::alloc::{AllocError, Global};
use std::collections::HashSet;
use std::marker::Model;

/// A recipe by its place, and its parameters' groups of values.
#[derive(Drop, PartialEq, Eq, Hash)]
pub struct Call {
    pub recipe: usize,
    pub groups: Vec<Value>,
}

/// The calls that were done. Contracts see them as a list of recipes by their places with groups.
#[derive(Drop)]
pub struct Done {
    calls: HashSet<Call>,
}

impl Model for Done {
    ghost use Rattle.std.specs.Prelude.{List};
    ghost use Rattle.analyze_calls.specs.Calls.{CallRow, rows};

    ghost Value = { List CallRow };

    ghost view = { λ d. rows d.calls.keys };
}

impl Done {
    /// Nothing. Takes no memory.
    pub fn new(alloc: Global) -> Done
        ensures { result ≡ [] }
    {
        Done {
            calls: HashSet::new(alloc),
        }
    }

    /// Nothing, with room for so many calls.
    pub fn with_capacity(alloc: Global, capacity: usize) -> Result<Done, AllocError>
        ensures { IfOk result (λ done. done ≡ []) }
    {
        let calls = HashSet::with_capacity(alloc, capacity)?;
        Ok(Done { calls })
    }

    /// Whether the call was done: one of the same recipe with equal groups.
    pub fn has(&self, call: &Call) -> bool
        ensures { result ≡ is_met same_call (row_of call.now) self.now }
    {
        self.calls.contains(call)
    }

    /// The call is done. Refused only for want of memory; nothing changes then.
    pub fn join(&mut self, call: Call) -> Result<(), AllocError>
        ensures joins { OnOk result (Joins same_call (row_of call) self.old self.new) }
        ensures unchanged { OnErr result (self.new ≡ self.old) }
    {
        let _ = self.calls.insert(call)?;
        Ok(())
    }
}

/// Calls that are still to run, in order.
#[derive(Drop)]
pub struct Pending {
    last_first: Vec<Call>,
}

impl Model for Pending {
    ghost use Rattle.std.specs.Prelude.{List, reverse};
    ghost use Rattle.analyze_calls.specs.declared.call.Call.{Call};

    ghost Value = { List Call };

    ghost view = { λ p. reverse p.last_first.items };
}

impl Pending {
    /// These calls.
    pub fn new(calls: Vec<Call>) -> Pending
        ensures { result ≡ calls.items }
    {
        let mut last_first = calls;
        last_first.reverse();
        Pending { last_first }
    }

    /// Whether there are none.
    pub fn is_empty(&self) -> bool
        ensures { IsTrue result ↔ (self.now ≡ []) }
    {
        self.last_first.is_empty()
    }

    /// Takes the next call.
    pub fn next(&mut self) -> Option<Call>
        ensures { MatchOption result (self.old ≡ []) (λ c. self.old ≡ c ∷ self.new) }
    {
        self.last_first.pop()
    }
}
