//! The words that a recipe takes.
ghost use Rattle.std.specs.Prelude.{◌≡◌, ◌≤◌, ◌∷◌, ℕ, List, [], IfErr, IfOk, IfSome, MatchOption, OnOk, cond, false, true, get_or, length, map, replicate};
ghost use Rattle.std.specs.List.{list_any, zip};
ghost use Rattle.std.specs.Option.{option_map};
ghost use Rattle.analyze_words.specs.Broken.{IsRefusedBy, IsRefusedIn, WordsBreak, rule_of};
ghost use Rattle.analyze_words.specs.Takings.{IsAt, IsSameButGroups, StepsTo, TakesTo, WordsGive, is_lacking, pushed, value_given};
ghost use Rattle.meaning_runs.specs.Invokes as spec;
ghost use Rattle.meaning_runs.specs.Invokes.{At, argument_count, enough, refuses};
ghost use Rattle.meaning_runs.specs.Words.{has_room, option_named};
ghost use Rattle.analyze_words.specs.Worded.{slot_of};

use crate::fault::WordFault;
use crate::menu::{Callable, Slot};
use crate::options::{OptionPlaces, option_place, split_at_equals};
use just_text::{Sequence, Text};
use std::alloc::{AllocError, Global};

/// What a recipe has taken of the words so far.
#[derive(Drop)]
pub(crate) struct Taking<'a> {
    /// One group for each parameter.
    groups: Vec<Sequence<Text>>,
    /// The place of the parameter that takes the next word by its place.
    next: usize,
    /// How many words were taken by their place.
    found: usize,
    /// Whether words may be options.
    options: bool,
    /// The recipe's parameters by the names of their options.
    places: OptionPlaces<'a>,
}

/// An empty group for each parameter.
fn empty_groups(alloc: Global, count: usize) -> Result<Vec<Sequence<Text>>, AllocError>
    ensures { IfOk result (λ groups. groups.items ≡ replicate count []) }
{
    let mut groups = Vec::new(alloc);
    for _ in 0..count {
        groups.push(Sequence::new(alloc))?;
    }
    Ok(groups)
}

/// Whether a parameter that an option has to give has nothing.
fn lacks(slot: &Slot, group: &Sequence<Text>) -> bool
    ensures { result ≡ is_lacking slot.now group.now }
{
    slot.required && slot.is_option() && group.is_empty()
}

/// Whether some parameter that an option has to give has nothing.
fn any_lacks(slots: &[Slot], groups: &[Sequence<Text>]) -> bool
    ensures { result ≡ list_any (λ both. is_lacking both.0 both.1) (zip slots.now groups.now) }
{
    slots
        .iter()
        .zip(groups)
        .any(|(slot, group)| lacks(slot, group))
}

/// An option's value and the words after it: what stands after `=`, or else the next word; `true`
/// for an option that takes no value. None where a value is missing, or isn't wanted.
fn option_value<'v>(
    takes_value: bool,
    value: Option<&'v str>,
    words: &'v [Text],
) -> Option<(&'v str, &'v [Text])>
    ensures given { option_map (λ both. (both.0.now, both.1.now)) result ≡ value_given takes_value (option_map (λ text. text.now) value.entry) words.now }
    ensures shorter { IfSome result (λ both. length both.1.now ≤ length words.now) }
{
    match value {
        Some(value) => takes_value.then_some((value, words)),
        None if takes_value => {
            let (word, others) = words.split_first()?;
            Some((word.as_str(), others))
        }
        None => Some(("true", words)),
    }
}

impl<'a> Taking<'a> {
    /// Nothing taken yet.
    fn new(alloc: Global, callable: &Callable<'a>) -> Result<Taking<'a>, AllocError>
        ensures { IfOk result (λ taking. (words : List (List ℕ)) → IsAt callable.now.slots.items taking (spec.beginning (map slot_of callable.now.slots.items) words)) }
    {
        Ok(Taking {
            groups: empty_groups(alloc, callable.slots.len())?,
            next: callable.positional_from(0),
            found: 0,
            options: callable.has_options(),
            places: OptionPlaces::of(alloc, callable.slots.as_slice())?,
        })
    }

    /// Puts a value into the group.
    fn put(&mut self, alloc: Global, slot: usize, value: &str) -> Result<(), AllocError>
        ensures put { OnOk result (self.new.groups.items ≡ pushed self.old.groups.items slot value.now) }
        ensures kept { IsSameButGroups self.old self.new }
    {
        if slot >= self.groups.len() {
            return Ok(());
        }
        let value = Text::from_text(alloc, value)?;
        Ok(self.groups[slot].push(value)?)
    }

    fn is_used(&self, slot: usize) -> bool
        ensures { result ≡ spec.is_used (get_or self.now.groups.items slot []) }
    {
        slot < self.groups.len() && !self.groups[slot].is_empty()
    }

    /// Takes an option, and gives the words after it and its value.
    fn take_option<'w>(
        &mut self,
        alloc: Global,
        callable: &Callable,
        word: &'w str,
        others: &'w [Text],
    ) -> Result<&'w [Text], WordFault>
        ensures found { IfOk result (λ left. (at : At) → IsAt callable.now.slots.items self.old at → StepsTo callable.now.slots.items (spec.by_option (map slot_of callable.now.slots.items) at word.now (option_named (map slot_of callable.now.slots.items) (spec.before_equals word.now)) (spec.behind_equals word.now) others.now) self.new left.now) }
        ensures shorter { IfOk result (λ left. length left.now ≤ length others.now) }
        ensures refused { IfErr result (λ fault. (at : At) → IsAt callable.now.slots.items self.old at → IsRefusedIn callable.now.name.now (λ rule. spec.by_option (map slot_of callable.now.slots.items) at word.now (option_named (map slot_of callable.now.slots.items) (spec.before_equals word.now)) (spec.behind_equals word.now) others.now ≡ refuses rule) fault) }
    {
        let (name, value) = split_at_equals(word);
        let Some(place) = option_place(&self.places, name) else {
            return Err(WordFault::unknown_option(alloc, callable.name, word));
        };
        if place >= callable.slots.len() {
            return Err(WordFault::unknown_option(alloc, callable.name, word));
        }
        let slot = callable.slots[place];
        if self.is_used(place) && !slot.multiple {
            return Err(WordFault::option_value(alloc, callable.name, word));
        }
        let Some((value, left)) = option_value(slot.takes_value, value, others) else {
            return Err(WordFault::option_value(alloc, callable.name, word));
        };
        self.put(alloc, place, value)?;
        Ok(left)
    }

    /// Takes a word by its place; `false` where there is no room for it.
    fn take_positional(
        &mut self,
        alloc: Global,
        callable: &Callable,
        word: &str,
    ) -> Result<bool, AllocError>
        ensures { IfOk result (λ is_taken. (at : At) (others : List (List ℕ)) → IsAt callable.now.slots.items self.old at → (has_room (map slot_of callable.now.slots.items) (length (spec.placed_words at.taken)) ≡ is_taken) × IsAt callable.now.slots.items self.new (cond is_taken (spec.with_word at word.now others) at)) }
    {
        let place = self.next;
        if place >= callable.slots.len() {
            return Ok(false);
        }
        self.put(alloc, place, word)?;
        self.found = self.found.saturating_add(1);
        if !callable.slots[place].variadic {
            self.next = callable.positional_from(place + 1);
        }
        Ok(true)
    }

    /// Takes the word, and the next one where it is an option's value, and gives the words that
    /// are left; none where the word is none of the recipe's.
    fn take<'w>(
        &mut self,
        alloc: Global,
        callable: &Callable,
        word: &'w str,
        others: &'w [Text],
    ) -> Result<Option<&'w [Text]>, WordFault>
        ensures found { IfOk result (λ left. (at : At) → IsAt callable.now.slots.items self.old at → MatchOption left ((spec.next (map slot_of callable.now.slots.items) at (word.now ∷ others.now) ≡ enough) × IsAt callable.now.slots.items self.new at) (λ left. StepsTo callable.now.slots.items (spec.next (map slot_of callable.now.slots.items) at (word.now ∷ others.now)) self.new left.now)) }
        ensures shorter { IfOk result (λ left. IfSome left (λ left. length left.now ≤ length others.now)) }
        ensures refused { IfErr result (λ fault. (at : At) → IsAt callable.now.slots.items self.old at → IsRefusedIn callable.now.name.now (λ rule. spec.next (map slot_of callable.now.slots.items) at (word.now ∷ others.now) ≡ refuses rule) fault) }
    {
        if !self.options || !is_dashed(word) {
            if self.take_positional(alloc, callable, word)? {
                return Ok(Some(others));
            }
            return Ok(None);
        }
        if word == "--" {
            self.options = false;
            return Ok(Some(others));
        }
        Ok(Some(self.take_option(alloc, callable, word, others)?))
    }

    /// Takes words as long as they are the recipe's, and gives those that are left.
    fn take_all<'w>(
        &mut self,
        alloc: Global,
        callable: &Callable,
        words: &'w [Text],
    ) -> Result<&'w [Text], WordFault>
        ensures found { IfOk result (λ left. (at : At) → IsAt callable.now.slots.items self.old at → at.words ≡ words.now → TakesTo callable.now.slots.items at self.new left.now) }
        ensures shorter { IfOk result (λ left. length left.now ≤ length words.now) }
        ensures refused { IfErr result (λ fault. (at : At) → IsAt callable.now.slots.items self.old at → at.words ≡ words.now → IsRefusedIn callable.now.name.now (spec.Refuses (map slot_of callable.now.slots.items) at) fault) }
    {
        let mut left = words;
        while let Some((word, others)) = left.split_first() {
            match self.take(alloc, callable, word.as_str(), others)? {
                Some(more) => left = more,
                None => return Ok(left),
            }
        }
        Ok(left)
    }

    /// Whether there are enough words, and each option that has to be given.
    fn is_complete(&self, callable: &Callable) -> bool
        ensures { (at : At) → IsAt callable.now.slots.items self.now at → result ≡ spec.is_complete (map slot_of callable.now.slots.items) at.taken }
    {
        self.found >= callable.least()
            && !any_lacks(callable.slots.as_slice(), self.groups.as_slice())
    }

    /// What was taken, one group for each parameter.
    fn finish(self, alloc: Global, callable: &Callable) -> Result<Vec<Sequence<Text>>, WordFault>
        ensures found { IfOk result (λ groups. (at : At) → IsAt callable.now.slots.items self.entry at → (spec.is_complete (map slot_of callable.now.slots.items) at.taken ≡ true) × (groups.items ≡ spec.groups_of (map slot_of callable.now.slots.items) at.taken)) }
        ensures refused { IfErr result (λ fault. (at : At) → IsAt callable.now.slots.items self.entry at → IsRefusedBy (λ rule. (rule ≡ argument_count callable.now.name.now (spec.words_found at.taken)) × (spec.is_complete (map slot_of callable.now.slots.items) at.taken ≡ false)) fault) }
    {
        if !self.is_complete(callable) {
            return Err(WordFault::argument_count(alloc, callable.name, self.found));
        }
        Ok(self.groups)
    }
}

/// Whether the word is an option's, where options are read.
fn is_dashed(word: &str) -> bool
    ensures { result ≡ spec.is_dashed word.now }
{
    word.starts_with("-") && word != "-"
}

/// The groups that the words give to the recipe's parameters, and the words that are left.
pub(crate) fn take_words<'w>(
    alloc: Global,
    callable: &Callable,
    words: &'w [Text],
) -> Result<(Vec<Sequence<Text>>, &'w [Text]), WordFault>
    ensures found { IfOk result (λ both. WordsGive (map slot_of callable.now.slots.items) words.now both.0.items both.1.now) }
    ensures shorter { IfOk result (λ both. length both.1.now ≤ length words.now) }
    ensures refused { IfErr result (IsRefusedBy (WordsBreak callable.now.name.now (map slot_of callable.now.slots.items) words.now)) }
{
    let mut taking = Taking::new(alloc, callable)?;
    let left = taking.take_all(alloc, callable, words)?;
    Ok((taking.finish(alloc, callable)?, left))
}
