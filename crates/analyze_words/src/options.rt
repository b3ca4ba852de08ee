//! The parameters of a recipe by the names of their options.
ghost use Rattle.std.specs.Prelude.{◌≡◌, ℕ, List, IfOk, OnOk, Some, cond, false, map, codes};
ghost use Rattle.std.specs.Borrow.{Bor};
ghost use Rattle.std.specs.BTreeMap.{get};
ghost use Rattle.std.specs.Cmp.Lexicographic.{slice_cmp};
ghost use Rattle.std.specs.List.{position};
ghost use Rattle.std.specs.Ordering.{nat_cmp};
ghost use Rattle.std.specs.Option.{option_map};
ghost use Rattle.std.specs.Prelude.{drop};
ghost use Rattle.tree_expressions.specs.Cutting.{begins};
ghost use Rattle.analyze_words.specs.Menus as spec;
ghost use Rattle.analyze_words.specs.Takings.{ArePlaces};
ghost use Rattle.meaning_runs.specs.Invokes.{before_equals, behind_equals};
ghost use Rattle.meaning_runs.specs.Words.{option_named};
ghost use Rattle.analyze_words.specs.Worded.{slot_of};
ghost use Rattle.analyze_words.specs.declared.menu.Slot as declared;

use crate::menu::Slot;
use std::alloc::{AllocError, Global};
use std::collections::BTreeMap;

/// The places of a recipe's parameters, by the names of their options.
#[derive(Drop)]
pub struct OptionPlaces<'a> {
    long: BTreeMap<&'a str, usize>,
    short: BTreeMap<char, usize>,
}

/// Puts the place at the name after two dashes, if there is one.
fn put_long<'a>(
    places: &mut BTreeMap<&'a str, usize>,
    name: Option<&'a str>,
    place: usize,
) -> Result<(), AllocError>
    ensures { OnOk result ((wanted : Bor (List ℕ)) → get (λ x y. slice_cmp nat_cmp x.now y.now) places.new wanted ≡ cond (spec.is_long name.entry wanted.now) (Some place) (get (λ x y. slice_cmp nat_cmp x.now y.now) places.old wanted)) }
{
    if let Some(name) = name {
        let _ = places.insert(name, place)?;
    }
    Ok(())
}

/// Puts the place at the name after one dash, if there is one.
fn put_short(
    places: &mut BTreeMap<char, usize>,
    name: Option<char>,
    place: usize,
) -> Result<(), AllocError>
    ensures { OnOk result ((wanted : ℕ) → get nat_cmp places.new wanted ≡ cond (spec.is_short name wanted) (Some place) (get nat_cmp places.old wanted)) }
{
    if let Some(name) = name {
        let _ = places.insert(name, place)?;
    }
    Ok(())
}

impl<'a> OptionPlaces<'a> {
    /// The places of these parameters; of those with one name the first counts. Refused only where
    /// memory is.
    pub fn of(alloc: Global, slots: &[Slot<'a>]) -> Result<OptionPlaces<'a>, AllocError>
        ensures long { IfOk result (λ places. (name : Bor (List ℕ)) → spec.long_place places name ≡ position (spec.has_long name.now) slots.now) }
        ensures short { IfOk result (λ places. (name : ℕ) → spec.short_place places name ≡ position (spec.has_short name) slots.now) }
    {
        let mut places = OptionPlaces {
            long: BTreeMap::new(alloc),
            short: BTreeMap::new(alloc),
        };
        for place in (0..slots.len()).rev() {
            put_long(&mut places.long, slots[place].long, place)?;
            put_short(&mut places.short, slots[place].short, place)?;
        }
        Ok(places)
    }

    /// The place of the parameter with this name of an option after two dashes.
    pub fn long(&self, name: &str) -> Option<usize>
        ensures { result ≡ spec.long_place self.now name.entry }
    {
        self.long.get(name).copied()
    }

    /// The place of the parameter with this name of an option after one dash.
    pub fn short(&self, name: char) -> Option<usize>
        ensures { result ≡ spec.short_place self.now name }
    {
        self.short.get(&name).copied()
    }
}

/// The place of the parameter with an option of one letter, `-x`.
fn short_place(places: &OptionPlaces, name: &str) -> Option<usize>
    ensures { (slots : List declared.Slot) → ArePlaces slots places.now → begins name.now (codes "--") ≡ false → result ≡ option_named (map slot_of slots) name.now }
{
    let Some(letters) = name.strip_prefix("-") else {
        return None;
    };
    let mut letters = letters.chars();
    let Some(letter) = letters.next() else {
        return None;
    };
    if letters.next().is_some() {
        return None;
    }
    places.short(letter)
}

/// The place of the parameter whose option has this name, with its dashes.
pub(crate) fn option_place(places: &OptionPlaces, name: &str) -> Option<usize>
    ensures { (slots : List declared.Slot) → ArePlaces slots places.now → result ≡ option_named (map slot_of slots) name.now }
{
    match name.strip_prefix("--") {
        Some(long) => places.long(long),
        None => short_place(places, name),
    }
}

/// What stands up to the first `=`, and what stands after it, if there is one.
pub(crate) fn split_at_equals(word: &str) -> (&str, Option<&str>)
    ensures name { result.0.now ≡ before_equals word.now }
    ensures value { option_map (λ value. value.now) result.1 ≡ behind_equals word.now }
{
    match word.split_once('=') {
        Some((name, value)) => (name, Some(value)),
        None => (word, None),
    }
}
