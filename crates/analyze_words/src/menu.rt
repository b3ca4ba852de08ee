//! What words may name: the recipes of all modules, by name.
ghost use Rattle.std.specs.Prelude.{◌≡◌, ◌<◌, ◌≤◌, ◌&&◌, ◌||◌, ℕ, not, true, false, length, OnErr, OnOk, None, slice_get, slice_index_or};
ghost use Rattle.std.specs.BTreeMap.{IsEmpty, IsUnchanged, insert_entry};
ghost use Rattle.std.specs.Cmp.Lexicographic.{slice_cmp};
ghost use Rattle.std.specs.List.{count_by, list_any, position};
ghost use Rattle.std.specs.Option.{IfSome, option_and_then, option_map};
ghost use Rattle.std.specs.Ordering.{nat_cmp};
ghost use Rattle.analyze_words.specs.Menus as spec;
ghost use Rattle.analyze_words.specs.Worded.{IsThere, as_word, inner_of, words_of};
ghost use Rattle.analyze_words.specs.declared.menu.Slot.{Slot};

use std::alloc::{AllocError, Global};
use std::collections::{BTreeMap, BTreeSet};

/// A parameter of a recipe, as words see it.
#[derive(Clone, Copy, Debug)]
pub struct Slot<'a> {
    /// The name of its option after two dashes.
    pub long: Option<&'a str>,
    /// The name of its option after one dash.
    pub short: Option<char>,
    /// Whether its option takes a value.
    pub takes_value: bool,
    /// Whether its option may stand more than once.
    pub multiple: bool,
    /// Whether it takes all words that remain.
    pub variadic: bool,
    /// Whether it needs a word or its option.
    pub required: bool,
}

impl Slot<'_> {
    /// Whether an option gives it its value, and no word by its place.
    pub fn is_option(&self) -> bool
        ensures { result ≡ spec.is_option self.now }
    {
        self.long.is_some() || self.short.is_some()
    }

    fn has_long(&self, name: &str) -> bool
        ensures { result ≡ spec.has_long name.now self.now }
    {
        match self.long {
            Some(long) => long == name,
            None => false,
        }
    }

    fn has_short(&self, name: char) -> bool
        ensures { result ≡ spec.has_short name self.now }
    {
        match self.short {
            Some(short) => short == name,
            None => false,
        }
    }
}

/// A recipe, as words see it.
#[derive(Drop)]
pub struct Callable<'a> {
    pub name: &'a str,
    pub slots: Vec<Slot<'a>>,
}

impl<'a> Callable<'a> {
    /// Whether there is an option.
    pub fn has_options(&self) -> bool
        ensures { result ≡ list_any spec.is_option self.now.slots.items }
    {
        self.slots.iter().any(|slot| slot.is_option())
    }

    /// Whether it can't run without words.
    pub fn needs_words(&self) -> bool
        ensures { result ≡ list_any (λ slot. slot.required) self.now.slots.items }
    {
        self.slots.iter().any(|slot| slot.required)
    }

    /// How many words it needs at least, options apart.
    pub fn least(&self) -> usize
        ensures { result ≡ count_by (λ slot. slot.required && not (spec.is_option slot)) self.now.slots.items }
    {
        self.slots
            .iter()
            .filter(|slot| slot.required && !slot.is_option())
            .count()
    }

    /// The place of the first parameter from this place on that takes a word by its place; the
    /// number of parameters where there is none.
    pub fn positional_from(&self, first: usize) -> usize
        ensures within { result ≤ length self.now.slots.items }
        ensures before { (place : ℕ) (other : Slot) → first ≤ place → place < result → spec.is_option (slice_index_or self.now.slots.items place other) ≡ true }
        ensures found { (other : Slot) → result < length self.now.slots.items → (first ≤ result) × (spec.is_option (slice_index_or self.now.slots.items result other) ≡ false) }
    {
        for place in first..self.slots.len() {
            if !self.slots[place].is_option() {
                return place;
            }
        }
        self.slots.len()
    }

    /// The place of the parameter with this name of an option after two dashes.
    pub fn long(&self, name: &str) -> Option<usize>
        ensures { result ≡ position (spec.has_long name.now) self.now.slots.items }
    {
        self.slots.iter().position(|slot| slot.has_long(name))
    }

    /// The place of the parameter with this name of an option after one dash.
    pub fn short(&self, name: char) -> Option<usize>
        ensures { result ≡ position (spec.has_short name) self.now.slots.items }
    {
        self.slots.iter().position(|slot| slot.has_short(name))
    }
}

/// What a name stands for in a module.
#[derive(Clone, Copy, Debug, PartialEq, Eq)]
pub enum Meaning {
    /// The recipe at this place, by its own name or an alias.
    Recipe(usize),
    /// The module at this place.
    Submodule(usize),
}

impl Meaning {
    /// The place of the recipe, if it is one.
    fn recipe(&self) -> Option<usize>
        ensures { result ≡ spec.recipe_of self.now }
    {
        match self {
            Meaning::Recipe(place) => Some(*place),
            Meaning::Submodule(_) => None,
        }
    }
}

/// Adds the place, if there is one.
fn add_place(places: &mut BTreeSet<usize>, place: Option<usize>) -> Result<(), AllocError>
    ensures { OnOk result ((other : ℕ) → spec.has places.new other ≡ (spec.has places.old other || spec.is_place place other)) }
{
    if let Some(place) = place {
        places.insert(place)?;
    }
    Ok(())
}

/// The names of a module.
#[derive(Drop)]
pub struct Menu<'a> {
    names: BTreeMap<&'a str, Meaning>,
    /// The place of the recipe that runs where none is named.
    pub default: Option<usize>,
}

impl<'a> Menu<'a> {
    /// A module without names. Takes no memory.
    pub fn new(alloc: Global) -> Menu<'a>
        ensures names { IsEmpty result.names }
        ensures default { result.default ≡ None }
    {
        Menu {
            names: BTreeMap::new(alloc),
            default: None,
        }
    }

    /// Gives the name this meaning.
    pub fn put(&mut self, name: &'a str, meaning: Meaning) -> Result<(), AllocError>
        ensures put { OnOk result (self.new.names.entries ≡ insert_entry (λ x y. slice_cmp nat_cmp x.now y.now) self.old.names.entries name.entry meaning) }
        ensures refused { OnErr result (IsUnchanged self.old.names self.new.names) }
        ensures default { self.new.default ≡ self.old.default }
    {
        match self.names.insert(name, meaning) {
            Ok(_) => Ok(()),
            Err(_) => Err(AllocError),
        }
    }

    /// What the name stands for.
    pub fn look_up(&self, name: &str) -> Option<Meaning>
        ensures { result ≡ spec.meaning self.now name.now }
    {
        self.names.get(name).copied()
    }

    /// Adds the places of the recipes that its names and its default stand for. Refused only where
    /// memory is.
    pub fn add_recipes(&self, places: &mut BTreeSet<usize>) -> Result<(), AllocError>
        ensures { OnOk result (spec.AddsRecipes self.now places.old places.new) }
    {
        add_place(places, self.default)?;
        for meaning in self.names.values() {
            add_place(places, meaning.recipe())?;
        }
        Ok(())
    }
}

/// Recipes, and all modules, of which the first is the root.
#[derive(Drop)]
pub struct Menus<'a> {
    /// The recipes by their places. One that no module names may stand here without its parameters.
    pub recipes: Vec<Callable<'a>>,
    pub modules: Vec<Menu<'a>>,
    /// Whether a call without words asks for the list of recipes.
    pub default_list: bool,
}

impl<'a> Menus<'a> {
    /// What the name stands for in the module at that place; nothing where a place isn't there.
    pub fn look_up(&self, place: usize, name: &str) -> Option<Meaning>
        ensures { result ≡ spec.meaning_in self.now place name.now }
    {
        if place >= self.modules.len() {
            return None;
        }
        self.modules[place].look_up(name)
    }

    /// What words mean by the name in the module at that place: as `look_up`, and nothing where no
    /// recipe stands at the recipe's place.
    pub(crate) fn word_meaning(&self, place: usize, name: &str) -> Option<Meaning>
        ensures meaning { option_map as_word result ≡ (words_of self.now).meaning place name.now }
        ensures there { IfSome result (IsThere self.now) }
    {
        match self.look_up(place, name) {
            None => None,
            Some(Meaning::Submodule(inner)) => Some(Meaning::Submodule(inner)),
            Some(Meaning::Recipe(recipe)) => {
                (recipe < self.recipes.len()).then_some(Meaning::Recipe(recipe))
            }
        }
    }

    /// The place of the module that the name stands for in the module at that place.
    pub(crate) fn submodule(&self, place: usize, name: &str) -> Option<usize>
        ensures { result ≡ option_and_then inner_of ((words_of self.now).meaning place name.now) }
    {
        match self.look_up(place, name) {
            Some(Meaning::Submodule(inner)) => Some(inner),
            _ => None,
        }
    }

    /// The recipe at that place.
    pub fn recipe(&self, place: usize) -> Option<&Callable<'a>>
        ensures { option_map (λ callable. callable.now) result ≡ slice_get self.now.recipes.items place }
    {
        if place >= self.recipes.len() {
            return None;
        }
        Some(&self.recipes[place])
    }

    /// The place of the recipe that runs where none is named in the module at that place.
    pub fn default(&self, place: usize) -> Option<usize>
        ensures { result ≡ spec.default_in self.now place }
    {
        if place >= self.modules.len() {
            return None;
        }
        self.modules[place].default
    }
}
