//! From words to invocations.
ghost use Rattle.std.specs.Prelude.{◌≡◌, ◌<◌, ◌∷◌, ℕ, List, [], IfErr, IfOk, OnOk, Some, false, length, map};
ghost use Rattle.analyze_words.specs.Broken.{IsRefusedBy, PathBreaks};
ghost use Rattle.analyze_words.specs.Reading.{ReadsAll, ReadsOne};
ghost use Rattle.meaning_runs.specs.Invokes as spec;
ghost use Rattle.modules_compilation.specs.Modulepaths.{pieces};
ghost use Rattle.analyze_words.specs.Worded.{IsThere, as_word, row_of, words_of};

use crate::fault::WordFault;
use crate::menu::{Meaning, Menus};
use crate::taking::take_words;
use just_text::{Sequence, Text};
use std::alloc::Global;

/// A recipe by its place, and a group of values for each of its parameters.
#[derive(Drop)]
pub struct Invocation {
    pub recipe: usize,
    pub groups: Vec<Sequence<Text>>,
}

/// Reads words by what menus say.
#[derive(Drop)]
pub struct InvocationParser<'a, 'm> {
    alloc: Global,
    menus: &'a Menus<'m>,
}

impl<'a, 'm> InvocationParser<'a, 'm> {
    /// The recipes that the words name, in order, with what the words give to their parameters.
    ///
    /// A word is a recipe or an alias of the current module, or a submodule, in which the next word
    /// is looked up; or a path of such names with `::` between two. After a recipe stand its words.
    /// Without words, and after a submodule alone, the module's default runs; where the root has
    /// `default-list`, no words give no invocations.
    ///
    /// # Errors
    ///
    /// `UnknownRecipe`, `UnknownModule`, `ArgumentCount`, `UnknownOption`, `OptionValue`,
    /// `NoRecipes`, `DefaultNeedsArguments`; `OutOfMemory` where memory runs out.
    pub fn parse_invocations(
        alloc: Global,
        menus: &'a Menus<'m>,
        words: &[Text],
    ) -> Result<Vec<Invocation>, WordFault>
        ensures found { IfOk result (λ list. spec.Invoke (words_of menus.now) words.now (map row_of list.items)) }
        ensures refused { IfErr result (IsRefusedBy (spec.BreaksWords (words_of menus.now) words.now)) }
    {
        let mut invocations = Vec::new(alloc);
        if words.is_empty() && menus.default_list {
            return Ok(invocations);
        }
        let parser = InvocationParser { alloc, menus };
        match parser.read_all(&mut invocations, words) {
            Ok(()) => Ok(invocations),
            Err(fault) => {
                drop(invocations);
                Err(fault)
            }
        }
    }

    /// Reads all words.
    fn read_all(&self, invocations: &mut Vec<Invocation>, words: &[Text]) -> Result<(), WordFault>
        ensures found { OnOk result (spec.IsAsked (words_of self.now.menus.now) words.now → ReadsAll (words_of self.now.menus.now) words.now invocations.old.items invocations.new.items) }
        ensures refused { IfErr result (λ fault. spec.IsAsked (words_of self.now.menus.now) words.now → IsRefusedBy (spec.BreaksWords (words_of self.now.menus.now) words.now) fault) }
    {
        let mut left = words;
        loop {
            left = self.read_one(invocations, left)?;
            if left.is_empty() {
                return Ok(());
            }
        }
    }

    /// Reads the words of one recipe, and gives those that are left.
    fn read_one<'w>(
        &self,
        invocations: &mut Vec<Invocation>,
        words: &'w [Text],
    ) -> Result<&'w [Text], WordFault>
        ensures found { IfOk result (λ left. ReadsOne (words_of self.now.menus.now) words.now invocations.old.items invocations.new.items left.now) }
        ensures shorter { IfOk result (λ left. 0 < length left.now → length left.now < length words.now) }
        ensures refused { IfErr result (IsRefusedBy (spec.BreaksFirst (words_of self.now.menus.now) words.now)) }
    {
        let (recipe, behind) = self.find(words)?;
        let Some(callable) = self.menus.recipe(recipe) else {
            return Err(WordFault::NoRecipes);
        };
        let (groups, left) = take_words(self.alloc, callable, behind)?;
        invocations.push(Invocation { recipe, groups })?;
        Ok(left)
    }

    /// The place of the recipe that words name, and the words after its name.
    fn find<'w>(&self, words: &'w [Text]) -> Result<(usize, &'w [Text]), WordFault>
        ensures found { IfOk result (λ both. spec.find (words_of self.now.menus.now) 0 words.now ≡ spec.found both.0 both.1.now) }
        ensures there { IfOk result (λ both. both.0 < length self.now.menus.now.recipes.items) }
        ensures shorter { IfOk result (λ both. 0 < length both.1.now → length both.1.now < length words.now) }
        ensures refused { IfErr result (IsRefusedBy (λ rule. spec.find (words_of self.now.menus.now) 0 words.now ≡ spec.refused rule)) }
    {
        let mut here = 0;
        let mut left = words;
        while let Some((word, others)) = left.split_first() {
            left = others;
            match self.resolve(here, word.as_str())? {
                Meaning::Recipe(place) => return Ok((place, left)),
                Meaning::Submodule(place) => here = place,
            }
        }
        Ok((self.default(here)?, left))
    }

    /// What the path stands for in the module.
    fn resolve(&self, place: usize, word: &str) -> Result<Meaning, WordFault>
        ensures found { IfOk result (λ meaning. spec.follow (words_of self.now.menus.now) place (pieces word.now) ≡ spec.means (Some (as_word meaning))) }
        ensures there { IfOk result (IsThere self.now.menus.now) }
        ensures refused { IfErr result (IsRefusedBy (PathBreaks word.now (spec.follow (words_of self.now.menus.now) place (pieces word.now)))) }
    {
        let mut here = place;
        let mut path = word;
        while let Some((name, others)) = path.split_once("::") {
            let Some(inner) = self.menus.submodule(here, name) else {
                return Err(WordFault::unknown_module(self.alloc, word));
            };
            here = inner;
            path = others;
        }
        match self.menus.word_meaning(here, path) {
            Some(meaning) => Ok(meaning),
            None => Err(WordFault::unknown_recipe(self.alloc, word)),
        }
    }

    /// The place of the module's default, which may not need words.
    fn default(&self, place: usize) -> Result<usize, WordFault>
        ensures found { IfOk result (λ recipe. spec.default_of (words_of self.now.menus.now) ((words_of self.now.menus.now).default place) ≡ spec.found recipe []) }
        ensures there { IfOk result (λ recipe. recipe < length self.now.menus.now.recipes.items) }
        ensures refused { IfErr result (IsRefusedBy (λ rule. spec.default_of (words_of self.now.menus.now) ((words_of self.now.menus.now).default place) ≡ spec.refused rule)) }
    {
        let Some(recipe) = self.menus.default(place) else {
            return Err(WordFault::NoRecipes);
        };
        let Some(callable) = self.menus.recipe(recipe) else {
            return Err(WordFault::NoRecipes);
        };
        if callable.needs_words() {
            return Err(WordFault::default_needs_arguments(self.alloc, callable.name));
        }
        Ok(recipe)
    }
}
