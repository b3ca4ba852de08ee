//! Why words are refused.
ghost use Rattle.std.specs.Prelude.{◌≡◌, IfOk, Some};
ghost use Rattle.analyze_words.specs.declared.fault.WordFault.TheVariants.{OutOfMemory, UnknownRecipe, UnknownModule, ArgumentCount, UnknownOption, OptionValue, DefaultNeedsArguments, UnknownVariable, ExtraWord};
ghost use Rattle.analyze_words.specs.Faults.{IsFault, fault_name, fault_text};

use just_text::Text;
use std::alloc::{AllocError, AllocFailed, Global};
use std::fmt;

/// Why words are refused. It prints its name in lower case and its fields between backticks.
#[derive(Debug, Drop)]
pub enum WordFault {
    /// Memory ran out.
    OutOfMemory,
    /// The word names no recipe, no alias and no submodule.
    UnknownRecipe(Text),
    /// The word has `::` in it, and a part in front of the last names no module.
    UnknownModule(Text),
    /// The recipe got so many words for its parameters, and needs more, or lacks an option.
    ArgumentCount { recipe: Text, found: usize },
    /// The recipe has no such option.
    UnknownOption { recipe: Text, word: Text },
    /// The option stands a second time, lacks its value, or has one that it doesn't take.
    OptionValue { recipe: Text, word: Text },
    /// There is no recipe to run.
    NoRecipes,
    /// The recipe that runs where none is named needs words.
    DefaultNeedsArguments(Text),
    /// The word names no module and no variable.
    UnknownVariable(Text),
    /// There is a word too much.
    ExtraWord(Text),
    /// There is no command to run.
    MissingCommand,
}

impl From<AllocError> for WordFault {
    ghost from_gives = { λ _ e. e ≡ OutOfMemory };

    fn from(_refused: AllocError) -> WordFault {
        WordFault::OutOfMemory
    }
}

impl<T: Drop> From<AllocFailed<T>> for WordFault {
    ghost from_gives = { λ _ e. e ≡ OutOfMemory };

    fn from(_refused: AllocFailed<T>) -> WordFault {
        WordFault::OutOfMemory
    }
}

impl WordFault {
    /// `UnknownRecipe` of the word.
    pub fn unknown_recipe(alloc: Global, word: &str) -> WordFault
        ensures { IsFault (UnknownRecipe word.now) result }
    {
        match Text::from_text(alloc, word) {
            Ok(word) => WordFault::UnknownRecipe(word),
            Err(_) => WordFault::OutOfMemory,
        }
    }

    /// `UnknownModule` of the word.
    pub fn unknown_module(alloc: Global, word: &str) -> WordFault
        ensures { IsFault (UnknownModule word.now) result }
    {
        match Text::from_text(alloc, word) {
            Ok(word) => WordFault::UnknownModule(word),
            Err(_) => WordFault::OutOfMemory,
        }
    }

    /// `UnknownVariable` of the word.
    pub fn unknown_variable(alloc: Global, word: &str) -> WordFault
        ensures { IsFault (UnknownVariable word.now) result }
    {
        match Text::from_text(alloc, word) {
            Ok(word) => WordFault::UnknownVariable(word),
            Err(_) => WordFault::OutOfMemory,
        }
    }

    /// `ExtraWord` of the word.
    pub fn extra_word(alloc: Global, word: &str) -> WordFault
        ensures { IsFault (ExtraWord word.now) result }
    {
        match Text::from_text(alloc, word) {
            Ok(word) => WordFault::ExtraWord(word),
            Err(_) => WordFault::OutOfMemory,
        }
    }

    /// `DefaultNeedsArguments` of the recipe.
    pub fn default_needs_arguments(alloc: Global, recipe: &str) -> WordFault
        ensures { IsFault (DefaultNeedsArguments recipe.now) result }
    {
        match Text::from_text(alloc, recipe) {
            Ok(recipe) => WordFault::DefaultNeedsArguments(recipe),
            Err(_) => WordFault::OutOfMemory,
        }
    }

    /// `ArgumentCount` of the recipe and the number of words.
    pub fn argument_count(alloc: Global, recipe: &str, found: usize) -> WordFault
        ensures { IsFault (ArgumentCount recipe.now found) result }
    {
        match Text::from_text(alloc, recipe) {
            Ok(recipe) => WordFault::ArgumentCount { recipe, found },
            Err(_) => WordFault::OutOfMemory,
        }
    }

    /// `UnknownOption` of the recipe and the word.
    pub fn unknown_option(alloc: Global, recipe: &str, word: &str) -> WordFault
        ensures { IsFault (UnknownOption recipe.now word.now) result }
    {
        match texts(alloc, recipe, word) {
            Ok((recipe, word)) => WordFault::UnknownOption { recipe, word },
            Err(_) => WordFault::OutOfMemory,
        }
    }

    /// `OptionValue` of the recipe and the word.
    pub fn option_value(alloc: Global, recipe: &str, word: &str) -> WordFault
        ensures { IsFault (OptionValue recipe.now word.now) result }
    {
        match texts(alloc, recipe, word) {
            Ok((recipe, word)) => WordFault::OptionValue { recipe, word },
            Err(_) => WordFault::OutOfMemory,
        }
    }
}

/// Copies of both texts.
fn texts(alloc: Global, one: &str, other: &str) -> Result<(Text, Text), AllocError>
    ensures { IfOk result (λ both. both ≡ (one.now, other.now)) }
{
    let one = Text::from_text(alloc, one)?;
    Ok((one, Text::from_text(alloc, other)?))
}

impl WordFault {
    /// Its name in lower case.
    fn name(&self) -> &'static str
        ensures { result.now ≡ fault_name self.now }
    {
        match self {
            WordFault::OutOfMemory => "out of memory",
            WordFault::UnknownRecipe(_) => "unknown recipe",
            WordFault::UnknownModule(_) => "unknown module",
            WordFault::ArgumentCount { .. } => "argument count",
            WordFault::UnknownOption { .. } => "unknown option",
            WordFault::OptionValue { .. } => "option value",
            WordFault::NoRecipes => "no recipes",
            WordFault::DefaultNeedsArguments(_) => "default needs arguments",
            WordFault::UnknownVariable(_) => "unknown variable",
            WordFault::ExtraWord(_) => "extra word",
            WordFault::MissingCommand => "missing command",
        }
    }
}

impl fmt::Display for WordFault {
    ghost output = { λ fault. Some (fault_text fault) };

    fn fmt<W: fmt::Write>(&self, f: &mut fmt::Formatter<W>) -> fmt::Result {
        let name = self.name();
        match self {
            WordFault::OutOfMemory | WordFault::NoRecipes | WordFault::MissingCommand => {
                f.write_str(name)
            }
            WordFault::ArgumentCount { recipe, found } => write!(
                f,
                "{name}: `{recipe}`, `{found}`"
            ),
            WordFault::UnknownOption { recipe, word } | WordFault::OptionValue { recipe, word } => {
                write!(f, "{name}: `{recipe}`, `{word}`")
            }
            WordFault::UnknownRecipe(word)
            | WordFault::UnknownModule(word)
            | WordFault::DefaultNeedsArguments(word)
            | WordFault::UnknownVariable(word)
            | WordFault::ExtraWord(word) => write!(f, "{name}: `{word}`"),
        }
    }
}

impl std::error::Error for WordFault {}
