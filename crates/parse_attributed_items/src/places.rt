//! The places of parameters by their names.
ghost use Rattle.std.specs.Prelude.{◌≡◌, IfOk, List, None, OnOk, Some, if◌then◌else◌, is_some, map, not, ℕ};
ghost use Rattle.std.specs.List.{All};
ghost use Rattle.std.specs.Str.{bytes_eq};
ghost use Rattle.tree_attributes.specs.Attributes.{options_shape};
ghost use Rattle.tree_items.specs.Recipes.{parameter_shapes};
ghost use Rattle.parse_expressions.specs.Literals.{Origin};
ghost use Rattle.parse_attributes.specs.Cooked.{AreCookedOptions};
ghost use Rattle.parse_attributed_items.specs.Places.{HasPlaces, place_in};
ghost use Rattle.parse_attributed_items.specs.Rules.{name_parameters, names_of};

use just_text::Token;
use std::alloc::{AllocError, Global};
use std::collections::BTreeMap;
use tree_attributes::ArgumentOptions;
use tree_items::Parameter;

/// The places of parameters by their names.
#[derive(Drop)]
pub(crate) struct Places<'src> {
    places: BTreeMap<&'src str, usize>,
}

impl<'src> Places<'src> {
    /// No places.
    #[tactic(auto, unfolding(crate::specs::Places::place_in))]
    fn new(alloc: Global) -> Places<'src>
        ensures { (name : List ℕ) → place_in result name ≡ None }
    {
        Places {
            places: BTreeMap::new(alloc),
        }
    }

    /// The place of the name, if it has one.
    #[tactic(auto, unfolding(crate::specs::Places::place_in))]
    pub(crate) fn get(&self, name: &str) -> Option<usize>
        ensures { result ≡ place_in self.now name.now }
    {
        self.places.get(name).copied()
    }

    /// Gives the name this place, and leaves the other names as they are.
    fn set(&mut self, name: &'src str, place: usize) -> Result<(), AllocError>
        ensures { OnOk result ((other : List ℕ) → place_in self.new other ≡ (if bytes_eq name.entry.now other then Some place else place_in self.old other)) }
    {
        self.places.insert(name, place)?;
        Ok(())
    }

    /// The places of these parameters; of those with one name the last.
    pub(crate) fn of_parameters(
        alloc: Global,
        parameters: &[Parameter<'src>],
    ) -> Result<Places<'src>, AllocError>
        ensures { IfOk result (λ places. HasPlaces places (names_of (parameter_shapes parameters.now))) }
    {
        let mut places = Places::new(alloc);
        for (place, parameter) in parameters.iter().enumerate() {
            places.set(parameter.name.lexeme(), place)?;
        }
        Ok(places)
    }

    /// The first `arg` for a name that has no place, by the token of that name.
    pub(crate) fn unknown<'a>(&self, options: &[ArgumentOptions<'a>]) -> Option<Token<'a>>
        ensures { (origin : Origin) → All (AreCookedOptions origin) options.now → (names : List (List ℕ)) → HasPlaces self.now names → is_some result ≡ not (name_parameters origin.expansion names (map options_shape options.now)) }
    {
        for options in options {
            if self.get(options.name.cooked.as_str()).is_none() {
                return Some(options.name.token);
            }
        }
        None
    }
}
