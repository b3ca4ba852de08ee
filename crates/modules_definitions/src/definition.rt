//! Definitions: a name, what it stands for, and where.
ghost use Rattle.std.specs.Prelude.{◌≡◌};
ghost use Rattle.std.specs.Bool.{Decides};
ghost use Rattle.modules_definitions.specs.Defining.{space_of, IsNew};
ghost use Rattle.modules_definitions.specs.Keeping.{ShareName, front_cmp, place_cmp, rank};
ghost use Rattle.std.specs.Cmp.Lexicographic.{slice_cmp};
ghost use Rattle.std.specs.Ordering.{nat_cmp, ordering_then};

use just_text::Name;
use modules_compilation::{Place, front};
use std::cmp::Ordering;

/// Names of one space are told apart from one another.
#[derive(Clone, Copy, Debug, PartialEq, Eq)]
pub enum Space {
    /// Recipes, aliases and submodules.
    Common,
    Disabled,
    Function,
    Set,
    Unexport,
    Variable,
}

/// What a name stands for.
#[derive(Clone, Copy, Debug, PartialEq, Eq)]
pub enum Kind {
    Alias,
    /// A recipe that an operating system disables.
    Disabled,
    Function,
    /// The submodule at this place of all modules.
    Module(usize),
    Recipe,
    Set,
    Unexport,
    Variable,
}

/// A definition in its order among all of a module: by space, by name, and in reading order.
#[derive(Clone, Copy)]
pub struct Definition<'src, 'a> {
    pub space: Space,
    /// The front of the name, which tells most names apart.
    pub front: u64,
    pub text: &'src str,
    pub place: Place,
    pub kind: Kind,
    pub name: &'a Name<'src>,
}

/// The place of the space among all, from 0.
fn rank(space: Space) -> u8
    ensures { result ≡ rank space }
{
    match space {
        Space::Common => 0,
        Space::Disabled => 1,
        Space::Function => 2,
        Space::Set => 3,
        Space::Unexport => 4,
        Space::Variable => 5,
    }
}

/// The places by file, and in a file by item.
fn compare_places(one: Place, other: Place) -> Ordering
    ensures { result ≡ place_cmp one other }
{
    match one.file.cmp(&other.file) {
        Ordering::Equal => one.item.cmp(&other.item),
        unequal => unequal,
    }
}

/// The space that names of a kind belong to.
fn space_of(kind: Kind) -> Space
    ensures { result ≡ space_of kind }
{
    match kind {
        Kind::Alias | Kind::Module(_) | Kind::Recipe => Space::Common,
        Kind::Disabled => Space::Disabled,
        Kind::Function => Space::Function,
        Kind::Set => Space::Set,
        Kind::Unexport => Space::Unexport,
        Kind::Variable => Space::Variable,
    }
}

impl<'src, 'a> Definition<'src, 'a> {
    /// The definition of the name at the place.
    pub fn new(kind: Kind, name: &'a Name<'src>, place: Place) -> Definition<'src, 'a>
        ensures { IsNew kind name.now place result }
    {
        let text = name.lexeme();
        Definition {
            space: space_of(kind),
            front: front(text),
            text,
            place,
            kind,
            name,
        }
    }

    /// Whether both are of one name, in one space where a name has one definition: all but that of
    /// disabled recipes.
    pub fn shares_name(&self, other: &Definition<'src, '_>) -> bool
        ensures { Decides result (ShareName self.now other.now) }
    {
        self.space == other.space && self.text == other.text && self.space != Space::Disabled
    }

    /// By text, and for one text by place.
    fn compare_texts(&self, other: &Definition<'src, '_>) -> Ordering
        ensures { result ≡ ordering_then (slice_cmp nat_cmp self.now.text.now other.now.text.now) (place_cmp self.now.place other.now.place) }
    {
        match self.text.cmp(other.text) {
            Ordering::Equal => compare_places(self.place, other.place),
            unequal => unequal,
        }
    }

    /// The same, by fronts first.
    fn compare_fronts(&self, other: &Definition<'src, '_>) -> Ordering
        ensures { result ≡ ordering_then (nat_cmp self.now.front other.now.front) (ordering_then (slice_cmp nat_cmp self.now.text.now other.now.text.now) (place_cmp self.now.place other.now.place)) }
    {
        match self.front.cmp(&other.front) {
            Ordering::Equal => self.compare_texts(other),
            unequal => unequal,
        }
    }

    /// By space, front, text and place.
    pub fn compare(&self, other: &Definition<'src, '_>) -> Ordering
        ensures { result ≡ front_cmp self.now other.now }
    {
        match rank(self.space).cmp(&rank(other.space)) {
            Ordering::Equal => self.compare_fronts(other),
            unequal => unequal,
        }
    }
}
