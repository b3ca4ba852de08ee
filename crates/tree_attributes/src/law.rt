//! What the definitions of attributes come to.
ghost use Rattle.tree_attributes.specs.Sets.Laws.{EqualOnesStay, NoneIsLost, PlacesDoNotCount, SortingTwiceIsOnce, TheyStandInOrder};

/// The attributes in order are those that were given, each after those that come before it by name
/// and then by printed arguments, and equal ones as they were given. Sorting twice is once, and
/// where attributes are written doesn't count.
pub fn order()
    ensures lost { NoneIsLost }
    ensures sorted { TheyStandInOrder }
    ensures stable { EqualOnesStay }
    ensures twice { SortingTwiceIsOnce }
    ensures places { PlacesDoNotCount }
{}
