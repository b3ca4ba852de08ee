//! Laws of the texts of the root.
ghost use Rattle.meaning_texts.specs.Laws.{AnswersAreFormatted, AnswersFormatSome, AnswersStayAlike, DumpsStayAlike, ListingsAreOne, ListingsStand, ListingsStayAlike, OfferedModulesAreDefined, RootTextsStand};

/// The list of a module of a compilation is that of its world, which has one; its submodules are
/// modules that are defined.
pub fn lists_are_those_of_the_world()
    ensures stand { ListingsStand }
    ensures one { ListingsAreOne }
    ensures modules { OfferedModulesAreDefined }
{}

/// What is printed of the root's file is what its text says.
pub fn root_texts_are_said()
    ensures { RootTextsStand }
{}

/// What is answered of the root may stand in its place.
pub fn answers_may_stand()
    ensures formatted { AnswersAreFormatted }
    ensures some { AnswersFormatSome }
{}

/// Lists and texts stay the same where some files stand in their formatted text.
pub fn texts_stay_alike()
    ensures lists { ListingsStayAlike }
    ensures dumps { DumpsStayAlike }
    ensures answers { AnswersStayAlike }
{}
