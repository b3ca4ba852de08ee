//! What printing and deriving expressions have to do with each other.
ghost use Rattle.laws_printing.specs.Printing.Normal.{NormalFillsAlike, NormalIsPrintable, NormalPrintsAlike, NormalUsesAlike, RecipesSpell};
ghost use Rattle.laws_printing.specs.Printing.Attributes.{AttributesSpell, LinesOfAttributesSpell};
ghost use Rattle.laws_printing.specs.Printing.LinesLexed.{AliasesLex, InterpolationsFit};
ghost use Rattle.laws_printing.specs.Printing.MoreItems.{FunctionsSpell, ModulesSpell, SetsSpell, UnexportsSpell};
ghost use Rattle.laws_printing.specs.Printing.Held.{FormatsStop, SourcesAreWritten, TokensAreHeld};
ghost use Rattle.laws_printing.specs.Printing.Lexed.{ExpressionsLex};
ghost use Rattle.laws_printing.specs.Printing.ItemLaws.{AliasesSpell, AssignmentsSpell, BodiesSpell, DependenciesSpell, ImportsSpell, LinesSpell, ParametersSpell};
ghost use Rattle.laws_printing.specs.Printing.Laws.{SpellsBack, TextsOfWords};

/// What is derived is derived again from its printed words, whose text is what is printed.
pub fn words_spell_back()
    ensures spell { SpellsBack }
    ensures text { TextsOfWords }
{}

/// Items without attributes are derived again.
pub fn items_spell_back()
    ensures aliases { AliasesSpell }
    ensures assignments { AssignmentsSpell }
    ensures imports { ImportsSpell }
    ensures unexports { UnexportsSpell }
    ensures modules { ModulesSpell }
    ensures functions { FunctionsSpell }
    ensures sets { SetsSpell }
    ensures lines { LinesSpell }
    ensures bodies { BodiesSpell }
{}

/// Parameters and dependencies are derived again, where no `else` would be taken by what stands before it.
pub fn headers_spell_back()
    ensures dependencies { DependenciesSpell }
    ensures parameters { ParametersSpell }
{}

/// The printed words of an expression are its tokens.
pub fn words_lex_back()
    ensures { ExpressionsLex }
{}

/// Recipes are derived again, and a file prints as its normal shape.
pub fn recipes_spell_back()
    ensures recipes { RecipesSpell }
    ensures normal { NormalPrintsAlike }
    ensures filled { NormalFillsAlike }
    ensures uses { NormalUsesAlike }
    ensures printable { NormalIsPrintable }
{}

/// What words of a text spell is written of its tokens.
pub fn sources_are_written()
    ensures formats { FormatsStop }
    ensures expressions { SourcesAreWritten }
    ensures tokens { TokensAreHeld }
{}

/// Attributes are derived again, the options of `arg` in byte order.
pub fn attributes_spell_back()
    ensures one { AttributesSpell }
    ensures lines { LinesOfAttributesSpell }
{}

/// Printed lines are their tokens.
pub fn lines_lex_back()
    ensures aliases { AliasesLex }
    ensures interpolations { InterpolationsFit }
{}
