//! What a file is printed as: its words, their text, and attributes in order.
ghost use Rattle.laws_printing.specs.Formatting.FileWords.{TextsOfFiles, TextsOfItems};
ghost use Rattle.laws_printing.specs.Formatting.ItemsLexed.{ItemsLex};
ghost use Rattle.laws_printing.specs.Formatting.Files.{FilesPrintBack};
ghost use Rattle.laws_printing.specs.Formatting.Fitting.{FitInOrder, OrderStays, SpelledInOrder};

/// The printed words of items and files have the text that is printed.
pub fn texts_are_printed()
    ensures items { TextsOfItems }
    ensures files { TextsOfFiles }
{}

/// Attributes in their order fit where they fitted, and stay in it.
pub fn attributes_fit_in_order()
    ensures fit { FitInOrder }
    ensures stays { OrderStays }
    ensures spelled { SpelledInOrder }
{}

/// The printed words of items are their tokens.
pub fn items_lex_back()
    ensures { ItemsLex }
{}

/// A file whose items are printed back is read again.
pub fn files_print_back()
    ensures { FilesPrintBack }
{}
