//! Formatting keeps what a file says.
ghost use Rattle.laws_printing.specs.Formatted.Formatted.{PrintsBack, TextsAreEqual};

/// The formatted text of a printable file says its normal shape, and equal formatted texts come from equal normal shapes.
pub fn formatted_texts_say_the_same()
    ensures prints { PrintsBack }
    ensures equal { TextsAreEqual }
{
    justfile_syntax::file_law::file_law();
}
