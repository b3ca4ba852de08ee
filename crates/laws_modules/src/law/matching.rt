//! Files and their sources.
ghost use Rattle.laws_modules.specs.Matching.Laws.{ReadFilesMatch};

/// A file that was read says what its source says, blank lines too, and its strings hold what they stand for.
pub fn read_files_match()
    ensures { ReadFilesMatch }
{}
