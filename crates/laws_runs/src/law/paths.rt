//! A path's printed text is read as the same path.
ghost use Rattle.laws_runs.specs.Paths.Paths.{PathsAreReadBack, PathsAreDistinct};

/// The names of a path with `::` between them are one word for that path, and no two paths are printed alike.
pub fn paths_are_read_back()
    ensures read { PathsAreReadBack }
    ensures distinct { PathsAreDistinct }
{}
