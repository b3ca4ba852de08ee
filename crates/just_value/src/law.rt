//! What holds of the definitions that the calls' contracts cite.
ghost use Rattle.just_value.specs.Lists.{PutInARow};
ghost use Rattle.just_value.specs.Paths.{JoinedAgain};
ghost use Rattle.just_value.specs.Values.{GoPairwise, JoinedAlone};

/// Lists of texts, joined, put side by side and told in a row.
pub fn lists_are_put_together()
    // One text joined is that text.
    ensures alone { JoinedAlone }
    // Of two lists of one length each text goes with the one at its place.
    ensures pairwise { GoPairwise }
    // Three or more texts in a row have a comma after each but the last, which stands after the conjunction.
    ensures row { PutInARow }
{}

/// Paths are put together again from what is told of them.
pub fn paths_join_again()
    // A path with neither an empty part nor `.` after a `/` is its parent joined with its file name.
    ensures { JoinedAgain }
{}
