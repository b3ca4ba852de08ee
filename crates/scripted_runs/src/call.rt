//! A call as words and files say it.
use crate::directives::{answers, call_words, pairs, table, way_of};
use crate::driver::told_driven;
use crate::given::{Given, given_of};
use crate::plain::told_plain;
use crate::way::{RUN, Telling, Way};
use scripted_files::{
    root_of, told_modules, told_printed, told_resolved, told_steady, told_tokens,
};
use std::alloc::{AllocError, Global};

/// The first word that says nothing, if there is one.
pub fn first_unknown(words: &[String]) -> Option<&str> {
    way_of(words).err()
}

fn told_in(
    alloc: Global,
    way: Way<'_>,
    words: &[String],
    files: &str,
) -> Result<String, AllocError> {
    let given = given_of(alloc, way, files, call_words(words))?;
    let (root, text) = root_of(files);
    match way.telling {
        Telling::Short | Telling::Whole => told_driven(alloc, way, &given),
        Telling::Plain => told_plain(alloc, way, &given),
        Telling::Modules => told_modules(alloc, &given.config, &given.sources, root),
        Telling::Resolved => told_resolved(alloc, &given.config, &given.sources, root),
        Telling::Steady => told_steady(alloc, &given.config, &given.sources, root),
        Telling::Printed => told_printed(alloc, text),
        Telling::Tokens(subject) => told_tokens(alloc, subject, text),
    }
}

/// The pairs, or the others where there are none.
fn pairs_or<'a>(
    pairs: &'a [(&'a str, &'a str)],
    others: &'a [(&'a str, &'a str)],
) -> &'a [(&'a str, &'a str)] {
    if pairs.is_empty() { others } else { pairs }
}

/// What is told of the files, driven as the words say. Each file is its name, a line end and its text;
/// a byte 0 parts them, and the first is the root. Where one of the words says nothing, the files are
/// run as `RUN` has it.
pub fn tell(alloc: Global, words: &[String], files: &str) -> Result<String, AllocError> {
    let table = table(alloc, words)?;
    let pairs = pairs(alloc, words, "pair")?;
    let said = way_of(words).unwrap_or(RUN);
    let way = Way {
        answers: answers(words, table.as_slice(), said.in_turn),
        pairs: pairs_or(pairs.as_slice(), said.pairs),
        ..said
    };
    told_in(alloc, way, words, files)
}
