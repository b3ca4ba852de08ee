//! Words that say how files are driven, each a name, `=` and a value, or a flag alone.
use crate::answers::{Answers, Reply};
use crate::scripted::Failing;
use crate::way::{RUN, Telling, Way};
use just_run::{Action, Confirmation};
use scripted_files::Subject;
use std::alloc::{AllocError, Global};

/// The directive's name and value, which is empty for a flag.
fn name_and_value(word: &str) -> (&str, &str) {
    word.split_once('=').unwrap_or((word, ""))
}

fn find_telling(value: &str) -> Option<Telling> {
    match value {
        "short" => Some(Telling::Short),
        "whole" => Some(Telling::Whole),
        "plain" => Some(Telling::Plain),
        "modules" => Some(Telling::Modules),
        "resolved" => Some(Telling::Resolved),
        "steady" => Some(Telling::Steady),
        "printed" => Some(Telling::Printed),
        "kinds" => Some(Telling::Tokens(Subject::Kinds)),
        "lexemes" => Some(Telling::Tokens(Subject::Lexemes)),
        "places" => Some(Telling::Tokens(Subject::Places)),
        "refusal" => Some(Telling::Tokens(Subject::Refusal)),
        _ => None,
    }
}

fn find_action(value: &str) -> Option<Action> {
    match value {
        "run" => Some(Action::Run),
        "plan" => Some(Action::Plan),
        "evaluate" => Some(Action::Evaluate),
        "list" => Some(Action::List),
        "dump" => Some(Action::Dump),
        "format" => Some(Action::Format),
        "command" => Some(Action::Command),
        _ => None,
    }
}

fn find_confirmation(value: &str) -> Option<Confirmation> {
    match value {
        "yes" => Some(Confirmation::Yes),
        "no" => Some(Confirmation::No),
        "failed" => Some(Confirmation::Failed),
        _ => None,
    }
}

fn find_failing(value: &str) -> Option<Failing> {
    match value {
        "code" => Some(Failing::Code),
        "signal" => Some(Failing::Signal),
        "not-started" => Some(Failing::NotStarted),
        "not-unicode" => Some(Failing::NotUnicode),
        "io" => Some(Failing::Io),
        "memory" => Some(Failing::Memory),
        _ => None,
    }
}

/// The way with this place that fails in this way, as `PLACE KIND`.
fn failing<'a>(way: Way<'a>, value: &str) -> Option<Way<'a>> {
    let (place, kind) = value.split_once(' ')?;
    let failing = find_failing(kind)?;
    let failing_place = place.parse::<usize>().ok()?;
    Some(Way {
        failing_place,
        failing,
        ..way
    })
}

/// The way with what this flag says.
fn flagged<'a>(way: Way<'a>, flag: &str) -> Option<Way<'a>> {
    match flag {
        "dry-run" => Some(Way {
            dry_run: true,
            ..way
        }),
        "yes" => Some(Way { yes: true, ..way }),
        "quiet" => Some(Way { quiet: true, ..way }),
        "loquacious" => Some(Way {
            loquacious: true,
            ..way
        }),
        "no-dependencies" => Some(Way {
            no_dependencies: true,
            ..way
        }),
        "in-turn" => Some(Way {
            in_turn: true,
            ..way
        }),
        "place" => Some(Way {
            is_placed: true,
            ..way
        }),
        _ => None,
    }
}

/// The way with this text or number.
fn valued<'a>(way: Way<'a>, name: &str, value: &'a str) -> Option<Way<'a>> {
    match name {
        "base" => Some(Way { base: value, ..way }),
        "shell" => Some(Way {
            shell: Some(value),
            ..way
        }),
        "shell-arg" => Some(Way {
            shell_arg: Some(value),
            ..way
        }),
        "jobs" => Some(Way {
            jobs: Some(value.parse::<u32>().ok()?),
            ..way
        }),
        "recursion-limit" => Some(Way {
            recursion_limit: Some(value.parse::<u64>().ok()?),
            ..way
        }),
        "writes" => Some(Way {
            writes: Some(value.parse::<usize>().ok()?),
            ..way
        }),
        _ => None,
    }
}

/// The way with one choice.
fn chosen<'a>(way: Way<'a>, name: &str, value: &'a str) -> Option<Way<'a>> {
    match name {
        "tell" => Some(Way {
            telling: find_telling(value)?,
            ..way
        }),
        "action" => Some(Way {
            action: find_action(value)?,
            ..way
        }),
        "confirmation" => Some(Way {
            confirmation: find_confirmation(value)?,
            ..way
        }),
        "fail" => failing(way, value),
        _ => valued(way, name, value),
    }
}

/// Whether what the directive says is of the call alone, or of answers, and is read elsewhere.
fn is_read_elsewhere(name: &str, value: &str) -> bool {
    match name {
        "words" => true,
        "answer" => answer(value).is_some(),
        "always" => reply(value).is_some(),
        "pair" => value.split_once('=').is_some(),
        _ => false,
    }
}

/// The way with what the directive says, if it is one.
fn directed<'a>(way: Way<'a>, word: &'a str) -> Option<Way<'a>> {
    let Some((name, value)) = word.split_once('=') else {
        return flagged(way, word);
    };
    if is_read_elsewhere(name, value) {
        return Some(way);
    }
    chosen(way, name, value)
}

/// How the words say that files are driven, but for answers and pairs; or the first word
/// that says nothing.
pub(crate) fn way_of(words: &[String]) -> Result<Way<'_>, &str> {
    let mut way = RUN;
    for word in words {
        match directed(way, word.as_str()) {
            Some(next) => way = next,
            None => return Err(word.as_str()),
        }
    }
    Ok(way)
}

/// The last value of a directive of this name, if there is one.
fn last<'a>(words: &'a [String], wanted: &str) -> Option<&'a str> {
    let mut found = None;
    for word in words {
        let (name, value) = name_and_value(word.as_str());
        if name == wanted {
            found = Some(value);
        }
    }
    found
}

/// The words of the call, which spaces part.
pub(crate) fn call_words(words: &[String]) -> &str {
    last(words, "words").unwrap_or("")
}

fn code(text: &str) -> Option<Reply<'_>> {
    Some(Reply::Code(text.parse::<u8>().ok()?))
}

fn signal(text: &str) -> Option<Reply<'_>> {
    Some(Reply::Signal(text.parse::<u8>().ok()?))
}

fn truth(text: &str) -> Option<Reply<'_>> {
    match text {
        "true" => Some(Reply::Truth(true)),
        "false" => Some(Reply::Truth(false)),
        _ => None,
    }
}

/// The reply: its kind, and after a space what it comes with.
fn reply(value: &str) -> Option<Reply<'_>> {
    let (kind, text) = value.split_once(' ').unwrap_or((value, ""));
    match kind {
        "text" => Some(Reply::Text(text)),
        "truth" => truth(text),
        "absent" => Some(Reply::Absent),
        "code" => code(text),
        "signal" => signal(text),
        "not-started" => Some(Reply::NotStarted),
        "not-unicode" => Some(Reply::NotUnicode(text)),
        "io" => Some(Reply::Io(text)),
        "memory" => Some(Reply::Memory),
        _ => None,
    }
}

/// The question in words, and the reply to it.
fn answer(value: &str) -> Option<(&str, Reply<'_>)> {
    let (question, text) = value.split_once(" => ")?;
    Some((question, reply(text)?))
}

/// The row of a table that the word is, if it is an answer.
fn answer_of(word: &str) -> Option<(&str, Reply<'_>)> {
    let (name, value) = name_and_value(word);
    if name != "answer" {
        return None;
    }
    answer(value)
}

/// What the words answer to single questions.
pub(crate) fn table(alloc: Global, words: &[String]) -> Result<Vec<(&str, Reply<'_>)>, AllocError> {
    let mut table = Vec::new(alloc);
    for word in words {
        if let Some(row) = answer_of(word.as_str()) {
            table.push(row)?;
        }
    }
    Ok(table)
}

/// How all questions are answered: by the table where it has a row, row after row where it is used in
/// turn; else as the words always say, else by the text of each command.
pub(crate) fn answers<'a>(
    words: &'a [String],
    table: &'a [(&'a str, Reply<'a>)],
    in_turn: bool,
) -> Answers<'a> {
    if in_turn {
        return Answers::InTurn(table);
    }
    if !table.is_empty() {
        return Answers::Table(table);
    }
    match last(words, "always").and_then(reply) {
        Some(reply) => Answers::Always(reply),
        None => Answers::Echo,
    }
}

/// The name and the value that the word pairs, if it is a directive of this name.
fn pair_of<'a>(word: &'a str, wanted: &str) -> Option<(&'a str, &'a str)> {
    let (name, value) = name_and_value(word);
    if name != wanted {
        return None;
    }
    value.split_once('=')
}

/// The pairs of all directives of this name.
pub(crate) fn pairs<'a>(
    alloc: Global,
    words: &'a [String],
    wanted: &str,
) -> Result<Vec<(&'a str, &'a str)>, AllocError> {
    let mut pairs = Vec::new(alloc);
    for word in words {
        if let Some(pair) = pair_of(word.as_str(), wanted) {
            pairs.push(pair)?;
        }
    }
    Ok(pairs)
}
