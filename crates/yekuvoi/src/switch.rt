//! What the first word asks.
ghost use Rattle.std.specs.Prelude.{◌≤◌, length};

use just_run::Action;

/// What the first word asks, if it is a switch.
#[derive(Clone, Copy)]
pub struct Start {
    /// What is done.
    pub action: Action,
    /// Whether commands are printed and none is run.
    pub dry_run: bool,
    /// Whether each prompt counts as confirmed.
    pub yes: bool,
    /// How many words were read.
    pub count: usize,
}

/// The action that the word asks for, if it does.
fn action(word: &str) -> Option<Action> {
    match word {
        "--evaluate" => Some(Action::Evaluate),
        "--command" => Some(Action::Command),
        "--dump" => Some(Action::Dump),
        "--fmt" => Some(Action::Format),
        "--list" => Some(Action::List),
        "--plan" => Some(Action::Plan),
        "--dry-run" | "--yes" => Some(Action::Run),
        _ => None,
    }
}

/// What the first of the words asks; a run of recipes where it is no switch.
pub fn read_start(words: &[String]) -> Start
    ensures { result.count ≤ length words.now }
{
    let mut start = Start {
        action: Action::Run,
        dry_run: false,
        yes: false,
        count: 0,
    };
    let Some(first) = words.first() else {
        return start;
    };
    let word = first.as_str();
    let Some(action) = action(word) else {
        return start;
    };
    start.action = action;
    start.dry_run = word == "--dry-run";
    start.yes = word == "--yes";
    start.count = 1;
    start
}
