//! The expander over the environment.
ghost use Rattle.std.specs.Prelude.{◌≡◌};
ghost use Rattle.std.specs.Str.{chars};
ghost use Rattle.std.specs.String.{string_bytes};
ghost use Rattle.just_text.specs.Expansion.{IsExpansion};
ghost use Rattle.program_system.specs.Expanded.{expansion, read, begun};

use crate::expansion::environment::Environment;
use crate::expansion::reading::Reading;
use just_text::{ExpandFault, Expander, Text};
use std::alloc::Global;

/// Reads a text to its end, after what stands for what came before.
fn read_all(
    alloc: Global,
    environment: &Environment,
    before: String,
    text: &str,
) -> Result<Text, ExpandFault>
    ensures { IsExpansion (read environment.now (begun (string_bytes before)) (chars text.now)) result }
{
    let mut reading = Reading::new(alloc, before);
    let mut rest = text.chars();
    while let Some(character) = rest.next() {
        match reading.take(alloc, environment, character) {
            Ok(()) => {}
            Err(fault) => return Err(fault),
        }
    }
    reading.finish(alloc, environment)
}

impl Expander for Environment {
    ghost expansion = { expansion };

    fn expand(&self, alloc: Global, text: &str) -> Result<Text, ExpandFault> {
        let Some(rest) = text.strip_prefix('~') else {
            return read_all(alloc, self, String::new(alloc), text);
        };
        match self.value("HOME") {
            Some(home) => read_all(alloc, self, String::from_str(alloc, home)?, rest),
            None => Err(ExpandFault::Refused(Text::from_text(alloc, "HOME")?)),
        }
    }
}
