//! What stands for `~`, `$NAME` and the like in a text.
ghost use Rattle.std.specs.Prelude.{List, ℕ, Result};
ghost use Rattle.just_text.specs.Expansion.{IsExpansion};

use crate::text::Text;
use std::alloc::{AllocError, Global};

/// Why a text is not expanded.
#[derive(Debug, Drop)]
pub enum ExpandFault {
    /// The text to print.
    Refused(Text),
    OutOfMemory,
}

impl From<AllocError> for ExpandFault {
    ghost use Rattle.std.specs.Prelude.{◌≡◌};
    ghost use Rattle.just_text.specs.declared.expander.ExpandFault.TheVariants.{OutOfMemory};

    ghost from_gives = { λ _ e. e ≡ OutOfMemory };

    fn from(_refused: AllocError) -> ExpandFault {
        ExpandFault::OutOfMemory
    }
}

/// Expands the texts of strings that stand after `x`.
pub trait Expander {
    /// The text that stands for a text, or the text of the refusal: a function of the expander's
    /// value and the text, so that an expander answers the same each time.
    ghost expansion: { Self → List ℕ → Result (List ℕ) (List ℕ) };

    /// Gives what stands for the text, unless memory runs out.
    fn expand(&self, alloc: Global, text: &str) -> Result<Text, ExpandFault>
        ensures { IsExpansion (expansion self.now text.now) result };
}
