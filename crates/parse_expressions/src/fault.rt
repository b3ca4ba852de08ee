//! Why a parser stops.
ghost use Rattle.parse_expressions.specs.declared.fault.Fault.TheVariants.{OutOfMemory};
ghost use Rattle.std.specs.Prelude.{◌≡◌};

use just_text::{CompileErrorKind, Token};
use std::alloc::{AllocError, AllocFailed};

/// Why a parser stops.
#[derive(Drop)]
pub enum Fault<'src> {
    OutOfMemory,
    /// No number is left for a binding or a recipe.
    NumbersUsed,
    /// The token that no rule takes, or none where the tokens end.
    Unexpected(Option<Token<'src>>),
    /// A token, and the rule that it breaks.
    Refused(Token<'src>, CompileErrorKind),
}

impl<'src> From<AllocError> for Fault<'src> {
    ghost from_gives = { λ _ f. f ≡ OutOfMemory };

    fn from(_refused: AllocError) -> Fault<'src> {
        Fault::OutOfMemory
    }
}

impl<'src, T: Drop> From<AllocFailed<T>> for Fault<'src> {
    ghost from_gives = { λ _ f. f ≡ OutOfMemory };

    fn from(_refused: AllocFailed<T>) -> Fault<'src> {
        Fault::OutOfMemory
    }
}
