//! Why a built-in function answers nothing.
ghost use Rattle.std.specs.Prelude.{Err};
ghost use Rattle.evaluate_functions.specs.Functions.{Answers};

use just_text::Text;
use std::alloc::{AllocError, AllocFailed, Global};

/// Why a built-in function answers nothing.
#[derive(Drop)]
pub enum FunctionFault {
    OutOfMemory,
    /// What it says.
    Message(Text),
}

impl FunctionFault {
    /// The refusal that says a copy of the text; `OutOfMemory` where that is refused.
    pub fn from_text(alloc: Global, text: &str) -> FunctionFault
        ensures { Answers (Err text.now) (Err result) }
    {
        match Text::from_text(alloc, text) {
            Ok(message) => FunctionFault::Message(message),
            Err(_) => FunctionFault::OutOfMemory,
        }
    }
}

impl From<AllocError> for FunctionFault {
    ghost use Rattle.std.specs.Prelude.{◌≡◌};
    ghost use Rattle.evaluate_functions.specs.declared.fault.FunctionFault.TheVariants.{OutOfMemory};

    ghost from_gives = { λ _ e. e ≡ OutOfMemory };

    fn from(_refused: AllocError) -> FunctionFault {
        FunctionFault::OutOfMemory
    }
}

impl<T: Drop> From<AllocFailed<T>> for FunctionFault {
    ghost use Rattle.std.specs.Prelude.{◌≡◌};
    ghost use Rattle.evaluate_functions.specs.declared.fault.FunctionFault.TheVariants.{OutOfMemory};

    ghost from_gives = { λ _ e. e ≡ OutOfMemory };

    fn from(_refused: AllocFailed<T>) -> FunctionFault {
        FunctionFault::OutOfMemory
    }
}
