//! What is still to do.
ghost use Rattle.std.specs.Prelude.{◌≡◌, ◌∷◌, [], MatchOption, OnOk};
ghost use Rattle.analyze_calls.specs.Runs.Frames.{todo};

use crate::frame::Frame;
use std::alloc::{AllocError, Global};
use std::marker::Model;

/// What is still to do, the next first.
#[derive(Drop)]
pub(crate) struct Stack<'m, 'src> {
    frames: Vec<Frame<'m, 'src>>,
}

impl<'m, 'src> Model for Stack<'m, 'src> {
    ghost use Rattle.std.specs.Prelude.{List, map, reverse};
    ghost use Rattle.analyze_calls.specs.Runs.Todo.{Todo};
    ghost use Rattle.analyze_calls.specs.Runs.Frames.{todo};

    ghost Value = { List Todo };

    ghost view = { λ s. map todo (reverse s.frames.items) };
}

impl<'m, 'src> Stack<'m, 'src> {
    /// With nothing to do.
    pub(crate) fn new(alloc: Global) -> Self
        ensures { result ≡ [] }
    {
        Stack {
            frames: Vec::new(alloc),
        }
    }

    /// Puts a part in front of all others.
    pub(crate) fn push(&mut self, frame: Frame<'m, 'src>) -> Result<(), AllocError>
        ensures { OnOk result (self.new ≡ todo frame.entry ∷ self.old) }
    {
        self.frames.push(frame)?;
        Ok(())
    }

    /// Takes the next part.
    pub(crate) fn pop(&mut self) -> Option<Frame<'m, 'src>>
        ensures { MatchOption result (self.old ≡ []) (λ f. self.old ≡ todo f ∷ self.new) }
    {
        self.frames.pop()
    }
}
