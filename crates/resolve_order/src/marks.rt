//! Where things stand in a search.
ghost use Rattle.std.specs.Prelude.{◌≡◌, ◌<◌, length, slice_get, IfOk, Some};
ghost use Rattle.resolve_order.specs.Marked.{AreNew, IsSet};
ghost use Rattle.resolve_order.specs.Turns.{turn_of};

use std::alloc::{AllocError, Global};

/// Where a thing stands: not looked at yet; on the stack, at a place of it; in the order, at a place
/// of it.
#[derive(Clone, Copy)]
pub enum Mark {
    New,
    Open(usize),
    Done(usize),
}

/// What a search does with a need: it goes on after it, looks at what that needs first, or has found
/// a cycle that begins at this place of the stack.
#[derive(Clone, Copy)]
pub enum Turn {
    Pass,
    Descend,
    Back(usize),
}

/// What is done with a need that has this mark; one that is not there has none.
pub fn turn_at(mark: Option<Mark>) -> Turn
    ensures { result ≡ turn_of mark }
{
    match mark {
        None | Some(Mark::Done(_)) => Turn::Pass,
        Some(Mark::New) => Turn::Descend,
        Some(Mark::Open(place)) => Turn::Back(place),
    }
}

/// Marks for so many things, all new.
pub fn new_marks(alloc: Global, count: usize) -> Result<Vec<Mark>, AllocError>
    ensures { IfOk result (λ marks. AreNew count marks.items) }
{
    let mut marks = Vec::new(alloc);
    for _ in 0..count {
        marks.push(Mark::New)?;
    }
    Ok(marks)
}

/// The mark of the thing at the place, if there is one.
pub fn mark_at(marks: &[Mark], place: usize) -> Option<Mark>
    ensures { result ≡ slice_get marks.now place }
{
    marks.get(place).copied()
}

/// Gives the thing at the place this mark, and leaves the others as they are.
pub fn set_mark(marks: &mut [Mark], place: usize, mark: Mark)
    requires { place < length marks.old }
    ensures { IsSet marks.old place mark marks.new }
{
    marks[place] = mark;
}
