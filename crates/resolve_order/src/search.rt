//! A search for an order.
ghost use Rattle.std.specs.Prelude.{◌≡◌, ◌<◌, ◌≤◌, ◌+◌, ◌++◌, ◌∷◌, [], drop, map, length, slice_get, Some, OnOk, IfOk, IfErr};
ghost use Rattle.resolve_order.specs.Marked.{IsSet};
ghost use Rattle.resolve_order.specs.Needs.{rows};
ghost use Rattle.resolve_order.specs.Order.{IsReason};
ghost use Rattle.resolve_order.specs.Search.{Searches, IsSearch, IsNearer, AreLookedAt, frame_shape, frame_place, fresh, passed, stack_of, IsFresh};

use crate::fault::OrderFault;
use crate::marks::{Mark, Turn, mark_at, new_marks, set_mark, turn_at};
use std::alloc::{AllocError, Global};

/// A thing that waits for what it needs, and the needs that are still to look at.
#[derive(Clone, Copy)]
pub struct Frame<'a> {
    pub place: usize,
    pub rest: &'a [usize],
}

/// What was found so far. Each thing on the stack needs the one above it.
#[derive(Drop)]
pub struct Search<'a> {
    pub marks: Vec<Mark>,
    pub stack: Vec<Frame<'a>>,
    pub order: Vec<usize>,
}

/// The places on the stack from this place of it on, that of the frame above it, and the one that
/// this needs.
fn cycle(
    alloc: Global,
    stack: &[Frame<'_>],
    from: usize,
    top: Frame<'_>,
    need: usize,
) -> Result<Vec<usize>, AllocError>
    requires { from ≤ length stack.now }
    ensures { IfOk result (λ places. places.items ≡ map frame_place (map frame_shape (drop from stack.now)) ++ top.entry.place ∷ need ∷ []) }
{
    let mut places = Vec::new(alloc);
    let frames = &stack[from..];
    for frame in frames {
        places.push(frame.place)?;
    }
    places.push(top.place)?;
    places.push(need)?;
    Ok(places)
}

impl<'a> Search<'a> {
    /// A search that has found nothing.
    pub fn new(alloc: Global, needs: &'a [Vec<usize>]) -> Result<Search<'a>, AllocError>
        ensures { IfOk result (λ search. IsFresh (rows needs.now) search) }
    {
        Ok(Search {
            marks: new_marks(alloc, needs.len())?,
            stack: Vec::new(alloc),
            order: Vec::new(alloc),
        })
    }

    /// The order that was found.
    pub fn into_order(self) -> Vec<usize>
        ensures { result.items ≡ self.entry.order.items }
    {
        self.order
    }

    /// Puts the thing at the place on the stack.
    fn open(&mut self, needs: &'a [Vec<usize>], place: usize) -> Result<(), AllocError>
        requires within { place < length needs.now }
        requires marked { place < length self.old.marks.items }
        ensures stack { OnOk result (stack_of self.new ≡ stack_of self.old ++ fresh (rows needs.entry.now) place ∷ []) }
        ensures marks { OnOk result (IsSet self.old.marks.items place (Mark.Open (length (stack_of self.old))) self.new.marks.items) }
        ensures order { OnOk result (self.new.order.items ≡ self.old.order.items) }
    {
        let height = self.stack.len();
        self.stack.push(Frame {
            place,
            rest: needs[place].as_slice(),
        })?;
        set_mark(self.marks.as_mut_slice(), place, Mark::Open(height));
        Ok(())
    }

    /// Puts the thing into the order.
    fn close(&mut self, frame: Frame<'a>) -> Result<(), AllocError>
        requires { frame.place < length self.old.marks.items }
        ensures stack { OnOk result (stack_of self.new ≡ stack_of self.old) }
        ensures marks { OnOk result (IsSet self.old.marks.items frame.entry.place (Mark.Done (length self.old.order.items)) self.new.marks.items) }
        ensures order { OnOk result (self.new.order.items ≡ self.old.order.items ++ frame.entry.place ∷ []) }
    {
        let place = self.order.len();
        self.order.push(frame.place)?;
        set_mark(self.marks.as_mut_slice(), frame.place, Mark::Done(place));
        Ok(())
    }

    /// Leaves the thing on the stack, and puts the new one that it needs above it.
    fn descend(
        &mut self,
        needs: &'a [Vec<usize>],
        frame: Frame<'a>,
        need: usize,
    ) -> Result<(), AllocError>
        requires within { need < length needs.now }
        requires marked { need < length self.old.marks.items }
        ensures stack { OnOk result (stack_of self.new ≡ (stack_of self.old ++ frame_shape frame.entry ∷ []) ++ fresh (rows needs.entry.now) need ∷ []) }
        ensures marks { OnOk result (IsSet self.old.marks.items need (Mark.Open (length (stack_of self.old) + 1)) self.new.marks.items) }
        ensures order { OnOk result (self.new.order.items ≡ self.old.order.items) }
    {
        self.stack.push(frame)?;
        self.open(needs, need)
    }

    /// Leaves the thing on the stack, after the first need that was still to look at.
    fn pass(&mut self, frame: Frame<'a>) -> Result<(), AllocError>
        requires { 0 < length frame.rest.now }
        ensures stack { OnOk result (stack_of self.new ≡ stack_of self.old ++ passed (frame_shape frame.entry) ∷ []) }
        ensures marks { self.new.marks.items ≡ self.old.marks.items }
        ensures order { self.new.order.items ≡ self.old.order.items }
    {
        self.stack.push(Frame {
            place: frame.place,
            rest: &frame.rest[1..],
        })?;
        Ok(())
    }

    /// Looks at the next need of the thing that stood on top of the stack.
    fn step(
        &mut self,
        alloc: Global,
        needs: &'a [Vec<usize>],
        frame: Frame<'a>,
    ) -> Result<(), OrderFault>
        requires { IsSearch (rows needs.now) self.old.marks.items (stack_of self.old ++ frame_shape frame ∷ []) self.old.order.items }
        ensures search { OnOk result (Searches (rows needs.entry.now) self.new) }
        ensures nearer { OnOk result (IsNearer (rows needs.entry.now) self.old.marks.items (stack_of self.old ++ frame_shape frame.entry ∷ []) self.new.marks.items (stack_of self.new)) }
        ensures reason { IfErr result (λ fault. IsReason (rows needs.entry.now) fault) }
    {
        let Some(need) = frame.rest.first() else {
            self.close(frame)?;
            return Ok(());
        };
        match turn_at(mark_at(self.marks.as_slice(), *need)) {
            Turn::Pass => {
                self.pass(frame)?;
                Ok(())
            }
            Turn::Descend => {
                self.descend(needs, frame, *need)?;
                Ok(())
            }
            Turn::Back(from) => {
                let places = cycle(alloc, self.stack.as_slice(), from, frame, *need)?;
                Err(OrderFault::Cycle(places))
            }
        }
    }

    /// Puts the thing at the place on the empty stack, if it is new.
    fn enter(&mut self, needs: &'a [Vec<usize>], place: usize) -> Result<(), AllocError>
        requires within { place < length needs.now }
        requires empty { stack_of self.old ≡ [] }
        requires search { Searches (rows needs.now) self.old }
        requires looked { AreLookedAt self.old.marks.items place }
        ensures search { OnOk result (Searches (rows needs.entry.now) self.new) }
        ensures looked { OnOk result (AreLookedAt self.new.marks.items (place + 1)) }
    {
        match mark_at(self.marks.as_slice(), place) {
            Some(Mark::New) => self.open(needs, place),
            Some(Mark::Open(_)) | Some(Mark::Done(_)) | None => Ok(()),
        }
    }

    /// Puts the thing at the place into the order, after all that it needs.
    pub fn visit(
        &mut self,
        alloc: Global,
        needs: &'a [Vec<usize>],
        place: usize,
    ) -> Result<(), OrderFault>
        requires within { place < length needs.now }
        requires empty { stack_of self.old ≡ [] }
        requires search { Searches (rows needs.now) self.old }
        requires looked { AreLookedAt self.old.marks.items place }
        ensures empty { OnOk result (stack_of self.new ≡ []) }
        ensures search { OnOk result (Searches (rows needs.entry.now) self.new) }
        ensures looked { OnOk result (AreLookedAt self.new.marks.items (place + 1)) }
        ensures reason { IfErr result (λ fault. IsReason (rows needs.entry.now) fault) }
    {
        self.enter(needs, place)?;
        while let Some(frame) = self.stack.pop() {
            self.step(alloc, needs, frame)?;
        }
        Ok(())
    }
}
