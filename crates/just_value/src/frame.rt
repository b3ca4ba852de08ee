//! Frames: bindings by their numbers.
ghost use Rattle.std.specs.Prelude.{◌≡◌, ◌+◌, ◌≤◌, [], OnOk, IfErr, length, map};
ghost use Rattle.std.specs.Option.{option_map};
ghost use Rattle.std.specs.Ordering.{nat_cmp};
ghost use Rattle.just_value.specs.Frames.{Rebinds, ByNumber, bound_in, bound_of};
ghost use Rattle.just_value.specs.Searches.{IsPlace, digits};

use crate::bound::Bound;
use crate::row::Row;
use crate::steps::Steps;
use just_text::Number;
use std::alloc::{AllocFailed, Global};
use std::cmp::Ordering;
use std::marker::Model;

/// Bindings, at most one of each number.
#[derive(Drop)]
pub struct Frame<'src> {
    bindings: Row<Bound<'src>>,
}

impl<'src> Model for Frame<'src> {
    ghost use Rattle.std.specs.Prelude.{List, map};
    ghost use Rattle.just_value.specs.Frames.{BoundRow, ByNumber, bound_of};

    ghost Value = { List BoundRow };

    ghost view = { λ f. map bound_of f.bindings };

    ghost invariant = { λ f. ByNumber (map bound_of f.bindings) };
}

impl<'src> Frame<'src> {
    /// A frame without bindings, which takes no memory.
    pub(crate) fn new(alloc: Global) -> Frame<'src>
        ensures { result ≡ [] }
    {
        Frame {
            bindings: Row::new(alloc),
        }
    }

    /// Puts the binding in, in place of an earlier one of its number. A refused growth changes
    /// nothing and gives the binding back.
    pub(crate) fn bind(&mut self, binding: Bound<'src>) -> Result<(), AllocFailed<Bound<'src>>>
        ensures bound { OnOk result (Rebinds self.old (bound_of binding.entry) self.new) }
        ensures sorted { ByNumber self.new }
        ensures refused { IfErr result (λ e. (self.new ≡ self.old) × (bound_of e.value ≡ bound_of binding.entry)) }
    {
        let mut steps = Steps { taken: 0 };
        match self.position(binding.number, &mut steps) {
            Ok(place) => {
                self.bindings.set(place, binding);
                Ok(())
            }
            Err(place) => self.bindings.insert(place, binding),
        }
    }

    /// The binding of the number, if there is one. Takes no memory.
    pub fn binding(&self, number: Number) -> Option<&Bound<'src>>
        ensures { option_map (λ b. bound_of b.now) result ≡ bound_in self.now number }
    {
        let mut steps = Steps { taken: 0 };
        match self.position(number, &mut steps) {
            Ok(place) => Some(self.bindings.get(place)),
            Err(_) => None,
        }
    }

    /// The place of the number's binding among all by their numbers, or else the place where one
    /// would go. Takes no memory, and at most as many comparisons as the count of bindings has binary
    /// digits.
    pub(crate) fn position(&self, number: Number, steps: &mut Steps) -> Result<usize, usize>
        ensures place { IsPlace nat_cmp (map (λ b. b.number) self.now) number result }
        ensures counted { steps.new.taken ≤ steps.old.taken + digits (length self.now) }
    {
        let mut low = 0;
        let mut high = self.bindings.len();
        while low < high {
            let middle = low + (high - low) / 2;
            match steps.compare(&number, &self.bindings.get(middle).number) {
                Ordering::Less => high = middle,
                Ordering::Equal => return Ok(middle),
                Ordering::Greater => low = middle + 1,
            }
        }
        Err(low)
    }

    /// Goes over the bindings by their numbers. Takes no memory.
    pub fn bindings(&self) -> Bindings<'_, Bound<'src>>
        ensures all { map bound_of result ≡ self.now }
        ensures sorted { ByNumber self.now }
    {
        Bindings {
            bindings: &self.bindings,
            next: 0,
        }
    }
}

/// The bindings of a frame, by their numbers. Contracts see it as those that are left.
#[derive(Drop)]
pub struct Bindings<'a, B> {
    bindings: &'a Row<B>,
    next: usize,
}

impl<'a, B> Model for Bindings<'a, B> {
    ghost use Rattle.std.specs.Prelude.{◌≤◌, List, drop, length};

    ghost Value = { List B };

    ghost view = { λ b. drop b.next b.bindings.now };

    ghost invariant = { λ b. b.next ≤ length b.bindings.now };
}

impl<'a, B> Iterator for Bindings<'a, B> {
    ghost use Rattle.std.specs.Prelude.{length};
    ghost use Rattle.std.specs.Iterator.{at_most};
    ghost use Rattle.std.specs.Map.Iter.{TakesFirst};

    type Item = &'a B;

    ghost next_gives = { TakesFirst (λ b. b.now) };

    ghost remaining = { λ s. at_most (length s) };

    fn next(&mut self) -> Option<&'a B> {
        if self.next < self.bindings.len() {
            let binding = self.bindings.get(self.next);
            self.next += 1;
            return Some(binding);
        }
        None
    }

    fn size_hint(&self) -> (usize, Option<usize>) {
        let left = self.bindings.len() - self.next;
        (left, Some(left))
    }
}
