//! Elements in an order.
ghost use Rattle.std.specs.Prelude.{◌≡◌, ◌<◌, ◌≤◌, [], IfErr, length, get_or, set, if◌then◌else◌, is_ok};
ghost use Rattle.std.specs.List.{insert};

use crate::blocks::Blocks;
use std::alloc::{AllocError, AllocFailed, Global};
use std::marker::Model;
use std::mem;

/// How many elements stand in one vector at most.
const FEW: usize = 64;

/// Elements in an order: a few in one vector, which takes no more memory than they, and many in
/// blocks.
#[derive(Drop)]
enum Elements<T> {
    Few(Vec<T>),
    Many(Box<Blocks<T>>),
}

/// Elements in an order, into which one goes in at any place.
#[derive(Drop)]
pub(crate) struct Row<T> {
    elements: Elements<T>,
}

impl<T> Model for Row<T> {
    ghost use Rattle.std.specs.Prelude.{List};
    ghost use Rattle.just_value.specs.Rows.{elements_of};

    ghost Value = { List T };

    ghost view = { λ r. elements_of r.elements };
}

/// Puts the element in at the place. A refused growth changes nothing and gives the element back. Most
/// rows are short, so a full vector grows by no more than a sixteenth and one.
fn put_in<T>(elements: &mut Vec<T>, place: usize, element: T) -> Result<(), AllocFailed<T>>
    requires { place ≤ length elements.old.items }
    ensures items { elements.new.items ≡ (if is_ok result then insert elements.old.items place element else elements.old.items) }
    ensures returned { IfErr result (λ e. e.value ≡ element) }
{
    if elements.len() == elements.capacity() {
        let more = elements.len() / 16 + 1;
        if elements.try_reserve_exact(more).is_err() {
            return Err(AllocFailed { value: element });
        }
    }
    elements.insert(place, element)
}

impl<T> Row<T> {
    /// A row without elements, which takes no memory.
    pub(crate) fn new(alloc: Global) -> Row<T>
        ensures { result ≡ [] }
    {
        Row {
            elements: Elements::Few(Vec::new(alloc)),
        }
    }

    /// How many elements there are.
    pub(crate) fn len(&self) -> usize
        ensures { result ≡ length self.now }
    {
        match &self.elements {
            Elements::Few(elements) => elements.len(),
            Elements::Many(blocks) => blocks.len(),
        }
    }

    /// The element at the place.
    pub(crate) fn get(&self, place: usize) -> &T
        requires { place < length self.now }
        ensures { result.now ≡ get_or self.now place result.now }
    {
        match &self.elements {
            Elements::Few(elements) => &elements[place],
            Elements::Many(blocks) => blocks.get(place),
        }
    }
}

impl<T: Drop> Row<T> {
    /// Puts the element in the place of the one there.
    pub(crate) fn set(&mut self, place: usize, element: T)
        requires { place < length self.old }
        ensures { self.new ≡ set self.old place element }
    {
        match &mut self.elements {
            Elements::Few(elements) => elements[place] = element,
            Elements::Many(blocks) => blocks.set(place, element),
        }
    }

    /// Puts the elements into blocks, where they are too many for one vector.
    fn widen(&mut self) -> Result<(), AllocError>
        ensures { self.new ≡ self.old }
    {
        let Elements::Few(elements) = &mut self.elements else {
            return Ok(());
        };
        if elements.len() < FEW {
            return Ok(());
        }
        let alloc = *elements.allocator();
        let mut many = Box::new(alloc, Blocks::new(alloc)?)?;
        many.fill(mem::replace(elements, Vec::new(alloc)));
        self.elements = Elements::Many(many);
        Ok(())
    }

    /// Puts the element in at the place. A refused growth changes nothing and gives the element back.
    pub(crate) fn insert(&mut self, place: usize, element: T) -> Result<(), AllocFailed<T>>
        requires { place ≤ length self.old }
        ensures items { self.new ≡ (if is_ok result then insert self.old place element else self.old) }
        ensures returned { IfErr result (λ e. e.value ≡ element) }
    {
        if self.widen().is_err() {
            return Err(AllocFailed { value: element });
        }
        match &mut self.elements {
            Elements::Few(elements) => put_in(elements, place, element),
            Elements::Many(blocks) => blocks.insert(place, element),
        }
    }
}
