//! Elements in an order, in blocks, so that an element goes in at any place without moving all behind it.
ghost use Rattle.std.specs.Prelude.{◌≡◌, ℕ, ◌+◌, ◌<◌, ◌≤◌, ◌^◌, [], IfErr, IfOk, OnErr, List, length, take, get_or, set, if◌then◌else◌, is_ok};
ghost use Rattle.std.specs.List.{insert};
ghost use Rattle.std.specs.Global.{Vec};
ghost use Rattle.just_value.specs.Blocks.{AreStarts, IsBlockOf, IsPlaceIn, StartUpTo, elements};

use std::alloc::{AllocError, AllocFailed, Global};
use std::marker::Model;

/// How many elements a block has at most.
const MOST: usize = 128;

/// Elements in an order, in blocks of at most so many.
#[derive(Drop)]
pub(crate) struct Blocks<T> {
    blocks: Vec<Vec<T>>,
    /// How many elements stand before each block.
    starts: Vec<usize>,
    len: usize,
}

impl<T> Model for Blocks<T> {
    ghost use Rattle.std.specs.Prelude.{List, ◌≡◌, ◌<◌, length};
    ghost use Rattle.just_value.specs.Blocks.{AreStarts, elements};

    ghost Value = { List T };

    ghost view = { λ b. elements b.blocks.items };

    ghost invariant = { λ b. (AreStarts b.blocks.items b.starts.items) × (0 < length b.blocks.items) × (b.len ≡ length (elements b.blocks.items)) };
}

/// The block in which the place stands, of so many.
fn block_of(starts: &[usize], count: usize, place: usize) -> usize
    requires some { 0 < count }
    requires enough { count ≤ length starts.now }
    requires first { (d : ℕ) → get_or starts.now 0 d ≤ place }
    ensures { IsBlockOf starts.now count place result }
{
    let mut low = 0;
    let mut high = count;
    while high - low > 1 {
        let middle = low + (high - low) / 2;
        if starts[middle] <= place {
            low = middle;
        } else {
            high = middle;
        }
    }
    low
}

/// The block in which the place stands, or at whose end it is, and the place in that block.
fn place_in<T>(blocks: &[Vec<T>], starts: &[usize], place: usize) -> (usize, usize)
    requires starts { AreStarts blocks.now starts.now }
    requires some { 0 < length blocks.now }
    requires within { place ≤ length (elements blocks.now) }
    ensures { IsPlaceIn blocks.now place result }
{
    let block = block_of(starts, blocks.len(), place);
    (block, place - starts[block])
}

/// Counts the elements before each block behind this one anew.
fn count_starts<T>(blocks: &[Vec<T>], starts: &mut Vec<usize>, from: usize)
    requires within { from < length blocks.now }
    requires enough { length blocks.now ≤ length starts.old.items }
    requires before { StartUpTo (from + 1) blocks.now starts.old.items }
    requires small { length (elements blocks.now) < 2 ^ 64 }
    ensures { AreStarts blocks.now starts.new.items }
{
    let mut start = starts[from];
    for block in from + 1..blocks.len() {
        start += blocks[block - 1].len();
        starts[block] = start;
    }
}

/// Puts an empty block behind this one, and moves the elements from this place of it on there. A
/// refused growth leaves the elements as they are.
fn split_block<T: Drop>(blocks: &mut Vec<Vec<T>>, block: usize, at: usize) -> Result<(), AllocError>
    requires within { block < length blocks.old.items }
    requires inside { (d : Vec T) → at ≤ length (get_or blocks.old.items block d).items }
    ensures elements { elements blocks.new.items ≡ elements blocks.old.items }
    ensures before { (j : ℕ) → j ≤ block → take j blocks.new.items ≡ take j blocks.old.items }
    ensures count { (length blocks.old.items ≤ length blocks.new.items) × (length blocks.new.items ≤ length blocks.old.items + 1) }
{
    let alloc = *blocks.allocator();
    blocks.insert(block + 1, Vec::new(alloc))?;
    let behind = blocks[block].split_off(at)?;
    blocks[block + 1] = behind;
    Ok(())
}

/// Puts the element into the block at the place of it.
fn put_in<T: Drop>(
    blocks: &mut Vec<Vec<T>>,
    block: usize,
    place: usize,
    element: T,
) -> Result<(), AllocFailed<T>>
    requires within { block < length blocks.old.items }
    requires inside { (d : Vec T) → place ≤ length (get_or blocks.old.items block d).items }
    ensures elements { elements blocks.new.items ≡ (if is_ok result then insert (elements blocks.old.items) (length (elements (take block blocks.old.items)) + place) element else elements blocks.old.items) }
    ensures before { (j : ℕ) → j ≤ block → take j blocks.new.items ≡ take j blocks.old.items }
    ensures count { length blocks.new.items ≡ length blocks.old.items }
    ensures starts { (starts : List ℕ) → OnErr result (AreStarts blocks.old.items starts → AreStarts blocks.new.items starts) }
    ensures returned { IfErr result (λ e. e.value ≡ element) }
{
    blocks[block].insert(place, element)
}

impl<T> Blocks<T> {
    /// How many elements there are.
    pub(crate) fn len(&self) -> usize
        ensures { result ≡ length self.now }
    {
        self.len
    }

    /// The element at the place.
    pub(crate) fn get(&self, place: usize) -> &T
        requires { place < length self.now }
        ensures { result.now ≡ get_or self.now place result.now }
    {
        let (block, offset) = place_in(self.blocks.as_slice(), self.starts.as_slice(), place);
        &self.blocks[block][offset]
    }
}

impl<T: Drop> Blocks<T> {
    /// No elements, in an empty block.
    pub(crate) fn new(alloc: Global) -> Result<Blocks<T>, AllocError>
        ensures { IfOk result (λ blocks. blocks ≡ []) }
    {
        let mut starts = Vec::new(alloc);
        starts.push(0)?;
        let mut blocks = Vec::new(alloc);
        blocks.push(Vec::new(alloc))?;
        Ok(Blocks {
            blocks,
            starts,
            len: 0,
        })
    }

    /// Puts the elements in, where there are none yet.
    pub(crate) fn fill(&mut self, elements: Vec<T>)
        requires { self.old ≡ [] }
        ensures { self.new ≡ elements.items }
    {
        self.len = elements.len();
        self.blocks[0] = elements;
        count_starts(self.blocks.as_slice(), &mut self.starts, 0);
    }

    /// Puts the element in the place of the one there.
    pub(crate) fn set(&mut self, place: usize, element: T)
        requires { place < length self.old }
        ensures { self.new ≡ set self.old place element }
    {
        let (block, offset) = place_in(self.blocks.as_slice(), self.starts.as_slice(), place);
        self.blocks[block][offset] = element;
    }

    /// Splits the block of the place where it is full. The elements stay as they are.
    fn make_room(&mut self, place: usize) -> Result<(), AllocError>
        requires { place ≤ length self.old }
        ensures { self.new ≡ self.old }
    {
        let (block, _) = place_in(self.blocks.as_slice(), self.starts.as_slice(), place);
        let filled = self.blocks[block].len();
        if filled < MOST {
            return Ok(());
        }
        self.starts.push(0)?;
        let at = if place == self.len {
            filled
        } else {
            filled / 2
        };
        let done = split_block(&mut self.blocks, block, at);
        count_starts(self.blocks.as_slice(), &mut self.starts, block);
        done
    }

    /// Puts the element in at the place.
    fn put(&mut self, place: usize, element: T) -> Result<(), AllocFailed<T>>
        requires { place ≤ length self.old }
        ensures items { self.new ≡ (if is_ok result then insert self.old place element else self.old) }
        ensures returned { IfErr result (λ e. e.value ≡ element) }
    {
        let Some(len) = self.len.checked_add(1) else {
            return Err(AllocFailed { value: element });
        };
        let (block, offset) = place_in(self.blocks.as_slice(), self.starts.as_slice(), place);
        put_in(&mut self.blocks, block, offset, element)?;
        self.len = len;
        count_starts(self.blocks.as_slice(), &mut self.starts, block);
        Ok(())
    }

    /// Puts the element in at the place. A refused growth changes nothing and gives the element back.
    pub(crate) fn insert(&mut self, place: usize, element: T) -> Result<(), AllocFailed<T>>
        requires { place ≤ length self.old }
        ensures items { self.new ≡ (if is_ok result then insert self.old place element else self.old) }
        ensures returned { IfErr result (λ e. e.value ≡ element) }
    {
        if self.make_room(place).is_err() {
            return Err(AllocFailed { value: element });
        }
        self.put(place, element)
    }
}
