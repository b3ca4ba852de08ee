//! Places of recipes by where they stand.
ghost use Rattle.std.specs.Prelude.{◌≡◌, ℕ, nat_eq, if◌then◌else◌, None, OnOk, Some};
ghost use Rattle.resolve_recipes.specs.Standing.{entry_in, is_place, place_in};

use modules_compilation::Place;
use std::alloc::{AllocError, Global};

/// A place for each item that has one, by the item's file and its number there.
#[derive(Drop)]
pub struct ItemPlaces {
    alloc: Global,
    files: Vec<Vec<Option<usize>>>,
}

/// Puts the place into the row, which grows up to the item.
fn put(row: &mut Vec<Option<usize>>, item: usize, place: usize) -> Result<(), AllocError>
    ensures { OnOk result ((other : ℕ) → entry_in row.new.items other ≡ (if nat_eq item other then Some place else entry_in row.old.items other)) }
{
    while row.len() <= item {
        row.push(None)?;
    }
    row[item] = Some(place);
    Ok(())
}

impl ItemPlaces {
    /// No item has a place. Takes no memory.
    pub fn new(alloc: Global) -> ItemPlaces
        ensures { (item : Place) → place_in result item ≡ None }
    {
        ItemPlaces {
            alloc,
            files: Vec::new(alloc),
        }
    }

    /// Gives the item this place, instead of an earlier one, and leaves the other items as they are.
    /// Refused only where memory is.
    pub fn insert(&mut self, item: Place, place: usize) -> Result<(), AllocError>
        ensures { OnOk result ((other : Place) → place_in self.new other ≡ (if is_place item other then Some place else place_in self.old other)) }
    {
        while self.files.len() <= item.file {
            self.files.push(Vec::new(self.alloc))?;
        }
        put(&mut self.files[item.file], item.item, place)
    }

    /// The item's place, if it has one. Takes no memory.
    pub fn get(&self, item: Place) -> Option<usize>
        ensures { result ≡ place_in self.now item }
    {
        if item.file >= self.files.len() {
            return None;
        }
        let row = self.files[item.file].as_slice();
        if item.item >= row.len() {
            return None;
        }
        row[item.item]
    }
}
