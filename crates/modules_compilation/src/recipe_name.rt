//! Names of recipes in an order that is looked up fast.
ghost use Rattle.std.specs.Prelude.{◌≡◌, ◌<◌, slice_index};
ghost use Rattle.modules_compilation.specs.Fronts.{front_of};

use crate::place::Place;

/// The byte at this place of a text, from 0, as a number; 0 after the end.
fn byte_at(bytes: &[u8], place: usize) -> u64
    ensures byte { result ≡ slice_index bytes.now place }
    ensures small { result < 256 }
{
    match bytes.get(place) {
        Some(byte) => u64::from(*byte),
        None => 0,
    }
}

/// The first eight bytes of a text as a number, the first byte the highest, with zeros after a
/// shorter text. Of two texts with different fronts the one with the lesser front comes first in byte
/// order.
pub fn front(text: &str) -> u64
    ensures { result ≡ front_of text.now }
{
    let bytes = text.as_bytes();
    let mut front: u64 = 0;
    for place in 0..8 {
        front = front * 256 + byte_at(bytes, place);
    }
    front
}

/// A recipe that a module keeps: the front of its name, and its place.
#[derive(Clone, Copy)]
pub struct RecipeName {
    pub front: u64,
    pub place: Place,
}
