//! Lists in no more memory than they need.
ghost use Rattle.std.specs.Prelude.{◌≡◌, ◌++◌, ◌∷◌, [], OnOk};

use std::alloc::AllocError;

/// Puts the element after the others. The list has room for one element at first, and where it is
/// full it grows to twice its room. Refused where memory is.
pub(crate) fn push_compact<T: Drop>(list: &mut Vec<T>, element: T) -> Result<(), AllocError>
    ensures { OnOk result (list.new.items ≡ list.old.items ++ element ∷ []) }
{
    let length = list.len();
    if length == list.capacity() {
        list.reserve_exact(length.max(1))?;
    }
    list.push(element)?;
    Ok(())
}

/// The list with what it has, and no room for more.
pub(crate) fn shrunk<T: Drop>(mut list: Vec<T>) -> Vec<T>
    ensures { result.items ≡ list.items }
{
    list.shrink_to_fit();
    list
}
