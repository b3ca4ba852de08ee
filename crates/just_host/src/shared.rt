//! A value that several owners read.
ghost use Rattle.std.specs.Prelude.{◌≡◌, IfOk};

use std::alloc::{AllocError, Global};
use std::marker::Model;
use std::ops::Deref;
use std::rc::Rc;

/// A value that several owners read and none changes: a clone is one more owner of the same value,
/// and takes no memory. Contracts see the value.
#[derive(Drop)]
pub struct Shared<T> {
    handle: Rc<T>,
}

impl<T> Model for Shared<T> {
    ghost use Rattle.std.specs.Rc.{rc_value};

    ghost Value = { T };

    ghost view = { λ s. rc_value s.handle };
}

impl<T: Drop> Shared<T> {
    /// The value with its first owner. Refused only where memory is; the value is dropped then.
    pub fn new(alloc: Global, value: T) -> Result<Shared<T>, AllocError>
        ensures { IfOk result (λ shared. shared ≡ value) }
    {
        match Rc::new(alloc, value) {
            Ok(handle) => Ok(Shared { handle }),
            Err(_refused) => Err(AllocError),
        }
    }
}

impl<T> Deref for Shared<T> {
    type Target = T;

    ghost deref_gives = { λ shared value. value ≡ shared };

    fn deref(&self) -> &T
        ensures { result.now ≡ self.now }
    {
        self.handle.as_ref()
    }
}

impl<T: Drop> Clone for Shared<T> {
    ghost is_clone = { λ s t. t ≡ s };

    fn clone(&self) -> Result<Shared<T>, AllocError> {
        Ok(Shared {
            handle: self.handle.clone()?,
        })
    }
}
