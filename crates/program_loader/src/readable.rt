//! What becomes of faults while files are read.
use std::alloc::AllocError;
use std::io;

/// What was read, or nothing where it can't be read. Want of memory is an error.
pub fn readable<T>(read: io::Result<T>) -> Result<Option<T>, AllocError> {
    match read {
        Ok(found) => Ok(Some(found)),
        Err(fault) if fault.kind() == io::ErrorKind::OutOfMemory => Err(AllocError),
        Err(_) => Ok(None),
    }
}
