//! A file's text.
use crate::readable::readable;
use std::alloc::{AllocError, Global};
use std::fs;
use std::io::Read;
use std::rt::Files;

/// A file is at most so many bytes long.
pub const SIZE_LIMIT: u64 = 1 << 20;

/// The text of the file at the path. `None` where it can't be read, is longer than 1 MiB, or isn't UTF-8.
pub fn text_of<R: Files + Alloc<A = Global>>(
    rt: &R,
    path: &str,
) -> Result<Option<String>, AllocError> {
    let Some(file) = readable(fs::open(rt, path))? else {
        return Ok(None);
    };
    let mut bytes = Vec::new(rt.alloc());
    let read = readable(file.take(SIZE_LIMIT + 1).read_to_end(&mut bytes))?;
    if read.is_none() || bytes.len() as u64 > SIZE_LIMIT {
        return Ok(None);
    }
    Ok(String::from_utf8(bytes).ok())
}
