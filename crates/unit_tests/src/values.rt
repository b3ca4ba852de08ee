//! Values as lists of texts.

use crate::tokens::texts;
use just_value::Value;
use std::alloc::{AllocError, Global};
use std::test::Fail;

fn value(alloc: Global, listed: &str) -> Result<Value, AllocError> {
    Ok(Value::from(texts(alloc, listed)?))
}

fn letters(alloc: Global) -> Result<Value, AllocError> {
    let mut letters = value(alloc, "a;")?;
    letters.push(String::from_str(alloc, "b")?)?;
    Ok(letters)
}

fn copies(alloc: Global, letters: &Value) -> Result<Vec<String>, AllocError> {
    let mut copies = Vec::new(alloc);
    for text in letters {
        copies.push(text.clone()?)?;
    }
    Ok(copies)
}

/// Whether copies of the elements make the same value.
fn is_collected(alloc: Global, letters: &Value) -> Result<bool, AllocError> {
    let copies = copies(alloc, letters)?;
    Ok(Value::from_iter(alloc, copies.into_iter())? == *letters)
}

/// How many elements the value lends and then gives.
fn counted(letters: Value) -> u64 {
    let mut count = 0u64;
    for _text in letters.iter() {
        count = count.wrapping_add(1);
    }
    for _text in letters {
        count = count.wrapping_add(1);
    }
    count
}

/// Whether a copy is equal and has two elements.
fn is_copied(letters: &Value) -> Result<bool, AllocError> {
    let copy = letters.clone()?;
    Ok(copy == *letters && copy.into_elements().len() == 2)
}

/// Whether the first of the letters comes before both.
fn comes_before(alloc: Global, letters: &Value) -> Result<bool, AllocError> {
    Ok(value(alloc, "a;")? < *letters)
}

fn are_kept(alloc: Global, letters: &Value) -> Result<bool, AllocError> {
    Ok(
        letters.len() == 2
            && is_copied(letters)?
            && comes_before(alloc, letters)?
            && is_collected(alloc, letters)?,
    )
}

#[test]
fn elements_are_kept_in_order(rt: HostRuntime) -> Result<(), Fail> {
    let letters = letters(rt.alloc())?;
    assert!(rt; are_kept(rt.alloc(), &letters)?);
    assert_eq!(rt; counted(letters), 4);
    Ok(())
}
