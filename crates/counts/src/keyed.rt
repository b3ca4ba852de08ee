//! Grows frames of bindings and tables by key, as many as are asked for, with rising numbers and
//! keys.

use anyhow::{Result, anyhow};
use just_lexer::Lexer;
use just_text::{Name, Number, Numerator};
use just_value::{CONSTANT_COUNT, Scope, Value};
use modules_compilation::Table;
use std::alloc::{AllocError, Global};

/// So many numbers, rising.
fn numbers(alloc: Global, count: u32) -> Result<Vec<Number>> {
    let mut numerator = Numerator::new(CONSTANT_COUNT);
    let mut numbers = Vec::new(alloc);
    for _ in 0..count {
        match numerator.next_binding() {
            Ok(number) => numbers.push(number)?,
            Err(_) => return Err(anyhow!("no number is left")),
        }
    }
    Ok(numbers)
}

/// So many keys, rising.
fn keys(alloc: Global, count: u32) -> Result<Vec<String>, AllocError> {
    let mut keys = Vec::new(alloc);
    for place in 0..count {
        let key = 100_000_000 + u64::from(place);
        keys.push(format!(in alloc; "{key}")?)?;
    }
    Ok(keys)
}

/// A name for all bindings.
fn name(alloc: Global) -> Result<Name<'static>> {
    let Ok(tokens) = Lexer::lex(alloc, "", "name") else {
        return Err(anyhow!("no tokens"));
    };
    match tokens.as_slice().first() {
        Some(token) => Ok(Name::from_token(*token)),
        None => Err(anyhow!("no token")),
    }
}

/// A frame with an empty value at each number.
fn frame<'outer, 'src>(
    alloc: Global,
    outer: &'outer Scope<'_, 'src>,
    name: Name<'src>,
    numbers: &[Number],
) -> Result<Scope<'outer, 'src>, AllocError> {
    let mut scope = outer.child(alloc)?;
    for number in numbers {
        scope.bind_value(name, *number, false, Value::new(alloc))?;
    }
    Ok(scope)
}

/// Makes so many frames with a binding at each number, and counts the bindings.
fn bind_each<'src>(
    alloc: Global,
    root: &Scope<'_, 'src>,
    name: Name<'src>,
    numbers: &[Number],
    frames: u32,
) -> Result<u64, AllocError> {
    let mut scopes = Vec::new(alloc);
    let mut sum: u64 = 0;
    for _ in 0..frames {
        let scope = frame(alloc, root, name, numbers)?;
        for _ in scope.bindings() {
            sum = sum.wrapping_add(1);
        }
        scopes.push(scope)?;
    }
    Ok(sum)
}

/// Makes so many frames of so many bindings, and counts the bindings.
pub(crate) fn bind_all(alloc: Global, bindings: u32, frames: u32) -> Result<u64> {
    let name = name(alloc)?;
    let numbers = numbers(alloc, bindings)?;
    let root = Scope::root(alloc)?;
    Ok(bind_each(alloc, &root, name, &numbers, frames)?)
}

/// A table with a number at each key.
fn table(alloc: Global, keys: &[String]) -> Result<Table<'_, u32>> {
    let mut table = Table::new(alloc);
    for key in keys {
        table.insert(key.as_str(), 0u32)?;
    }
    Ok(table)
}

/// Makes so many tables of so many entries, and counts the entries.
pub(crate) fn insert_all(alloc: Global, entries: u32, tables: u32) -> Result<u64> {
    let keys = keys(alloc, entries)?;
    let mut made = Vec::new(alloc);
    let mut sum: u64 = 0;
    for _ in 0..tables {
        let table = table(alloc, &keys)?;
        sum = sum.wrapping_add(table.len() as u64);
        made.push(table)?;
    }
    Ok(sum)
}
