//! Grows, joins, prints, copies or compares lists of texts and prints how many bytes or elements
//! came out: what benches/values measures.
//!
//! On standard input stand `push`, `join`, `print`, `copy` or `compare`, the number of elements of
//! each list, the number of lists, and how often all lists are joined or compared. All that is made
//! is kept to the end, so that many small lists take as much memory as a few large ones.

use crate::input::read_text;
use crate::keyed::{bind_all, insert_all};
use anyhow::{Context, Result, anyhow};
use just_value::Value;
use std::alloc::{AllocError, Global};

/// What is done with lists, which are grown first.
#[derive(Clone, Copy)]
enum ListOperation {
    Push,
    Join,
    Print,
    Copy,
    /// Each with a copy.
    Compare,
}

/// What is grown.
#[derive(Clone, Copy)]
enum Operation {
    Lists(ListOperation),
    /// Frames, with a binding for each element.
    Bind,
    /// Tables, with an entry for each element.
    Insert,
}

/// What is done, with how many elements in how many lists.
#[derive(Clone, Copy)]
struct Task {
    operation: Operation,
    elements: u32,
    lists: u32,
    /// How often all lists are joined or compared.
    rounds: u32,
}

/// A list of so many equal texts.
fn grow(alloc: Global, elements: u32) -> Result<Value, AllocError> {
    let mut value = Value::new(alloc);
    for _ in 0..elements {
        value.push(String::from_str(alloc, "some text")?)?;
    }
    Ok(value)
}

fn grow_all(alloc: Global, task: Task) -> Result<Vec<Value>, AllocError> {
    let mut values = Vec::new(alloc);
    for _ in 0..task.lists {
        values.push(grow(alloc, task.elements)?)?;
    }
    Ok(values)
}

fn count_elements(values: &[Value]) -> u64 {
    let mut sum: u64 = 0;
    for value in values {
        sum = sum.wrapping_add(value.len() as u64);
    }
    sum
}

fn count_bytes(texts: &[String]) -> u64 {
    let mut sum: u64 = 0;
    for text in texts {
        sum = sum.wrapping_add(text.len() as u64);
    }
    sum
}

fn join_all(alloc: Global, values: &[Value]) -> Result<Vec<String>, AllocError> {
    let mut texts = Vec::new(alloc);
    for value in values {
        texts.push(value.join(alloc)?)?;
    }
    Ok(texts)
}

fn join_rounds(
    alloc: Global,
    values: &[Value],
    rounds: u32,
) -> Result<Vec<Vec<String>>, AllocError> {
    let mut texts = Vec::new(alloc);
    for _ in 0..rounds {
        texts.push(join_all(alloc, values)?)?;
    }
    Ok(texts)
}

fn count_bytes_of_rounds(rounds: &[Vec<String>]) -> u64 {
    let mut sum: u64 = 0;
    for texts in rounds {
        sum = sum.wrapping_add(count_bytes(texts));
    }
    sum
}

fn print_all(alloc: Global, values: &[Value]) -> Result<Vec<String>, AllocError> {
    let mut texts = Vec::new(alloc);
    for value in values {
        texts.push(format!(in alloc; "{value}")?)?;
    }
    Ok(texts)
}

fn copy_all(alloc: Global, values: &[Value]) -> Result<Vec<Value>, AllocError> {
    let mut copies = Vec::new(alloc);
    for value in values {
        copies.push(value.clone()?)?;
    }
    Ok(copies)
}

/// How many elements the lists have that are equal to their copies.
fn count_equal(values: &[Value], copies: &[Value]) -> u64 {
    let mut sum: u64 = 0;
    for (value, copy) in values.iter().zip(copies) {
        if value == copy {
            sum = sum.wrapping_add(value.len() as u64);
        }
    }
    sum
}

fn count_equal_in_rounds(values: &[Value], copies: &[Value], rounds: u32) -> u64 {
    let mut sum: u64 = 0;
    for _ in 0..rounds {
        sum = sum.wrapping_add(count_equal(values, copies));
    }
    sum
}

/// How many bytes or elements came out of the lists.
fn carry_out_of_lists(
    alloc: Global,
    operation: ListOperation,
    task: Task,
) -> Result<u64, AllocError> {
    let values = grow_all(alloc, task)?;
    match operation {
        ListOperation::Push => Ok(count_elements(&values)),
        ListOperation::Join => {
            let texts = join_rounds(alloc, &values, task.rounds)?;
            Ok(count_bytes_of_rounds(&texts))
        }
        ListOperation::Print => Ok(count_bytes(&print_all(alloc, &values)?)),
        ListOperation::Copy => Ok(count_elements(&copy_all(alloc, &values)?)),
        ListOperation::Compare => {
            let copies = copy_all(alloc, &values)?;
            Ok(count_equal_in_rounds(&values, &copies, task.rounds))
        }
    }
}

/// How many bytes, elements, bindings or entries came out.
fn carry_out(alloc: Global, task: Task) -> Result<u64> {
    match task.operation {
        Operation::Lists(operation) => Ok(carry_out_of_lists(alloc, operation, task)?),
        Operation::Bind => bind_all(alloc, task.elements, task.lists),
        Operation::Insert => insert_all(alloc, task.elements, task.lists),
    }
}

fn read_operation(word: &str) -> Result<Operation> {
    match word {
        "push" => Ok(Operation::Lists(ListOperation::Push)),
        "join" => Ok(Operation::Lists(ListOperation::Join)),
        "print" => Ok(Operation::Lists(ListOperation::Print)),
        "copy" => Ok(Operation::Lists(ListOperation::Copy)),
        "compare" => Ok(Operation::Lists(ListOperation::Compare)),
        "bind" => Ok(Operation::Bind),
        "insert" => Ok(Operation::Insert),
        _ => Err(anyhow!("no such operation: {word}")),
    }
}

fn read_number(word: Option<&str>) -> Result<u32> {
    match word {
        Some(word) => Ok(word.parse::<u32>().context("a word is not a number")?),
        None => Err(anyhow!("a word is missing")),
    }
}

fn read_task(words: &str) -> Result<Task> {
    let mut words = words.split_whitespace();
    let Some(word) = words.next() else {
        return Err(anyhow!("a word is missing"));
    };
    Ok(Task {
        operation: read_operation(word)?,
        elements: read_number(words.next())?,
        lists: read_number(words.next())?,
        rounds: read_number(words.next())?,
    })
}

/// Carries out what standard input says, and prints how many bytes or elements came out.
pub(crate) fn run(rt: &HostRuntime) -> Result<()> {
    let words = read_text(rt)?;
    let task = read_task(words.as_str())?;
    let sum = carry_out(rt.alloc(), task)?;
    println!(rt; "{sum}")?;
    Ok(())
}
