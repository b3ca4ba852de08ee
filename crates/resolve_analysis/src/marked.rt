//! Variables by their numbers.
ghost use Rattle.std.specs.Prelude.{◌≡◌, OnOk, IsSome};
ghost use Rattle.resolve_analysis.specs.Lists.{numbers_in};
ghost use Rattle.resolve_analysis.specs.Unions.{Has, IsMarkedNumber, IsUnion};

use crate::module_lists::ModuleLists;
use evaluate_context::AssignmentRef;
use just_text::Number;
use std::alloc::AllocError;
use std::collections::BTreeSet;

/// Adds the numbers of the module's variables that are marked.
pub fn add_marked(
    lists: &ModuleLists,
    numbers: &mut BTreeSet<Number>,
    marks: &[Option<usize>],
) -> Result<(), AllocError>
    ensures { OnOk result (IsUnion (Has numbers.old) (IsMarkedNumber (numbers_in lists.entry.now.assignments.items) marks.entry.now) (Has numbers.new)) }
{
    add_all(lists.assignments.as_slice(), numbers, marks)
}

/// Adds the numbers of the variables that are marked.
fn add_all(
    assignments: &[AssignmentRef],
    numbers: &mut BTreeSet<Number>,
    marks: &[Option<usize>],
) -> Result<(), AllocError>
    ensures { OnOk result (IsUnion (Has numbers.old) (IsMarkedNumber (numbers_in assignments.entry.now) marks.entry.now) (Has numbers.new)) }
{
    for place in 0..assignments.len().min(marks.len()) {
        let number = assignments[place].assignment.number;
        add_if_marked(numbers, marks[place], number)?;
    }
    Ok(())
}

/// Adds the number, if it is marked.
fn add_if_marked(
    numbers: &mut BTreeSet<Number>,
    mark: Option<usize>,
    number: Number,
) -> Result<(), AllocError>
    ensures { OnOk result (IsUnion (Has numbers.old) (λ other. IsSome mark × (other ≡ number)) (Has numbers.new)) }
{
    match mark {
        Some(_) => add_number(numbers, number),
        None => Ok(()),
    }
}

fn add_number(numbers: &mut BTreeSet<Number>, number: Number) -> Result<(), AllocError>
    ensures { OnOk result (IsUnion (Has numbers.old) (λ other. other ≡ number) (Has numbers.new)) }
{
    match numbers.insert(number) {
        Ok(_) => Ok(()),
        Err(_) => Err(AllocError),
    }
}
