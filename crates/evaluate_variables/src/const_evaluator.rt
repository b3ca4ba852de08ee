//! Variables that are constants.
ghost use Rattle.std.specs.Prelude.{◌≡◌, ◌≢◌, ◌∷◌, [], Err, IfErr, MatchResult, Some};
ghost use Rattle.std.specs.BTreeSet.{contains};
ghost use Rattle.std.specs.Ordering.{nat_cmp};
ghost use Rattle.std.specs.String.{string_bytes};
ghost use Rattle.just_text.specs.Tokens.{lexeme};
ghost use Rattle.evaluate_context.specs.Refusals.{fault_of, seen, seen_as};
ghost use Rattle.evaluate_expressions.specs.Situations.{reading_at, stage_at};
ghost use Rattle.meaning_dialogues.specs.Calls.{const_stage};
ghost use Rattle.meaning_dialogues.specs.Constants.{constant, settled};
ghost use Rattle.meaning_dialogues.specs.Evaluation.{dialogue, dialogues, interpreter_dialogue, text_dialogue};
ghost use Rattle.meaning_dialogues.specs.Faults.{memory, text_place};
ghost use Rattle.meaning_dialogues.specs.Terms.{term_of, terms_of};
ghost use Rattle.meaning_evaluation.specs.Stages.Assigned.{assigned_dialogue};
ghost use Rattle.evaluate_variables.specs.Known.{ConstantsKnown, IsProper};
ghost use Rattle.evaluate_variables.specs.Opened.{assigned, ordered, overridden, refusal};
ghost use Rattle.evaluate_variables.specs.Settled.{FindsConstants, Keeps, SettlesTo, reading_in, seen_constant, seen_words};
ghost use Rattle.evaluate_variables.specs.Settled as spec;

use evaluate_context::{AssignmentRef, Error};
use evaluate_expressions::Evaluator;
use just_host::{Answer, Host, Question, Recorded};
use just_text::{Name, Number, Text};
use just_value::{ConstEvalError, Scope, StringContext, Value};
use std::alloc::Global;
use std::collections::{BTreeMap, BTreeSet};
use tree_attributes::Interpreter;
use tree_expressions::Expression;
use tree_items::Assignment;

/// A host that is never asked, since constants ask nothing.
#[derive(Drop)]
pub(crate) struct Nobody;

impl Host for Nobody {
    ghost goes = { λ _ _ _. Unit {0} };

    fn ask(&mut self, _question: &Question) -> Answer {
        Answer::Absent
    }

    ghost nothing = { λ _. tt };

    ghost joins = { λ _ _ _ _ _ _ _. tt };
}

/// The constants among a module's variables, and which variables are none.
#[derive(Drop)]
pub struct ConstEvaluator<'a, 'src> {
    scope: Scope<'a, 'src>,
    non_const: BTreeSet<Number>,
    lists: bool,
}

impl<'a, 'src> ConstEvaluator<'a, 'src> {
    fn evaluator(&self) -> Evaluator<'_, 'src>
        ensures stage { stage_at result ≡ const_stage self.now.lists }
        ensures reading { reading_at result ≡ reading_in self.now }
    {
        Evaluator::constant(self.lists, &self.non_const, &self.scope)
    }

    /// The value of an expression of constants.
    pub fn evaluate_value_const(
        &self,
        alloc: Global,
        expression: &Expression<'src>,
    ) -> Result<Value, Error<'src>>
        ensures { seen result ≢ Err memory → settled (reading_in self.now) (dialogue (const_stage self.now.lists) (term_of expression.now)) ≡ Some (seen result) }
    {
        let mut nobody = Recorded::new(alloc, Nobody);
        self.evaluator()
            .evaluate_value(alloc, &mut nobody, expression)
    }

    /// The one element of the value of an expression of constants. Other numbers of elements are
    /// refused as `ListInStringContext`.
    pub fn evaluate_string_const(
        &self,
        alloc: Global,
        expression: &Expression<'src>,
        context: StringContext<'src>,
    ) -> Result<String, Error<'src>>
        ensures { seen_as string_bytes result ≢ Err memory → settled (reading_in self.now) (text_dialogue (text_place context.entry) (dialogue (const_stage self.now.lists) (term_of expression.now))) ≡ Some (seen_as string_bytes result) }
    {
        let mut nobody = Recorded::new(alloc, Nobody);
        self.evaluator()
            .evaluate_string(alloc, &mut nobody, expression, context)
    }

    /// The elements of all values in order: the first is the command, the others are its arguments.
    /// None at all is refused as `EmptyInterpreter`.
    pub fn evaluate_interpreter(
        &self,
        alloc: Global,
        interpreter: &Interpreter<Expression<'src>>,
        setting: Name<'src>,
    ) -> Result<Interpreter<Text>, Error<'src>>
        ensures { seen_words result ≢ Err memory → settled (reading_in self.now) (interpreter_dialogue (lexeme setting.entry.token) (dialogues (const_stage self.now.lists) (terms_of (interpreter.now.command ∷ interpreter.now.arguments.items)))) ≡ Some (seen_words result) }
    {
        let mut nobody = Recorded::new(alloc, Nobody);
        self.evaluator()
            .evaluate_interpreter(alloc, &mut nobody, interpreter, setting)
    }

    /// Gives the variable its value, or counts it among those that are no constants.
    fn keep(
        &mut self,
        assignment: &Assignment<'src>,
        value: Option<Value>,
    ) -> Result<(), Error<'src>>
        ensures lists { self.new.lists ≡ self.old.lists }
        ensures around { self.new.scope.outer ≡ self.old.scope.outer }
        ensures keeps { MatchResult result (λ _. Keeps self.old assignment.now.number value self.new) (λ error. fault_of error ≡ memory) }
    {
        let number = assignment.number;
        match value {
            Some(value) => {
                self.scope
                    .bind_value(assignment.name, number, assignment.export, value)?;
                Ok(())
            }
            None => {
                let _ = self.non_const.insert(number)?;
                Ok(())
            }
        }
    }
}

/// Whether the error only says that there is no constant.
fn is_no_constant(error: &Error) -> bool
    ensures { result ≡ spec.is_no_constant (fault_of error.now) }
{
    match error {
        Error::Const(ConstEvalError::Const(_)) => true,
        _ => false,
    }
}

/// The value, or none where it is refused only as no constant.
fn constant_or_none<'src>(
    evaluated: Result<Value, Error<'src>>,
) -> Result<Option<Value>, Error<'src>>
    ensures { seen_constant result ≡ constant (Some (seen evaluated.entry)) }
{
    match evaluated {
        Ok(value) => Ok(Some(value)),
        Err(error) => {
            if is_no_constant(&error) {
                Ok(None)
            } else {
                Err(error)
            }
        }
    }
}

/// The variable's value, if it is a constant: the text that overrides it, else its expression's value.
fn constant_value<'src>(
    alloc: Global,
    overrides: &BTreeMap<Number, String>,
    constants: &ConstEvaluator<'_, 'src>,
    assignment: &Assignment<'src>,
) -> Result<Option<Value>, Error<'src>>
    ensures { seen_constant result ≢ Some (Err memory) → seen_constant result ≡ constant (settled (reading_in constants.now) (assigned_dialogue (overridden overrides.now assignment.now.number) (const_stage constants.now.lists) (term_of assignment.now.value))) }
{
    if let Some(text) = overrides.get(&assignment.number) {
        return Ok(Some(Value::from_text(alloc, text.as_str())?));
    }
    constant_or_none(constants.evaluate_value_const(alloc, &assignment.value))
}

/// Evaluates the variable into the frame, if it has one of these numbers and is a constant.
fn evaluate_constant<'src>(
    alloc: Global,
    overrides: &BTreeMap<Number, String>,
    references: &BTreeSet<Number>,
    constants: &mut ConstEvaluator<'_, 'src>,
    assignment: &Assignment<'src>,
) -> Result<(), Error<'src>>
    ensures lists { constants.new.lists ≡ constants.old.lists }
    ensures around { constants.new.scope.outer ≡ constants.old.scope.outer }
    ensures settles { seen result ≢ Err memory → SettlesTo overrides.now (contains nat_cmp references.now) (assigned assignment.entry ∷ []) constants.old constants.new (refusal result) }
{
    if !references.contains(&assignment.number) {
        return Ok(());
    }
    let value = constant_value(alloc, overrides, &*constants, assignment)?;
    constants.keep(assignment, value)
}

/// Evaluates the variable at the place so, if there is one there.
fn evaluate_place<'src>(
    alloc: Global,
    assignments: &[AssignmentRef<'_, 'src>],
    overrides: &BTreeMap<Number, String>,
    references: &BTreeSet<Number>,
    constants: &mut ConstEvaluator<'_, 'src>,
    place: usize,
) -> Result<(), Error<'src>>
    ensures lists { constants.new.lists ≡ constants.old.lists }
    ensures around { constants.new.scope.outer ≡ constants.old.scope.outer }
    ensures settles { seen result ≢ Err memory → SettlesTo overrides.now (contains nat_cmp references.now) (ordered assignments.now (place ∷ [])) constants.old constants.new (refusal result) }
{
    match assignments.get(place) {
        Some(variable) => {
            evaluate_constant(alloc, overrides, references, constants, variable.assignment)
        }
        None => Ok(()),
    }
}

/// Evaluates the variables of these numbers, in the order of these places.
fn evaluate_constants<'src>(
    alloc: Global,
    assignments: &[AssignmentRef<'_, 'src>],
    evaluation_order: &[usize],
    overrides: &BTreeMap<Number, String>,
    references: &BTreeSet<Number>,
    constants: &mut ConstEvaluator<'_, 'src>,
) -> Result<(), Error<'src>>
    ensures lists { constants.new.lists ≡ constants.old.lists }
    ensures around { constants.new.scope.outer ≡ constants.old.scope.outer }
    ensures settles { seen result ≢ Err memory → SettlesTo overrides.now (contains nat_cmp references.now) (ordered assignments.now evaluation_order.now) constants.old constants.new (refusal result) }
{
    for place in evaluation_order {
        evaluate_place(alloc, assignments, overrides, references, constants, *place)?;
    }
    Ok(())
}

/// Evaluates those of the variables that have these numbers, in the order of these places, as far as
/// they are constants, in a frame inside the scope. One that reaches a command, a call or a variable that is no constant is none;
/// what it does not reach does not matter, and one that is overridden is a constant. Other faults of
/// an expression are refusals.
pub fn evaluate_const_assignments<'a, 'src>(
    alloc: Global,
    assignments: &[AssignmentRef<'_, 'src>],
    evaluation_order: &[usize],
    overrides: &BTreeMap<Number, String>,
    scope: &'a Scope<'_, 'src>,
    references: &BTreeSet<Number>,
    lists: bool,
) -> Result<ConstEvaluator<'a, 'src>, Error<'src>>
    ensures finds { FindsConstants lists scope.now overrides.now (contains nat_cmp references.now) (ordered assignments.now evaluation_order.now) result }
    ensures known { ConstantsKnown scope.now overrides.now (contains nat_cmp references.now) (ordered assignments.now evaluation_order.now) → IfErr result IsProper }
{
    find_constants(
        alloc,
        assignments,
        evaluation_order,
        overrides,
        scope,
        references,
        lists,
    )
}

/// Evaluates the variables of these numbers in a frame inside the scope.
fn find_constants<'a, 'src>(
    alloc: Global,
    assignments: &[AssignmentRef<'_, 'src>],
    evaluation_order: &[usize],
    overrides: &BTreeMap<Number, String>,
    scope: &'a Scope<'_, 'src>,
    references: &BTreeSet<Number>,
    lists: bool,
) -> Result<ConstEvaluator<'a, 'src>, Error<'src>>
    ensures { FindsConstants lists scope.now overrides.now (contains nat_cmp references.now) (ordered assignments.now evaluation_order.now) result }
{
    let mut constants = ConstEvaluator {
        scope: scope.child(alloc)?,
        non_const: BTreeSet::new(alloc),
        lists,
    };
    match evaluate_constants(
        alloc,
        assignments,
        evaluation_order,
        overrides,
        references,
        &mut constants,
    ) {
        Ok(()) => Ok(constants),
        Err(error) => {
            drop(constants);
            Err(error)
        }
    }
}
