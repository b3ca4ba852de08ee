//! Values of expressions.
ghost use Rattle.std.specs.Prelude.{◌≡◌, ◌-◌, [], Bool, false, Err, None};
ghost use Rattle.std.specs.BTreeSet.{contains};
ghost use Rattle.std.specs.Option.{option_map};
ghost use Rattle.std.specs.Ordering.{nat_cmp};
ghost use Rattle.std.specs.String.{string_bytes};
ghost use Rattle.just_text.specs.Tokens.{lexeme};
ghost use Rattle.tree_expressions.specs.Shape.{written};
ghost use Rattle.evaluate_functions.specs.Arguments.{takes_text};
ghost use Rattle.evaluate_functions.specs.Names.{function_of};
ghost use Rattle.evaluate_context.specs.Refusals.{seen, seen_as};
ghost use Rattle.evaluate_expressions.specs.Failures.{seen_above, seen_above_as};
ghost use Rattle.evaluate_expressions.specs.Known.{TermKnownBy, BodiesKnownBy};
ghost use Rattle.evaluate_expressions.specs.Situations.{stage_at, reading_at, running_stage, is_non_const, defined_at, called_builtin, calls_in};
ghost use Rattle.just_host.specs.Kinds.{AsksQuestions};
ghost use Rattle.meaning_dialogues.specs.Calls as calls;
ghost use Rattle.meaning_dialogues.specs.Calls.{DefinedFunction, const_stage, function_named, reading_in_frames};
ghost use Rattle.meaning_dialogues.specs.Dialogue.{Evaluates};
ghost use Rattle.meaning_dialogues.specs.Evaluation as spec;
ghost use Rattle.meaning_dialogues.specs.Evaluation.{dialogue, text_dialogue};
ghost use Rattle.meaning_dialogues.specs.Faults.{memory, text_place};
ghost use Rattle.meaning_dialogues.specs.Terms as terms;
ghost use Rattle.meaning_dialogues.specs.Terms.{term_of, terms_of, holes_of};
ghost use Rattle.laws_evaluation.specs.Soundness.Endings.{NotInternal};
ghost use Rattle.meaning_evaluation.specs.Stages.Lines.{interpolation, piece_dialogue};
ghost use Rattle.meaning_evaluation.specs.Stages.Stages.{defined_of};

use crate::failure::{Failure, unboxed};
use crate::functions::parameter_scope;
use crate::operations::{
    Sides, applied, argument, asserted, compared, joined_to_nothing, laid_out, literal_value,
    only_text, push_joined, truth_value,
};
use crate::refusals::{
    call_in_constant, condition_failed, message_failed, too_many_calls, unknown_function,
};
use evaluate_builtins::Function;
use evaluate_context::{Error, ExecutionContext, find_function};
use just_host::{Config, Host, Pair, Recorded};
use just_text::{Name, Number, Token};
use just_value::{Scope, StringContext, Value};
use std::alloc::Global;
use std::collections::BTreeSet;
use tree_expressions::{ConditionalOperator, Expression, ListOperator, StringLiteral};
use tree_items::FunctionDefinition;

/// Whether constants are evaluated, or what a run rests on.
#[derive(Clone, Copy)]
pub(crate) enum Stage<'run, 'src> {
    Const {
        lists: bool,
        /// The variables that were found to be no constants.
        non_const: &'run BTreeSet<Number>,
    },
    Run(&'run ExecutionContext<'run, 'src>),
}

/// Evaluates expressions in a frame. A run's evaluator asks the host; one of constants refuses what
/// would have to ask.
#[derive(Clone, Copy)]
pub struct Evaluator<'run, 'src> {
    pub(crate) stage: Stage<'run, 'src>,
    /// How many more calls of the justfile's functions may lie in each other.
    calls_left: u64,
    /// What `env` attributes give to commands.
    pub(crate) env: &'run [Pair],
    pub(crate) is_dependency: bool,
    /// The frame that the frames of the justfile's functions lie in.
    module_scope: &'run Scope<'run, 'src>,
    pub(crate) recipe: Option<Name<'src>>,
    /// The evaluator's own frame and those around it.
    pub(crate) scope: &'run Scope<'run, 'src>,
}

/// What an evaluation may take of memory.
#[derive(Clone, Copy)]
struct Memory {
    alloc: Global,
    /// How many more expressions may lie in each other, those in bodies of called functions among
    /// them.
    levels: u32,
}

/// How many expressions may lie in each other, at up to 1 KiB of the machine's stack. An expression
/// that is read has at most 256 levels of six, and 255 calls in each other leave sixteen to a body.
const LEVELS: u32 = 4_096;

/// How many calls of the justfile's functions may lie in each other.
fn calls_allowed(config: &Config) -> u64
    ensures { result ≡ config.now.recursion_limit - 1 }
{
    config.recursion_limit - 1
}

impl<'run, 'src> Evaluator<'run, 'src> {
    /// Evaluates in the scope's innermost frame, for a recipe where one is named. Of pairs of one
    /// name in `env` the last counts.
    pub fn new(
        context: &'run ExecutionContext<'run, 'src>,
        env: &'run [Pair],
        is_dependency: bool,
        recipe: Option<Name<'src>>,
        scope: &'run Scope<'run, 'src>,
    ) -> Evaluator<'run, 'src>
        ensures stage { stage_at result ≡ running_stage context.entry.now env.entry.now scope.entry.now context.entry.now.scope.now is_dependency recipe.entry }
        ensures reading { reading_at result ≡ reading_in_frames (λ _. false) scope.entry.now context.entry.now.scope.now }
    {
        Evaluator {
            stage: Stage::Run(context),
            calls_left: calls_allowed(context.config),
            env,
            is_dependency,
            module_scope: context.scope,
            recipe,
            scope,
        }
    }

    /// Evaluates the variables of a module: the scope's innermost frame is the module's own, and the
    /// context's scope the one around it.
    pub fn opening(
        context: &'run ExecutionContext<'run, 'src>,
        scope: &'run Scope<'run, 'src>,
    ) -> Evaluator<'run, 'src>
        ensures stage { stage_at result ≡ running_stage context.entry.now [] scope.entry.now scope.entry.now false None }
        ensures reading { reading_at result ≡ reading_in_frames (λ _. false) scope.entry.now scope.entry.now }
    {
        Evaluator {
            stage: Stage::Run(context),
            calls_left: calls_allowed(context.config),
            env: &[],
            is_dependency: false,
            module_scope: scope,
            recipe: None,
            scope,
        }
    }

    /// Evaluates constants in the scope's innermost frame, and refuses commands, calls and the variables
    /// of these numbers. `lists` says whether that setting holds.
    pub fn constant(
        lists: bool,
        non_const: &'run BTreeSet<Number>,
        scope: &'run Scope<'run, 'src>,
    ) -> Evaluator<'run, 'src>
        ensures stage { stage_at result ≡ const_stage lists }
        ensures reading { reading_at result ≡ reading_in_frames (contains nat_cmp non_const.entry.now) scope.entry.now scope.entry.now }
    {
        Evaluator {
            stage: Stage::Const { lists, non_const },
            calls_left: 0,
            env: &[],
            is_dependency: false,
            module_scope: scope,
            recipe: None,
            scope,
        }
    }

    fn lists(&self) -> bool
        ensures { result ≡ (stage_at self.now).lists }
    {
        match &self.stage {
            Stage::Const { lists, .. } => *lists,
            Stage::Run(context) => context.module.settings.lists,
        }
    }

    pub(crate) fn is_non_const(&self, number: Number) -> bool
        ensures { result ≡ is_non_const self.now.stage number }
    {
        match &self.stage {
            Stage::Const { non_const, .. } => non_const.contains(&number),
            Stage::Run(_) => false,
        }
    }

    /// The justfile's function of this name, if it can be called.
    fn defined_function(&self, name: &str) -> Option<&'run FunctionDefinition<'src>>
        ensures { option_map (λ f. defined_of f.now) result ≡ function_named name.now (defined_at self.now.stage) }
    {
        match self.stage {
            Stage::Const { .. } => None,
            Stage::Run(context) => find_function(context.module.functions, name),
        }
    }

    /// The value of the expression. A constant's evaluator refuses commands, calls and variables
    /// that are no constants where it reaches them, and never asks the host. Where more than 4,096
    /// expressions lie in each other, those in bodies of called functions among them, that is want
    /// of memory.
    pub fn evaluate_value<H: Host + Drop>(
        &self,
        alloc: Global,
        host: &mut Recorded<H>,
        expression: &Expression<'src>,
    ) -> Result<Value, Error<'src>>
        ensures asks { AsksQuestions H.goes host.old host.new }
        ensures evaluates { Evaluates (reading_at self.now) (dialogue (stage_at self.now) (term_of expression.now)) host.old.entries host.new.entries (seen result) }
        ensures known { (reached : DefinedFunction → Bool) → BodiesKnownBy self.now reached → TermKnownBy self.now reached (term_of expression.now) → NotInternal (seen result) }
    {
        let memory = Memory {
            alloc,
            levels: LEVELS,
        };
        unboxed(self.evaluate(memory, host, expression))
    }

    /// The elements of the expression's value with a space between two. Refused as its value is.
    pub fn evaluate_joined<H: Host + Drop>(
        &self,
        alloc: Global,
        host: &mut Recorded<H>,
        expression: &Expression<'src>,
    ) -> Result<String, Error<'src>>
        ensures asks { AsksQuestions H.goes host.old host.new }
        ensures evaluates { Evaluates (reading_at self.now) (piece_dialogue (stage_at self.now) false (interpolation (term_of expression.now))) host.old.entries host.new.entries (seen_as string_bytes result) }
        ensures known { (reached : DefinedFunction → Bool) → BodiesKnownBy self.now reached → TermKnownBy self.now reached (term_of expression.now) → NotInternal (seen_as string_bytes result) }
    {
        if let Expression::Variable { name, number } = expression {
            return self.variable_text(alloc, name, *number);
        }
        let value = self.evaluate_value(alloc, host, expression)?;
        Ok(value.into_joined(alloc)?)
    }

    /// The value of the expression, a level below the one that it stands in. What a level takes of
    /// the machine's stack is kept small: each kind of expression has a function that is not
    /// inlined, and refusals go up in a box.
    #[cycle(evaluate)]
    #[inline(never)]
    fn evaluate<H: Host + Drop>(
        &self,
        memory: Memory,
        host: &mut Recorded<H>,
        expression: &Expression<'src>,
    ) -> Result<Value, Failure<'src>>
        ensures asks { AsksQuestions H.goes host.old host.new }
        ensures evaluates { Evaluates (reading_at self.now) (dialogue (stage_at self.now) (term_of expression.now)) host.old.entries host.new.entries (seen_above result) }
    {
        if memory.levels == 0 {
            return Err(Failure::OutOfMemory);
        }
        let inner = Memory {
            alloc: memory.alloc,
            levels: memory.levels - 1,
        };
        match expression {
            Expression::And { lhs, rhs } => self.evaluate_and(inner, host, lhs, rhs),
            Expression::Or { lhs, rhs } => self.evaluate_or(inner, host, lhs, rhs),
            Expression::Assert {
                condition,
                message,
                name,
            } => match message {
                Some(message) => {
                    self.evaluate_told_assertion(inner, host, condition, message, name)
                }
                None => self.evaluate_assertion(inner, host, condition, name),
            },
            Expression::Backtick { contents, token } => {
                self.backtick(inner.alloc, host, contents, token)
            }
            Expression::Call { name, arguments } => self.call(inner, host, name, arguments),
            Expression::Comparison {
                lhs,
                operator,
                rhs,
                token,
            } => self.evaluate_truth(inner, host, lhs, *operator, rhs, token),
            Expression::Concatenation { lhs, operator, rhs } => {
                self.evaluate_pairing(inner, host, lhs, ListOperator::Concatenate, rhs, operator)
            }
            Expression::Conditional {
                condition,
                then,
                otherwise,
            } => match otherwise {
                Some(otherwise) => { self.evaluate_choice(inner, host, condition, then, otherwise) }
                None => self.evaluate_option(inner, host, condition, then),
            },
            Expression::FormatString { start, expressions } => {
                self.evaluate_format(inner, host, start, expressions)
            }
            Expression::Group { contents } => self.evaluate(inner, host, contents),
            Expression::Join { lhs, operator, rhs } => match lhs {
                Some(lhs) => {
                    self.evaluate_pairing(inner, host, lhs, ListOperator::Join, rhs, operator)
                }
                None => self.evaluate_root_join(inner, host, rhs, operator),
            },
            Expression::List { elements, .. } => self.evaluate_list(inner, host, elements),
            Expression::ListConcatenation { lhs, rhs, .. } => {
                self.evaluate_appended(inner, host, lhs, rhs)
            }
            Expression::Not { operand } => self.evaluate_not(inner, host, operand),
            Expression::StringLiteral { string_literal } => {
                literal_value(inner.alloc, string_literal)
            }
            Expression::Variable { name, number } => self.variable(inner.alloc, name, *number),
        }
    }

    /// The right side's value after a left side with an element, else the empty list.
    #[cycle(evaluate)]
    #[inline(never)]
    fn evaluate_and<H: Host + Drop>(
        &self,
        memory: Memory,
        host: &mut Recorded<H>,
        lhs: &Expression<'src>,
        rhs: &Expression<'src>,
    ) -> Result<Value, Failure<'src>>
        ensures asks { AsksQuestions H.goes host.old host.new }
        ensures evaluates { Evaluates (reading_at self.now) (dialogue (stage_at self.now) (terms.both (term_of lhs.now) (term_of rhs.now))) host.old.entries host.new.entries (seen_above result) }
    {
        let value = self.evaluate(memory, host, lhs)?;
        if value.is_truthy() {
            self.evaluate(memory, host, rhs)
        } else {
            Ok(Value::new(memory.alloc))
        }
    }

    /// The left side's value where it has an element, else the right side's.
    #[cycle(evaluate)]
    #[inline(never)]
    fn evaluate_or<H: Host + Drop>(
        &self,
        memory: Memory,
        host: &mut Recorded<H>,
        lhs: &Expression<'src>,
        rhs: &Expression<'src>,
    ) -> Result<Value, Failure<'src>>
        ensures asks { AsksQuestions H.goes host.old host.new }
        ensures evaluates { Evaluates (reading_at self.now) (dialogue (stage_at self.now) (terms.either (term_of lhs.now) (term_of rhs.now))) host.old.entries host.new.entries (seen_above result) }
    {
        let value = self.evaluate(memory, host, lhs)?;
        if value.is_truthy() {
            Ok(value)
        } else {
            self.evaluate(memory, host, rhs)
        }
    }

    /// `true` where the operand has no element, else the empty list.
    #[cycle(evaluate)]
    #[inline(never)]
    fn evaluate_not<H: Host + Drop>(
        &self,
        memory: Memory,
        host: &mut Recorded<H>,
        operand: &Expression<'src>,
    ) -> Result<Value, Failure<'src>>
        ensures asks { AsksQuestions H.goes host.old host.new }
        ensures evaluates { Evaluates (reading_at self.now) (dialogue (stage_at self.now) (terms.negation (term_of operand.now))) host.old.entries host.new.entries (seen_above result) }
    {
        let value = self.evaluate(memory, host, operand)?;
        truth_value(memory.alloc, value.is_empty())
    }

    /// What an assertion without a message gives.
    #[cycle(evaluate)]
    #[inline(never)]
    fn evaluate_assertion<H: Host + Drop>(
        &self,
        memory: Memory,
        host: &mut Recorded<H>,
        condition: &Expression<'src>,
        name: &Name<'src>,
    ) -> Result<Value, Failure<'src>>
        ensures asks { AsksQuestions H.goes host.old host.new }
        ensures evaluates { Evaluates (reading_at self.now) (dialogue (stage_at self.now) (terms.assertion_alone (term_of condition.now))) host.old.entries host.new.entries (seen_above result) }
    {
        let value = self.evaluate(memory, host, condition)?;
        if value.is_truthy() {
            return asserted(memory.alloc, self.lists(), value);
        }
        Err(condition_failed(memory.alloc, condition, name))
    }

    /// What an assertion with a message gives.
    #[cycle(evaluate)]
    #[inline(never)]
    fn evaluate_told_assertion<H: Host + Drop>(
        &self,
        memory: Memory,
        host: &mut Recorded<H>,
        condition: &Expression<'src>,
        message: &Expression<'src>,
        name: &Name<'src>,
    ) -> Result<Value, Failure<'src>>
        ensures asks { AsksQuestions H.goes host.old host.new }
        ensures evaluates { Evaluates (reading_at self.now) (dialogue (stage_at self.now) (terms.assertion (term_of condition.now) (term_of message.now))) host.old.entries host.new.entries (seen_above result) }
    {
        let value = self.evaluate(memory, host, condition)?;
        if value.is_truthy() {
            return asserted(memory.alloc, self.lists(), value);
        }
        self.evaluate_failure(memory, host, message, name)
    }

    /// The refusal of an assertion with this message.
    #[cycle(evaluate)]
    #[inline(never)]
    fn evaluate_failure<H: Host + Drop>(
        &self,
        memory: Memory,
        host: &mut Recorded<H>,
        message: &Expression<'src>,
        name: &Name<'src>,
    ) -> Result<Value, Failure<'src>>
        ensures asks { AsksQuestions H.goes host.old host.new }
        ensures evaluates { Evaluates (reading_at self.now) (spec.failing (dialogue (stage_at self.now) (term_of message.now))) host.old.entries host.new.entries (seen_above result) }
    {
        let message = self.evaluate(memory, host, message)?;
        Err(message_failed(memory.alloc, &message, name))
    }

    /// The value of the branch that the condition chooses.
    #[cycle(evaluate)]
    #[inline(never)]
    fn evaluate_choice<H: Host + Drop>(
        &self,
        memory: Memory,
        host: &mut Recorded<H>,
        condition: &Expression<'src>,
        then: &Expression<'src>,
        otherwise: &Expression<'src>,
    ) -> Result<Value, Failure<'src>>
        ensures asks { AsksQuestions H.goes host.old host.new }
        ensures evaluates { Evaluates (reading_at self.now) (dialogue (stage_at self.now) (terms.choice (term_of condition.now) (term_of then.now) (term_of otherwise.now))) host.old.entries host.new.entries (seen_above result) }
    {
        if self.evaluate_condition(memory, host, condition)? {
            self.evaluate(memory, host, then)
        } else {
            self.evaluate(memory, host, otherwise)
        }
    }

    /// The value of the one branch where the condition holds, else the empty list.
    #[cycle(evaluate)]
    #[inline(never)]
    fn evaluate_option<H: Host + Drop>(
        &self,
        memory: Memory,
        host: &mut Recorded<H>,
        condition: &Expression<'src>,
        then: &Expression<'src>,
    ) -> Result<Value, Failure<'src>>
        ensures asks { AsksQuestions H.goes host.old host.new }
        ensures evaluates { Evaluates (reading_at self.now) (dialogue (stage_at self.now) (terms.choice_alone (term_of condition.now) (term_of then.now))) host.old.entries host.new.entries (seen_above result) }
    {
        if self.evaluate_condition(memory, host, condition)? {
            self.evaluate(memory, host, then)
        } else {
            Ok(Value::new(memory.alloc))
        }
    }

    /// Whether the condition holds: for a comparison what it says, else whether there is an element.
    #[cycle(evaluate)]
    #[inline(never)]
    fn evaluate_condition<H: Host + Drop>(
        &self,
        memory: Memory,
        host: &mut Recorded<H>,
        condition: &Expression<'src>,
    ) -> Result<bool, Failure<'src>>
        ensures asks { AsksQuestions H.goes host.old host.new }
        ensures evaluates { Evaluates (reading_at self.now) (spec.holding (dialogue (stage_at self.now) (term_of condition.now))) host.old.entries host.new.entries (seen_above result) }
    {
        let Expression::Comparison {
            lhs,
            operator,
            rhs,
            token,
        } = condition
        else {
            let value = self.evaluate(memory, host, condition)?;
            return Ok(value.is_truthy());
        };
        self.evaluate_comparison(memory, host, lhs, *operator, rhs, token)
    }

    /// A comparison's value: `true` or the empty list.
    #[cycle(evaluate)]
    #[inline(never)]
    fn evaluate_truth<H: Host + Drop>(
        &self,
        memory: Memory,
        host: &mut Recorded<H>,
        lhs: &Expression<'src>,
        operator: ConditionalOperator,
        rhs: &Expression<'src>,
        token: &Token<'src>,
    ) -> Result<Value, Failure<'src>>
        ensures asks { AsksQuestions H.goes host.old host.new }
        ensures evaluates { Evaluates (reading_at self.now) (dialogue (stage_at self.now) (terms.comparison operator (term_of lhs.now) (term_of rhs.now))) host.old.entries host.new.entries (seen_above result) }
    {
        let truth = self.evaluate_comparison(memory, host, lhs, operator, rhs, token)?;
        truth_value(memory.alloc, truth)
    }

    /// What the comparison says. Patterns are refused once both sides are evaluated.
    #[cycle(evaluate)]
    #[inline(never)]
    fn evaluate_comparison<H: Host + Drop>(
        &self,
        memory: Memory,
        host: &mut Recorded<H>,
        lhs: &Expression<'src>,
        operator: ConditionalOperator,
        rhs: &Expression<'src>,
        token: &Token<'src>,
    ) -> Result<bool, Failure<'src>>
        ensures asks { AsksQuestions H.goes host.old host.new }
        ensures evaluates { Evaluates (reading_at self.now) (spec.comparing operator (dialogue (stage_at self.now) (term_of lhs.now)) (dialogue (stage_at self.now) (term_of rhs.now))) host.old.entries host.new.entries (seen_above result) }
    {
        let sides = self.evaluate_sides(memory, host, lhs, rhs)?;
        compared(memory.alloc, &sides, operator, token)
    }

    /// What the operator gives of each text with one or more others.
    #[cycle(evaluate)]
    #[inline(never)]
    fn evaluate_pairing<H: Host + Drop>(
        &self,
        memory: Memory,
        host: &mut Recorded<H>,
        lhs: &Expression<'src>,
        operator: ListOperator,
        rhs: &Expression<'src>,
        token: &Token<'src>,
    ) -> Result<Value, Failure<'src>>
        ensures asks { AsksQuestions H.goes host.old host.new }
        ensures evaluates { Evaluates (reading_at self.now) (dialogue (stage_at self.now) (terms.paired operator (term_of lhs.now) (term_of rhs.now))) host.old.entries host.new.entries (seen_above result) }
    {
        let sides = self.evaluate_sides(memory, host, lhs, rhs)?;
        applied(memory.alloc, &sides, operator, token)
    }

    /// What `/` gives without a left side.
    #[cycle(evaluate)]
    #[inline(never)]
    fn evaluate_root_join<H: Host + Drop>(
        &self,
        memory: Memory,
        host: &mut Recorded<H>,
        rhs: &Expression<'src>,
        token: &Token<'src>,
    ) -> Result<Value, Failure<'src>>
        ensures asks { AsksQuestions H.goes host.old host.new }
        ensures evaluates { Evaluates (reading_at self.now) (dialogue (stage_at self.now) (terms.rooted (term_of rhs.now))) host.old.entries host.new.entries (seen_above result) }
    {
        let right = self.evaluate(memory, host, rhs)?;
        joined_to_nothing(memory.alloc, right, token)
    }

    /// The elements of the left side's value, then those of the right side's.
    #[cycle(evaluate)]
    #[inline(never)]
    fn evaluate_appended<H: Host + Drop>(
        &self,
        memory: Memory,
        host: &mut Recorded<H>,
        lhs: &Expression<'src>,
        rhs: &Expression<'src>,
    ) -> Result<Value, Failure<'src>>
        ensures asks { AsksQuestions H.goes host.old host.new }
        ensures evaluates { Evaluates (reading_at self.now) (dialogue (stage_at self.now) (terms.appended (term_of lhs.now) (term_of rhs.now))) host.old.entries host.new.entries (seen_above result) }
    {
        let Sides { mut left, right } = self.evaluate_sides(memory, host, lhs, rhs)?;
        left.append(right)?;
        Ok(left)
    }

    /// The values of the two sides, from the left.
    #[cycle(evaluate)]
    #[inline(never)]
    fn evaluate_sides<H: Host + Drop>(
        &self,
        memory: Memory,
        host: &mut Recorded<H>,
        lhs: &Expression<'src>,
        rhs: &Expression<'src>,
    ) -> Result<Sides, Failure<'src>>
        ensures asks { AsksQuestions H.goes host.old host.new }
        ensures evaluates { Evaluates (reading_at self.now) (spec.sides (dialogue (stage_at self.now) (term_of lhs.now)) (dialogue (stage_at self.now) (term_of rhs.now))) host.old.entries host.new.entries (seen_above_as (λ s. (s.left, s.right)) result) }
    {
        let left = self.evaluate(memory, host, lhs)?;
        let right = self.evaluate(memory, host, rhs)?;
        Ok(Sides { left, right })
    }

    /// The elements of all values, in order.
    #[cycle(evaluate)]
    #[inline(never)]
    fn evaluate_list<H: Host + Drop>(
        &self,
        memory: Memory,
        host: &mut Recorded<H>,
        elements: &[Expression<'src>],
    ) -> Result<Value, Failure<'src>>
        ensures asks { AsksQuestions H.goes host.old host.new }
        ensures evaluates { Evaluates (reading_at self.now) (dialogue (stage_at self.now) (terms.listing (terms_of elements.now))) host.old.entries host.new.entries (seen_above result) }
    {
        let mut list = Value::new(memory.alloc);
        for element in elements {
            let value = self.evaluate(memory, host, element)?;
            list.append(value)?;
        }
        Ok(list)
    }

    /// A format string's text: its parts with the joined values between, unindented in the end where
    /// it has three marks.
    #[cycle(evaluate)]
    #[inline(never)]
    fn evaluate_format<H: Host + Drop>(
        &self,
        memory: Memory,
        host: &mut Recorded<H>,
        start: &StringLiteral<'src>,
        expressions: &[(Expression<'src>, StringLiteral<'src>)],
    ) -> Result<Value, Failure<'src>>
        ensures asks { AsksQuestions H.goes host.old host.new }
        ensures evaluates { Evaluates (reading_at self.now) (dialogue (stage_at self.now) (terms.format start.now.cooked (written start.now) start.now.kind.tripled (holes_of expressions.now))) host.old.entries host.new.entries (seen_above result) }
    {
        let mut text = String::from_str(memory.alloc, start.cooked.as_str())?;
        for (expression, part) in expressions {
            let value = self.evaluate(memory, host, expression)?;
            push_joined(memory.alloc, &mut text, &value, part.cooked.as_str())?;
        }
        laid_out(memory.alloc, start.kind.tripled, text)
    }

    /// What the function of this name answers. A function of the justfile hides a built-in one.
    #[cycle(evaluate)]
    #[inline(never)]
    fn call<H: Host + Drop>(
        &self,
        memory: Memory,
        host: &mut Recorded<H>,
        name: &Name<'src>,
        arguments: &[Expression<'src>],
    ) -> Result<Value, Failure<'src>>
        ensures asks { AsksQuestions H.goes host.old host.new }
        ensures evaluates { Evaluates (reading_at self.now) (dialogue (stage_at self.now) (terms.call (lexeme name.now.token) name.now.token.path.now (terms_of arguments.now))) host.old.entries host.new.entries (seen_above result) }
    {
        let Stage::Run(context) = self.stage else {
            return Err(call_in_constant(memory.alloc, name));
        };
        match self.defined_function(name.lexeme()) {
            Some(function) => self.call_defined(memory, host, context, function, arguments),
            None => self.call_builtin(memory, host, name, arguments),
        }
    }

    /// What a function of the justfile answers to these arguments. The calls in each other are
    /// counted before any argument is evaluated.
    #[cycle(evaluate)]
    #[inline(never)]
    fn call_defined<H: Host + Drop>(
        &self,
        memory: Memory,
        host: &mut Recorded<H>,
        context: &'run ExecutionContext<'run, 'src>,
        function: &FunctionDefinition<'src>,
        arguments: &[Expression<'src>],
    ) -> Result<Value, Failure<'src>>
        requires runs { self.now.stage ≡ Stage.Run context }
        ensures asks { AsksQuestions H.goes host.old host.new }
        ensures evaluates { Evaluates (reading_at self.now) (calls.call_defined (calls_in context.now self.now.module_scope.now self.now.is_dependency self.now.recipe self.now.calls_left) (defined_of function.now) (spec.dialogues (stage_at self.now) (terms_of arguments.now))) host.old.entries host.new.entries (seen_above result) }
    {
        if self.calls_left == 0 {
            return Err(too_many_calls(memory.alloc, function));
        }
        let values = self.evaluate_row(memory, host, arguments)?;
        let scope = parameter_scope(
            memory.alloc,
            self.module_scope,
            &function.parameters,
            values,
        )?;
        let inner = Evaluator {
            stage: self.stage,
            calls_left: self.calls_left - 1,
            env: &[],
            is_dependency: self.is_dependency,
            module_scope: self.module_scope,
            recipe: self.recipe,
            scope: &scope,
        };
        let value = inner.evaluate(memory, host, &function.body);
        drop(scope);
        value
    }

    /// The values in order.
    #[cycle(evaluate)]
    #[inline(never)]
    fn evaluate_row<H: Host + Drop>(
        &self,
        memory: Memory,
        host: &mut Recorded<H>,
        expressions: &[Expression<'src>],
    ) -> Result<Vec<Value>, Failure<'src>>
        ensures asks { AsksQuestions H.goes host.old host.new }
        ensures evaluates { Evaluates (reading_at self.now) (spec.row (spec.dialogues (stage_at self.now) (terms_of expressions.now))) host.old.entries host.new.entries (seen_above_as (λ v. v.items) result) }
    {
        let mut values = Vec::new(memory.alloc);
        for expression in expressions {
            values.push(self.evaluate(memory, host, expression)?)?;
        }
        Ok(values)
    }

    /// What the built-in function of this name answers.
    #[cycle(evaluate)]
    #[inline(never)]
    fn call_builtin<H: Host + Drop>(
        &self,
        memory: Memory,
        host: &mut Recorded<H>,
        name: &Name<'src>,
        arguments: &[Expression<'src>],
    ) -> Result<Value, Failure<'src>>
        ensures asks { AsksQuestions H.goes host.old host.new }
        ensures evaluates { Evaluates (reading_at self.now) (called_builtin self.now (function_of (lexeme name.now.token)) (lexeme name.now.token) name.now.token.path.now (spec.dialogues (stage_at self.now) (terms_of arguments.now))) host.old.entries host.new.entries (seen_above result) }
    {
        let Some(function) = Function::get(name.lexeme()) else {
            return Err(unknown_function(memory.alloc));
        };
        let values = self.evaluate_arguments(memory, host, function, name, arguments)?;
        self.answer(memory.alloc, host, function, name, values.as_slice())
    }

    /// The values of a built-in function's arguments. Each that has to be one text is looked at
    /// before the next is evaluated.
    #[cycle(evaluate)]
    #[inline(never)]
    fn evaluate_arguments<H: Host + Drop>(
        &self,
        memory: Memory,
        host: &mut Recorded<H>,
        function: Function,
        name: &Name<'src>,
        arguments: &[Expression<'src>],
    ) -> Result<Vec<Value>, Failure<'src>>
        ensures asks { AsksQuestions H.goes host.old host.new }
        ensures evaluates { Evaluates (reading_at self.now) (calls.arguments (takes_text function) (lexeme name.now.token) 0 (spec.dialogues (stage_at self.now) (terms_of arguments.now))) host.old.entries host.new.entries (seen_above_as (λ v. v.items) result) }
    {
        let mut values = Vec::new(memory.alloc);
        for expression in arguments {
            let value = self.evaluate(memory, host, expression)?;
            let is_text = function.takes_text(values.len());
            values.push(argument(memory.alloc, value, is_text, name)?)?;
        }
        Ok(values)
    }

    /// The one element of the expression's value. Other numbers of elements are refused as
    /// `ListInStringContext`.
    pub fn evaluate_string<H: Host + Drop>(
        &self,
        alloc: Global,
        host: &mut Recorded<H>,
        expression: &Expression<'src>,
        context: StringContext<'src>,
    ) -> Result<String, Error<'src>>
        ensures asks { AsksQuestions H.goes host.old host.new }
        ensures evaluates { Evaluates (reading_at self.now) (text_dialogue (text_place context.entry) (dialogue (stage_at self.now) (term_of expression.now))) host.old.entries host.new.entries (seen_as string_bytes result) }
        ensures known { (reached : DefinedFunction → Bool) → BodiesKnownBy self.now reached → TermKnownBy self.now reached (term_of expression.now) → NotInternal (seen_as string_bytes result) }
    {
        self.one_text(alloc, host, expression, context)
    }

    /// The one element of the expression's value.
    fn one_text<H: Host + Drop>(
        &self,
        alloc: Global,
        host: &mut Recorded<H>,
        expression: &Expression<'src>,
        context: StringContext<'src>,
    ) -> Result<String, Error<'src>>
        ensures asks { AsksQuestions H.goes host.old host.new }
        ensures evaluates { Evaluates (reading_at self.now) (text_dialogue (text_place context.entry) (dialogue (stage_at self.now) (term_of expression.now))) host.old.entries host.new.entries (seen_as string_bytes result) }
    {
        let value = self.evaluate_value(alloc, host, expression)?;
        only_text(alloc, value, context)
    }
}
