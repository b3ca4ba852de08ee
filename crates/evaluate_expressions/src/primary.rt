//! Variables, commands and what built-in functions answer.
ghost use Rattle.std.specs.Prelude.{◌≡◌, ◌≢◌, Err};
ghost use Rattle.std.specs.String.{string_bytes};
ghost use Rattle.std.specs.Result.{result_map_both};
ghost use Rattle.just_host.specs.Kinds.{AsksQuestions};
ghost use Rattle.just_text.specs.Tokens.{lexeme};
ghost use Rattle.just_value.specs.Values.{joined};
ghost use Rattle.evaluate_context.specs.Refusals.{seen_as};
ghost use Rattle.evaluate_expressions.specs.Failures.{seen_above, seen_above_as};
ghost use Rattle.evaluate_expressions.specs.Situations.{builtin_at, is_non_const, reading_at, stage_at};
ghost use Rattle.meaning_dialogues.specs.Calls.{read_in};
ghost use Rattle.meaning_dialogues.specs.Dialogue.{Evaluates};
ghost use Rattle.meaning_dialogues.specs.Evaluation.{dialogue};
ghost use Rattle.meaning_dialogues.specs.Faults.{memory};
ghost use Rattle.meaning_dialogues.specs.Terms as terms;

use crate::evaluator::{Evaluator, Stage};
use crate::failure::{Failure, boxed};
use crate::operations::output_value;
use crate::refusals::{call_in_constant, not_const, unreadable};
use evaluate_builtins::{CallSite, Function, call_builtin, command_output};
use evaluate_context::Error;
use just_host::{Host, Recorded};
use just_text::{Name, Number, Text, Token};
use just_value::{ConstError, Value};
use std::alloc::Global;

impl<'run, 'src> Evaluator<'run, 'src> {
    /// Where the value of a variable lies.
    fn found(
        &self,
        alloc: Global,
        name: &Name<'src>,
        number: Option<Number>,
    ) -> Result<&'run Value, Failure<'src>>
        ensures { seen_above_as (λ value. value.now) result ≢ Err memory → seen_above_as (λ value. value.now) result ≡ read_in (is_non_const self.now.stage) self.now.scope.now (lexeme name.now.token) number }
    {
        let Some(number) = number else {
            return Err(unreadable(alloc, "unresolved", *name));
        };
        if self.is_non_const(number) {
            return Err(not_const(alloc, ConstError::Variable(*name)));
        }
        match self.scope.value(number) {
            Some(value) => Ok(value),
            None => Err(unreadable(alloc, "unevaluated", *name)),
        }
    }

    /// The value of a variable.
    #[inline(never)]
    pub(crate) fn variable(
        &self,
        alloc: Global,
        name: &Name<'src>,
        number: Option<Number>,
    ) -> Result<Value, Failure<'src>>
        ensures { seen_above result ≢ Err memory → seen_above result ≡ read_in (is_non_const self.now.stage) self.now.scope.now (lexeme name.now.token) number }
    {
        let value = self.found(alloc, name, number)?;
        Ok(value.clone()?)
    }

    /// The elements of a variable's value with a space between two.
    pub(crate) fn variable_text(
        &self,
        alloc: Global,
        name: &Name<'src>,
        number: Option<Number>,
    ) -> Result<String, Error<'src>>
        ensures { seen_as string_bytes result ≢ Err memory → seen_as string_bytes result ≡ result_map_both joined (λ fault. fault) (read_in (is_non_const self.now.stage) self.now.scope.now (lexeme name.now.token) number) }
    {
        match self.found(alloc, name, number) {
            Ok(value) => Ok(value.join(alloc)?),
            Err(failure) => Err(failure.into_error()),
        }
    }

    /// What a command between backticks prints; in a dry run the command itself between backticks.
    #[inline(never)]
    pub(crate) fn backtick<H: Host + Drop>(
        &self,
        alloc: Global,
        host: &mut Recorded<H>,
        contents: &Text,
        token: &Token<'src>,
    ) -> Result<Value, Failure<'src>>
        ensures asks { AsksQuestions H.goes host.old host.new }
        ensures evaluates { Evaluates (reading_at self.now) (dialogue (stage_at self.now) (terms.command contents.now (lexeme token.now))) host.old.entries host.new.entries (seen_above result) }
    {
        let Stage::Run(context) = self.stage else {
            return Err(not_const(alloc, ConstError::Backtick(*token)));
        };
        if context.config.dry_run {
            let text = format!(in alloc; "`{contents}`")?;
            return Ok(Value::from_string(alloc, text)?);
        }
        let output = command_output(
            alloc,
            host,
            context,
            self.env,
            self.scope,
            contents.as_str(),
            &[],
        )?;
        output_value(alloc, output, token)
    }

    /// What the built-in function answers to these values.
    #[inline(never)]
    pub(crate) fn answer<H: Host + Drop>(
        &self,
        alloc: Global,
        host: &mut Recorded<H>,
        function: Function,
        name: &Name<'src>,
        values: &[Value],
    ) -> Result<Value, Failure<'src>>
        ensures asks { AsksQuestions H.goes host.old host.new }
        ensures evaluates { Evaluates (reading_at self.now) (builtin_at self.now.stage self.now (lexeme name.now.token) name.now.token.path.now function values.now) host.old.entries host.new.entries (seen_above result) }
    {
        let Stage::Run(context) = self.stage else {
            return Err(call_in_constant(alloc, name));
        };
        let site = CallSite {
            context,
            env: self.env,
            is_dependency: self.is_dependency,
            name: *name,
            recipe: self.recipe,
            scope: self.scope,
        };
        boxed(alloc, call_builtin(alloc, host, &site, function, values))
    }
}
