//! Settings, which are constants.
ghost use Rattle.std.specs.Prelude.{◌≡◌};
ghost use Rattle.just_text.specs.Tokens.{lexeme};
ghost use Rattle.evaluate_variables.specs.SettingValues.{SetsTo, TextSets, ValueSets, WordsSet, with_truth};
ghost use Rattle.evaluate_variables.specs.Settled.{reading_in};

use crate::const_evaluator::ConstEvaluator;
use evaluate_context::{Error, Settings};
use just_text::{Name, Text};
use just_value::{StringContext, Value};
use std::alloc::Global;
use tree_attributes::{Indentation, Interpreter, Setting, TruthSetting};
use tree_expressions::Expression;
use tree_items::Set;

impl<'a, 'src> ConstEvaluator<'a, 'src> {
    /// Sets the value of a setting.
    fn set_value(
        &self,
        alloc: Global,
        value: &mut Value,
        expression: &Expression<'src>,
    ) -> Result<(), Error<'src>>
        ensures { ValueSets (reading_in self.now) self.now.lists expression.now value.old value.new result }
    {
        *value = self.evaluate_value_const(alloc, expression)?;
        Ok(())
    }

    /// Sets the one element of a setting's value.
    fn set_text(
        &self,
        alloc: Global,
        text: &mut Option<Text>,
        expression: &Expression<'src>,
        setting: Name<'src>,
    ) -> Result<(), Error<'src>>
        ensures { TextSets (reading_in self.now) self.now.lists (lexeme setting.entry.token) expression.now text.old text.new result }
    {
        let context = StringContext::Setting(setting);
        let element = self.evaluate_string_const(alloc, expression, context)?;
        *text = Some(Text::from_string(element));
        Ok(())
    }

    /// Sets the words of a shell or an interpreter.
    fn set_words(
        &self,
        alloc: Global,
        words: &mut Option<Interpreter<Text>>,
        interpreter: &Interpreter<Expression<'src>>,
        setting: Name<'src>,
    ) -> Result<(), Error<'src>>
        ensures { WordsSet (reading_in self.now) self.now.lists (lexeme setting.entry.token) interpreter.now words.old words.new result }
    {
        *words = Some(self.evaluate_interpreter(alloc, interpreter, setting)?);
        Ok(())
    }

    /// Sets what the item says, in place of what an earlier item of the name said. A refused one, for
    /// what its value is refused for or for want of memory, changes nothing.
    pub fn evaluate_set(
        &self,
        alloc: Global,
        settings: &mut Settings,
        set: &Set<'src>,
    ) -> Result<(), Error<'src>>
        ensures { SetsTo (reading_in self.now) self.now.lists (lexeme set.now.name.token) set.now.value settings.old settings.new result }
    {
        let name = set.name;
        match &set.value {
            Setting::DotenvCommand(e) => self.set_value(alloc, &mut settings.dotenv_command, e),
            Setting::DotenvFilename(e) => self.set_value(alloc, &mut settings.dotenv_filename, e),
            Setting::DotenvPath(e) => self.set_value(alloc, &mut settings.dotenv_path, e),
            Setting::ScriptInterpreter(i) => {
                self.set_words(alloc, &mut settings.script_interpreter, i, name)
            }
            Setting::Shell(i) => self.set_words(alloc, &mut settings.shell, i, name),
            Setting::WindowsShell(i) => self.set_words(alloc, &mut settings.windows_shell, i, name),
            Setting::Tempdir(e) => self.set_text(alloc, &mut settings.tempdir, e, name),
            Setting::WorkingDirectory(e) => {
                self.set_text(alloc, &mut settings.working_directory, e, name)
            }
            Setting::Indentation(text) => {
                settings.indentation = Indentation::from_text(text.cooked.as_str());
                Ok(())
            }
            Setting::Truth(which, value) => {
                set_truth(settings, *which, *value);
                Ok(())
            }
            Setting::MinimumVersion(_) => Ok(()),
        }
    }
}

/// Sets what is true or false.
fn set_truth(settings: &mut Settings, which: TruthSetting, value: bool)
    ensures { settings.new ≡ with_truth which value settings.old }
{
    match which {
        TruthSetting::AllowDuplicateRecipes => settings.allow_duplicate_recipes = value,
        TruthSetting::AllowDuplicateVariables => settings.allow_duplicate_variables = value,
        TruthSetting::DefaultList => settings.default_list = value,
        TruthSetting::DefaultScript => settings.default_script = value,
        TruthSetting::DotenvLoad => settings.dotenv_load = value,
        TruthSetting::DotenvOverride => settings.dotenv_override = value,
        TruthSetting::DotenvRequired => settings.dotenv_required = value,
        TruthSetting::Export => settings.export = value,
        TruthSetting::Fallback => settings.fallback = value,
        TruthSetting::Guards => settings.guards = value,
        TruthSetting::IgnoreComments => settings.ignore_comments = value,
        TruthSetting::Lazy => settings.lazy = value,
        TruthSetting::Lists => settings.lists = value,
        TruthSetting::NoCd => settings.no_cd = value,
        TruthSetting::NoExitMessage => settings.no_exit_message = value,
        TruthSetting::PositionalArguments => settings.positional_arguments = value,
        TruthSetting::Quiet => settings.quiet = value,
        TruthSetting::ShareSubsequents => settings.share_subsequents = value,
        TruthSetting::Unstable => settings.unstable = value,
        TruthSetting::WindowsPowershell => settings.windows_powershell = value,
    }
}
