//! Settings by their names.
ghost use Rattle.std.specs.Prelude.{◌≡◌, Some};
ghost use Rattle.tree_attributes.specs.Settings.{expression, interpreter, interpreter_shape, truth, value_shape};
ghost use Rattle.tree_expressions.specs.Shape.{shape_of};
ghost use Rattle.parse_expressions.specs.Literals.{Origin, IsCooked};
ghost use Rattle.parse_items.specs.SettingCooked.{IsCookedInterpreter, IsCookedSetting};
ghost use Rattle.parse_items.specs.Names.{form_named, setting_name, truth_name};
ghost use Rattle.parse_items.specs.declared.form.Form.TheVariants as forms;

use tree_attributes::{Interpreter, Setting, TruthSetting};
use tree_expressions::Expression;

/// The setting of that name that is true or false.
fn truth_named(name: &str) -> TruthSetting
    requires { form_named name.now ≡ Some forms.Truth }
    ensures { truth_name result ≡ name.now }
{
    match name {
        "allow-duplicate-recipes" => TruthSetting::AllowDuplicateRecipes,
        "allow-duplicate-variables" => TruthSetting::AllowDuplicateVariables,
        "default-list" => TruthSetting::DefaultList,
        "default-script" => TruthSetting::DefaultScript,
        "dotenv-load" => TruthSetting::DotenvLoad,
        "dotenv-override" => TruthSetting::DotenvOverride,
        "dotenv-required" => TruthSetting::DotenvRequired,
        "export" => TruthSetting::Export,
        "fallback" => TruthSetting::Fallback,
        "guards" => TruthSetting::Guards,
        "ignore-comments" => TruthSetting::IgnoreComments,
        "lazy" => TruthSetting::Lazy,
        "lists" => TruthSetting::Lists,
        "no-cd" => TruthSetting::NoCd,
        "no-exit-message" => TruthSetting::NoExitMessage,
        "positional-arguments" => TruthSetting::PositionalArguments,
        "quiet" => TruthSetting::Quiet,
        "share-subsequents" => TruthSetting::ShareSubsequents,
        "unstable" => TruthSetting::Unstable,
        "windows-powershell" => TruthSetting::WindowsPowershell,
        _ => unreachable!(),
    }
}

/// The setting of that name, whose value is a truth value.
pub(crate) fn truth_setting<'src>(name: &str, value: bool) -> Setting<'src>
    requires { form_named name.now ≡ Some forms.Truth }
    ensures name { setting_name result ≡ name.now }
    ensures value { value_shape result ≡ truth value }
    ensures cooked { (origin : Origin) → IsCookedSetting origin result }
{
    Setting::Truth(truth_named(name), value)
}

/// The setting of that name, whose value is an expression.
pub(crate) fn value_setting<'src>(name: &str, value: Expression<'src>) -> Setting<'src>
    requires { form_named name.now ≡ Some forms.Value }
    ensures name { setting_name result ≡ name.now }
    ensures value { value_shape result ≡ expression (shape_of value.entry) }
    ensures cooked { (origin : Origin) → IsCooked origin value.entry → IsCookedSetting origin result }
{
    match name {
        "dotenv-command" => Setting::DotenvCommand(value),
        "dotenv-filename" => Setting::DotenvFilename(value),
        "dotenv-path" => Setting::DotenvPath(value),
        "tempdir" => Setting::Tempdir(value),
        "working-directory" => Setting::WorkingDirectory(value),
        _ => unreachable!(),
    }
}

/// The setting of that name, whose value is an interpreter.
pub(crate) fn interpreter_setting<'src>(
    name: &str,
    value: Interpreter<Expression<'src>>,
) -> Setting<'src>
    requires { form_named name.now ≡ Some forms.Interpreter }
    ensures name { setting_name result ≡ name.now }
    ensures value { value_shape result ≡ interpreter (interpreter_shape value.entry) }
    ensures cooked { (origin : Origin) → IsCookedInterpreter origin value.entry → IsCookedSetting origin result }
{
    match name {
        "script-interpreter" => Setting::ScriptInterpreter(value),
        "shell" => Setting::Shell(value),
        "windows-shell" => Setting::WindowsShell(value),
        _ => unreachable!(),
    }
}
