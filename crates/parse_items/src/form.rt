//! The names of settings, and the forms of their values.
ghost use Rattle.std.specs.Prelude.{◌≡◌};
ghost use Rattle.parse_items.specs.Names.{form_named};

/// The form of a setting's value.
#[derive(Clone, Copy, Debug, PartialEq, Eq)]
pub enum Form {
    /// A string: one tab, or one to eight spaces.
    Indentation,
    /// `[` one or more expressions `]`
    Interpreter,
    /// `true` or `false`; true where it is left out.
    Truth,
    /// An expression.
    Value,
    /// A string: a version.
    Version,
}

/// The form of the value of the setting with that name, if there is one.
pub fn form_named(name: &str) -> Option<Form>
    ensures { result ≡ form_named name.now }
{
    match name {
        "allow-duplicate-recipes" => Some(Form::Truth),
        "allow-duplicate-variables" => Some(Form::Truth),
        "default-list" => Some(Form::Truth),
        "default-script" => Some(Form::Truth),
        "dotenv-command" => Some(Form::Value),
        "dotenv-filename" => Some(Form::Value),
        "dotenv-load" => Some(Form::Truth),
        "dotenv-override" => Some(Form::Truth),
        "dotenv-path" => Some(Form::Value),
        "dotenv-required" => Some(Form::Truth),
        "export" => Some(Form::Truth),
        "fallback" => Some(Form::Truth),
        "guards" => Some(Form::Truth),
        "ignore-comments" => Some(Form::Truth),
        "indentation" => Some(Form::Indentation),
        "lazy" => Some(Form::Truth),
        "lists" => Some(Form::Truth),
        "minimum-version" => Some(Form::Version),
        "no-cd" => Some(Form::Truth),
        "no-exit-message" => Some(Form::Truth),
        "positional-arguments" => Some(Form::Truth),
        "quiet" => Some(Form::Truth),
        "script-interpreter" => Some(Form::Interpreter),
        "share-subsequents" => Some(Form::Truth),
        "shell" => Some(Form::Interpreter),
        "tempdir" => Some(Form::Value),
        "unstable" => Some(Form::Truth),
        "windows-powershell" => Some(Form::Truth),
        "windows-shell" => Some(Form::Interpreter),
        "working-directory" => Some(Form::Value),
        _ => None,
    }
}
