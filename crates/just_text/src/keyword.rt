//! Words that the grammar knows.
ghost use Rattle.std.specs.Prelude.{◌≡◌, ◌↔◌, IsTrue, Some};
ghost use Rattle.just_text.specs.Keywords.{keyword_text};

use std::fmt;

/// A word of an item, of an expression or of a setting, or the letter before a string.
#[derive(Clone, Copy, Debug, PartialEq, Eq)]
pub enum Keyword {
    Alias,
    AllowDuplicateRecipes,
    AllowDuplicateVariables,
    Assert,
    DefaultList,
    DefaultScript,
    DotenvCommand,
    DotenvFilename,
    DotenvLoad,
    DotenvOverride,
    DotenvPath,
    DotenvRequired,
    Eager,
    Else,
    Export,
    F,
    Fallback,
    False,
    Guards,
    If,
    IgnoreComments,
    Import,
    Indentation,
    Lazy,
    Lists,
    MinimumVersion,
    Mod,
    NoCd,
    NoExitMessage,
    PositionalArguments,
    Quiet,
    ScriptInterpreter,
    Set,
    ShareSubsequents,
    Shell,
    Tempdir,
    True,
    Unexport,
    Unstable,
    WindowsPowershell,
    WindowsShell,
    WorkingDirectory,
    X,
}

impl Keyword {
    /// The word as it is written.
    pub fn lexeme(&self) -> &'static str
        ensures { result.now ≡ keyword_text self.now }
    {
        match self {
            Keyword::Alias => "alias",
            Keyword::AllowDuplicateRecipes => "allow-duplicate-recipes",
            Keyword::AllowDuplicateVariables => "allow-duplicate-variables",
            Keyword::Assert => "assert",
            Keyword::DefaultList => "default-list",
            Keyword::DefaultScript => "default-script",
            Keyword::DotenvCommand => "dotenv-command",
            Keyword::DotenvFilename => "dotenv-filename",
            Keyword::DotenvLoad => "dotenv-load",
            Keyword::DotenvOverride => "dotenv-override",
            Keyword::DotenvPath => "dotenv-path",
            Keyword::DotenvRequired => "dotenv-required",
            Keyword::Eager => "eager",
            Keyword::Else => "else",
            Keyword::Export => "export",
            Keyword::F => "f",
            Keyword::Fallback => "fallback",
            Keyword::False => "false",
            Keyword::Guards => "guards",
            Keyword::If => "if",
            Keyword::IgnoreComments => "ignore-comments",
            Keyword::Import => "import",
            Keyword::Indentation => "indentation",
            Keyword::Lazy => "lazy",
            Keyword::Lists => "lists",
            Keyword::MinimumVersion => "minimum-version",
            Keyword::Mod => "mod",
            Keyword::NoCd => "no-cd",
            Keyword::NoExitMessage => "no-exit-message",
            Keyword::PositionalArguments => "positional-arguments",
            Keyword::Quiet => "quiet",
            Keyword::ScriptInterpreter => "script-interpreter",
            Keyword::Set => "set",
            Keyword::ShareSubsequents => "share-subsequents",
            Keyword::Shell => "shell",
            Keyword::Tempdir => "tempdir",
            Keyword::True => "true",
            Keyword::Unexport => "unexport",
            Keyword::Unstable => "unstable",
            Keyword::WindowsPowershell => "windows-powershell",
            Keyword::WindowsShell => "windows-shell",
            Keyword::WorkingDirectory => "working-directory",
            Keyword::X => "x",
        }
    }

    /// Whether the text is this word.
    pub fn spells(&self, text: &str) -> bool
        ensures { IsTrue result ↔ (text.now ≡ keyword_text self.now) }
    {
        self.lexeme() == text
    }
}

impl fmt::Display for Keyword {
    ghost output = { λ keyword. Some (keyword_text keyword) };

    fn fmt<W: fmt::Write>(&self, f: &mut fmt::Formatter<W>) -> fmt::Result {
        f.write_str(self.lexeme())
    }
}
