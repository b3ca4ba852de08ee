//! The settings that are true or false.

/// A setting whose value is true or false.
#[derive(Clone, Copy)]
pub enum TruthSetting {
    AllowDuplicateRecipes,
    AllowDuplicateVariables,
    DefaultList,
    DefaultScript,
    DotenvLoad,
    DotenvOverride,
    DotenvRequired,
    Export,
    Fallback,
    Guards,
    IgnoreComments,
    Lazy,
    Lists,
    NoCd,
    NoExitMessage,
    PositionalArguments,
    Quiet,
    ShareSubsequents,
    Unstable,
    WindowsPowershell,
}
