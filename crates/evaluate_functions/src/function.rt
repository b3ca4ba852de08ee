//! The built-in functions by their names.
ghost use Rattle.std.specs.Prelude.{◌≡◌, map};
ghost use Rattle.evaluate_functions.specs.Names as spec;

/// A built-in function.
#[derive(Clone, Copy, PartialEq, Eq)]
pub enum Function {
    Append,
    Arch,
    Bool,
    CacheDirectory,
    Canonicalize,
    Capitalize,
    ConfigDirectory,
    ConfigLocalDirectory,
    DataDirectory,
    DataLocalDirectory,
    EncodeUriComponent,
    Env,
    EnvVar,
    EnvVarOrDefault,
    Error,
    ExecutableDirectory,
    Extension,
    FileName,
    FileStem,
    HomeDirectory,
    InvocationDirectory,
    InvocationDirectoryNative,
    IsDependency,
    Join,
    JoinList,
    JustExecutable,
    JustPid,
    JustVersion,
    Justfile,
    JustfileDirectory,
    Len,
    Lowercase,
    ModuleDirectory,
    ModuleFile,
    ModulePath,
    NumCpus,
    NumJobs,
    Os,
    OsFamily,
    ParentDirectory,
    PathExists,
    Prepend,
    Quote,
    Read,
    RecipeName,
    Replace,
    Require,
    RuntimeDirectory,
    Shell,
    Show,
    SourceDirectory,
    SourceFile,
    Split,
    Trim,
    TrimEnd,
    TrimEndMatch,
    TrimEndMatches,
    TrimStart,
    TrimStartMatch,
    TrimStartMatches,
    Uppercase,
    Which,
    WithoutExtension,
}

/// The names, each with its function. `_dir` may stand for `_directory`.
const NAMES: [(&str, Function); 77] = [
    ("append", Function::Append),
    ("arch", Function::Arch),
    ("bool", Function::Bool),
    ("cache_directory", Function::CacheDirectory),
    ("cache_dir", Function::CacheDirectory),
    ("canonicalize", Function::Canonicalize),
    ("capitalize", Function::Capitalize),
    ("config_directory", Function::ConfigDirectory),
    ("config_dir", Function::ConfigDirectory),
    ("config_local_directory", Function::ConfigLocalDirectory),
    ("config_local_dir", Function::ConfigLocalDirectory),
    ("data_directory", Function::DataDirectory),
    ("data_dir", Function::DataDirectory),
    ("data_local_directory", Function::DataLocalDirectory),
    ("data_local_dir", Function::DataLocalDirectory),
    ("encode_uri_component", Function::EncodeUriComponent),
    ("env", Function::Env),
    ("env_var", Function::EnvVar),
    ("env_var_or_default", Function::EnvVarOrDefault),
    ("error", Function::Error),
    ("executable_directory", Function::ExecutableDirectory),
    ("executable_dir", Function::ExecutableDirectory),
    ("extension", Function::Extension),
    ("file_name", Function::FileName),
    ("file_stem", Function::FileStem),
    ("home_directory", Function::HomeDirectory),
    ("home_dir", Function::HomeDirectory),
    ("invocation_directory", Function::InvocationDirectory),
    ("invocation_dir", Function::InvocationDirectory),
    (
        "invocation_directory_native",
        Function::InvocationDirectoryNative,
    ),
    ("invocation_dir_native", Function::InvocationDirectoryNative),
    ("is_dependency", Function::IsDependency),
    ("join", Function::Join),
    ("join_list", Function::JoinList),
    ("just_executable", Function::JustExecutable),
    ("just_pid", Function::JustPid),
    ("just_version", Function::JustVersion),
    ("justfile", Function::Justfile),
    ("justfile_directory", Function::JustfileDirectory),
    ("justfile_dir", Function::JustfileDirectory),
    ("len", Function::Len),
    ("lowercase", Function::Lowercase),
    ("module_directory", Function::ModuleDirectory),
    ("module_dir", Function::ModuleDirectory),
    ("module_file", Function::ModuleFile),
    ("module_path", Function::ModulePath),
    ("num_cpus", Function::NumCpus),
    ("num_jobs", Function::NumJobs),
    ("os", Function::Os),
    ("os_family", Function::OsFamily),
    ("parent_directory", Function::ParentDirectory),
    ("parent_dir", Function::ParentDirectory),
    ("path_exists", Function::PathExists),
    ("prepend", Function::Prepend),
    ("quote", Function::Quote),
    ("read", Function::Read),
    ("recipe_name", Function::RecipeName),
    ("replace", Function::Replace),
    ("require", Function::Require),
    ("runtime_directory", Function::RuntimeDirectory),
    ("runtime_dir", Function::RuntimeDirectory),
    ("shell", Function::Shell),
    ("show", Function::Show),
    ("source_directory", Function::SourceDirectory),
    ("source_dir", Function::SourceDirectory),
    ("source_file", Function::SourceFile),
    ("split", Function::Split),
    ("trim", Function::Trim),
    ("trim_end", Function::TrimEnd),
    ("trim_end_match", Function::TrimEndMatch),
    ("trim_end_matches", Function::TrimEndMatches),
    ("trim_start", Function::TrimStart),
    ("trim_start_match", Function::TrimStartMatch),
    ("trim_start_matches", Function::TrimStartMatches),
    ("uppercase", Function::Uppercase),
    ("which", Function::Which),
    ("without_extension", Function::WithoutExtension),
];

/// The names, each with its function.
#[tactic(auto, unfolding(crate::specs::Names::function_names))]
fn names() -> &'static [(&'static str, Function)]
    ensures { map spec.row_of result.now ≡ spec.function_names }
{
    &NAMES
}

/// The function of the first row with this name.
#[tactic(auto, using(crate::proofs::Rows::row_there, crate::proofs::Rows::row_later, crate::proofs::Rows::row_never))]
fn row_with(rows: &[(&'static str, Function)], name: &str) -> Option<Function>
    ensures { result ≡ spec.row_with name.now (map spec.row_of rows.now) }
{
    for row in rows {
        if row.0 == name {
            return Some(row.1);
        }
    }
    None
}

impl Function {
    /// The built-in function of this name, if there is one.
    pub fn get(name: &str) -> Option<Function>
        ensures { result ≡ spec.function_of name.now }
    {
        row_with(names(), name)
    }
}
