//! Calls of built-in functions.
ghost use Rattle.std.specs.Prelude.{◌≡◌, List, ℕ, map};
ghost use Rattle.evaluate_builtins.specs.Builtins.{environment_dialogue};
ghost use Rattle.evaluate_builtins.specs.Named as spec;
ghost use Rattle.evaluate_builtins.specs.Requests as requests;
ghost use Rattle.evaluate_builtins.specs.Requests.{LeadsAny, asked_of, requested};
ghost use Rattle.evaluate_builtins.specs.Sites.{called, standing_of};
ghost use Rattle.evaluate_context.specs.Environment as surrounding;
ghost use Rattle.evaluate_context.specs.Refusals.{seen};
ghost use Rattle.evaluate_context.specs.Surroundings.{surroundings_of};
ghost use Rattle.just_host.specs.Kinds.{AsksQuestions};
ghost use Rattle.just_text.specs.Tokens.{lexeme};
ghost use Rattle.meaning_dialogues.specs.Dialogue.{Evaluates, Reading};

use crate::files;
use crate::machine::{fact_answer, fact_of, folder_answer, folder_of};
use crate::shell::shell;
use crate::site::{CallSite, site_answer};
use crate::variable::variable;
use evaluate_context::Error;
use evaluate_functions::{Function, FunctionFault, pure_answer, text_at};
use just_host::{Host, Recorded};
use just_text::{Name, Text};
use just_value::Value;
use std::alloc::Global;

/// What the function answers to the arguments, of which those that are one text have one element
/// each. Refused as `FunctionCall` with what the function says, as `NoParent` where the path of the
/// justfile, of the module's file or of the calling file has no parent, and as
/// `OutOfMemory`. A missing argument is the empty value.
pub fn call_builtin<'src, H: Host + Drop>(
    alloc: Global,
    host: &mut Recorded<H>,
    site: &CallSite<'_, 'src>,
    function: Function,
    arguments: &[Value],
) -> Result<Value, Error<'src>>
    ensures asks { AsksQuestions H.goes host.old host.new }
    ensures evaluates { (reading : Reading) → Evaluates reading (called site.now function arguments.now) host.old.entries host.new.entries (seen result) }
{
    let lists = site.context.module.settings.lists;
    if let Some(answer) = pure_answer(alloc, lists, function, arguments) {
        return named(site.name, answer);
    }
    if let Some(answer) = site_answer(alloc, site, function) {
        return answer;
    }
    match asked_answer(alloc, host, site, function, arguments) {
        Some(answer) => named(site.name, answer),
        None => Err(unanswered(alloc)),
    }
}

/// The refusal of a call that no answer is told for.
fn unanswered<'src>(alloc: Global) -> Error<'src> {
    match Text::from_text(alloc, "unanswered function") {
        Ok(text) => Error::Internal(text),
        Err(_) => Error::OutOfMemory,
    }
}

/// The answer, with the function's name beside its refusal.
fn named<'src>(name: Name<'src>, answer: Result<Value, FunctionFault>) -> Result<Value, Error<'src>>
    ensures { seen result ≡ spec.named (lexeme name.entry.token) answer }
{
    match answer {
        Ok(value) => Ok(value),
        Err(FunctionFault::Message(message)) => Err(Error::FunctionCall { name, message }),
        Err(FunctionFault::OutOfMemory) => Err(Error::OutOfMemory),
    }
}

/// What a function asks the host that tells no fact of the machine.
#[derive(Clone, Copy)]
enum Request {
    CanonicalPath,
    Contents,
    Existence,
    Output,
    Program,
    RequiredProgram,
    Variable,
}

/// What the function asks the host, beside facts of the machine; none where it asks nothing else.
fn request_of(function: Function) -> Option<Request>
    ensures { result ≡ requests.request_of function }
{
    match function {
        Function::Canonicalize => Some(Request::CanonicalPath),
        Function::Env | Function::EnvVar | Function::EnvVarOrDefault => Some(Request::Variable),
        Function::PathExists => Some(Request::Existence),
        Function::Read => Some(Request::Contents),
        Function::Require => Some(Request::RequiredProgram),
        Function::Shell => Some(Request::Output),
        Function::Which => Some(Request::Program),
        Function::Append
        | Function::Arch
        | Function::Bool
        | Function::CacheDirectory
        | Function::Capitalize
        | Function::ConfigDirectory
        | Function::ConfigLocalDirectory
        | Function::DataDirectory
        | Function::DataLocalDirectory
        | Function::EncodeUriComponent
        | Function::Error
        | Function::ExecutableDirectory
        | Function::Extension
        | Function::FileName
        | Function::FileStem
        | Function::HomeDirectory
        | Function::InvocationDirectory
        | Function::InvocationDirectoryNative
        | Function::IsDependency
        | Function::Join
        | Function::JoinList
        | Function::JustExecutable
        | Function::JustPid
        | Function::JustVersion
        | Function::Justfile
        | Function::JustfileDirectory
        | Function::Len
        | Function::Lowercase
        | Function::ModuleDirectory
        | Function::ModuleFile
        | Function::ModulePath
        | Function::NumCpus
        | Function::NumJobs
        | Function::Os
        | Function::OsFamily
        | Function::ParentDirectory
        | Function::Prepend
        | Function::Quote
        | Function::RecipeName
        | Function::Replace
        | Function::RuntimeDirectory
        | Function::Show
        | Function::SourceDirectory
        | Function::SourceFile
        | Function::Split
        | Function::Trim
        | Function::TrimEnd
        | Function::TrimEndMatch
        | Function::TrimEndMatches
        | Function::TrimStart
        | Function::TrimStartMatch
        | Function::TrimStartMatches
        | Function::Uppercase
        | Function::WithoutExtension => None,
    }
}

/// What a function answers that asks the host; none where it is no such function.
fn asked_answer<H: Host + Drop>(
    alloc: Global,
    host: &mut Recorded<H>,
    site: &CallSite,
    function: Function,
    arguments: &[Value],
) -> Option<Result<Value, FunctionFault>>
    ensures asks { AsksQuestions H.goes host.old host.new }
    ensures leads { (name : List ℕ) (reading : Reading) → LeadsAny name reading (asked_of (surroundings_of site.now.context.now) (standing_of site.now) name function arguments.now) host.old.entries host.new.entries result }
{
    if let Some((folder, words)) = folder_of(function) {
        return Some(folder_answer(alloc, host, folder, words));
    }
    if let Some(fact) = fact_of(function) {
        return Some(fact_answer(alloc, host, fact));
    }
    match request_of(function) {
        Some(request) => Some(answered(alloc, host, site, request, arguments)),
        None => None,
    }
}

/// What the request gives.
fn answered<H: Host + Drop>(
    alloc: Global,
    host: &mut Recorded<H>,
    site: &CallSite,
    request: Request,
    arguments: &[Value],
) -> Result<Value, FunctionFault>
    ensures asks { AsksQuestions H.goes host.old host.new }
    ensures evaluates { (name : List ℕ) (reading : Reading) → Evaluates reading (requested (surroundings_of site.now.context.now) (standing_of site.now) name request arguments.now) host.old.entries host.new.entries (spec.named name result) }
{
    let context = site.context;
    let text = text_at(arguments, 0);
    match request {
        Request::CanonicalPath => files::canonicalize(alloc, host, context, text),
        Request::Contents => files::read(alloc, host, context, text),
        Request::Existence => files::path_exists(alloc, host, context, text),
        Request::Output => shell(alloc, host, site, arguments),
        Request::Program => files::which(alloc, host, context, text),
        Request::RequiredProgram => files::require(alloc, host, context, text),
        Request::Variable => environment(alloc, host, site, arguments),
    }
}

/// What the environment says of the variables in the first argument, with the second as default.
fn environment<H: Host + Drop>(
    alloc: Global,
    host: &mut Recorded<H>,
    site: &CallSite,
    arguments: &[Value],
) -> Result<Value, FunctionFault>
    ensures asks { AsksQuestions H.goes host.old host.new }
    ensures evaluates { (name : List ℕ) (reading : Reading) → Evaluates reading (environment_dialogue name (map surrounding.variable site.now.context.now.dotenv.now.entries) arguments.now) host.old.entries host.new.entries (spec.named name result) }
{
    let dotenv = site.context.dotenv;
    match arguments {
        [] => Ok(Value::new(alloc)),
        [names] => variable(alloc, host, dotenv, names, None),
        [names, default, ..] => variable(alloc, host, dotenv, names, Some(default)),
    }
}
