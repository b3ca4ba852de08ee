//! The whole: from texts and words to what is done.
ghost use Rattle.std.specs.Prelude.{◌≡◌, ◌≤◌, Bool, IfErr, length};
ghost use Rattle.just_text.specs.Numbers.{Numbers};
ghost use Rattle.modules_sources.specs.Loaded.{IsRootRead};
ghost use Rattle.meaning_rules.specs.Worlds.Views.{given_of};
ghost use Rattle.just_value.specs.Constants.{constant_rows};
ghost use Rattle.just_modules.specs.Worlds.{BreaksNone, InEachWorld};
ghost use Rattle.just_resolve.specs.Rules.{IsResolvable};
ghost use Rattle.laws_modules.specs.Names.Meant.{IsMeantWhole};
ghost use Rattle.meaning_rules.specs.Worlds.Matching.{MatchSources};
ghost use Rattle.meaning_rules.specs.Worlds.Given.{Given, World};
ghost use Rattle.meaning_rules.specs.Worlds.Standing.{StandsFor};
ghost use Rattle.resolve_recipes.specs.Named.{AllByName};
ghost use Rattle.just_run.specs.Root.{inputs_of, reader_of};
ghost use Rattle.just_run.specs.Drives.{Drives};
ghost use Rattle.just_run.specs.Early.{IsEarly, IsLate};
ghost use Rattle.just_run.specs.Formatted.{InEachFormatted};
ghost use Rattle.just_run.specs.Plans.{IsKeptBy, Plans};
ghost use Rattle.run_tasks.specs.Requested.Requests.{IsText};
ghost use Rattle.just_run.specs.Sources.{AnswersSources, TellsNames, TellsPlaced, TellsSources, asked_of};
ghost use Rattle.just_run.specs.Writes.{IsKept, WriteFails};
ghost use Rattle.run_tasks.specs.declared.action.Action.TheVariants.{Plan};
ghost use Rattle.just_host.specs.Asking.{IsAsked};
ghost use Rattle.just_host.specs.Kinds.{Only};
ghost use Rattle.just_host.specs.declared.entry.Entry.{Entry};
ghost use Rattle.just_run.specs.Kinds.{AsksFor, MayAdd};
ghost use Rattle.run_tasks.specs.Kinds as tasks;
ghost use Rattle.run_tasks.specs.Prepared.Begun.{BeginsTask};
ghost use Rattle.run_tasks.specs.Prepared.Performed.{PerformsTask};
ghost use Rattle.just_run.specs.Named.{left_of};
ghost use Rattle.just_run.specs.Ran.{EndsTask};

use crate::fault::Fault;
use crate::outcome::Outcome;
use crate::plan::drive_plan;
use crate::root::{Root, read_root};
use crate::texts::{tell, write_performed};
use just_host::{Config, Out, Recorded, RunHost};
use just_modules::{Compilation, Compiler, Parsed};
use just_resolve::{Analysis, Analyzer, number_variables};
use just_value::Positional;
use justfile_syntax::Expander;
use justfile_syntax::file_law::file_law;
use laws_printing::law::formatted::formatted_texts_say_the_same;
use laws_reading::law::worlds::worlds_are_given;
use run_tasks::{Action, Request, Task, perform_task, request_of};
use std::alloc::Global;
use std::collections::BTreeMap;
use std::mem;

/// Opens all modules, does the task, and writes what it gave.
fn drive_task<'src, H: RunHost + Drop, O: Out>(
    alloc: Global,
    compilation: &Compilation<'src>,
    analysis: &Analysis<'src, '_>,
    config: &Config,
    root: &str,
    task: Task,
    host: &mut Recorded<H>,
    out: &mut O,
) -> Result<Outcome, Fault<'src>>
    ensures kept { IfErr result (λ fault. IsKept (O.written out.old) fault (O.written out.new)) }
    ensures unfailed { WriteFails (O.failed out.old) result (O.failed out.new) }
    ensures late { IfErr result IsLate }
    ensures asks { tasks.AsksFor task.entry config.now.dry_run H.goes host.old host.new }
    // It is answered, and written, how the task over what is known of the justfile ended.
    ensures ends { EndsTask (left_of host.old (O.written out.old) (O.failed out.old) host.new (O.written out.new) (O.failed out.new)) result task.entry (PerformsTask compilation.now analysis.now config.now root.now task.entry host.old.entries host.new.entries) }
    // However it ended, what was recorded is the beginning of what the task records.
    ensures begun { BeginsTask compilation.now analysis.now config.now root.now task.entry host.old.entries host.new.entries }
{
    let performed = perform_task(alloc, compilation, analysis, config, root, host, task)?;
    write_performed(performed, out)
}

/// Does what is asked of the resolved modules.
fn drive_analysis<'src, H: RunHost + Drop, O: Out>(
    alloc: Global,
    compilation: &Compilation<'src>,
    analysis: &Analysis<'src, '_>,
    config: &Config,
    root: &str,
    words: &Positional,
    action: Action,
    host: &mut Recorded<H>,
    out: &mut O,
) -> Result<Outcome, Fault<'src>>
    ensures kept { IfErr result (λ fault. IsKeptBy action (O.written out.old) fault (O.written out.new)) }
    ensures unfailed { WriteFails (O.failed out.old) result (O.failed out.new) }
    ensures planned { action ≡ Plan → Plans H.goes host.old (O.written out.old) result host.new (O.written out.new) }
    ensures early { IfErr result (λ fault. IsEarly fault host.old (O.written out.old) host.new (O.written out.new)) }
    ensures silent { IsText action → host.new ≡ host.old }
    ensures asks { AsksFor action config.now.dry_run H.goes host.old host.new }
    ensures words { analysis.now.modules.now ≡ compilation.now.modules.items → AllByName compilation.now → TellsPlaced compilation.now analysis.now (asked_of action words.now config.now) root.now (left_of host.old (O.written out.old) (O.failed out.old) host.new (O.written out.new) (O.failed out.new)) result }
{
    let words = words.arguments.as_slice();
    let request = request_of(alloc, compilation, analysis, action, words)?;
    match request {
        Request::Task(task) => drive_task(
            alloc,
            compilation,
            analysis,
            config,
            root,
            task,
            host,
            out,
        ),
        Request::Plan(calls) => drive_plan(
            alloc,
            compilation,
            analysis,
            config,
            root,
            calls,
            host,
            out,
        ),
        Request::Text(text) => tell(alloc, compilation, root, config.os, text, out),
    }
}

/// What becomes of the trees of the files, and of what is known of them, at the end of a call.
#[derive(Clone, Copy)]
enum Trees {
    Dropped,
    Leaked,
}

/// Drops the trees of all files, or leaks them.
fn part_with(compilation: Compilation, trees: Trees) {
    match trees {
        Trees::Dropped => drop(compilation),
        Trees::Leaked => mem::forget(compilation),
    }
}

/// Drops what is known of the modules, or leaks it.
fn part_with_analysis(analysis: Analysis, trees: Trees) {
    match trees {
        Trees::Dropped => drop(analysis),
        Trees::Leaked => mem::forget(analysis),
    }
}

/// Does what is asked of the modules.
fn drive_modules<'src, H: RunHost + Drop, O: Out>(
    alloc: Global,
    compilation: &Compilation<'src>,
    config: &Config,
    root: &str,
    words: &Positional,
    action: Action,
    trees: Trees,
    host: &mut Recorded<H>,
    out: &mut O,
) -> Result<Outcome, Fault<'src>>
    ensures kept { IfErr result (λ fault. IsKeptBy action (O.written out.old) fault (O.written out.new)) }
    ensures unfailed { WriteFails (O.failed out.old) result (O.failed out.new) }
    ensures planned { action ≡ Plan → Plans H.goes host.old (O.written out.old) result host.new (O.written out.new) }
    ensures early { IfErr result (λ fault. IsEarly fault host.old (O.written out.old) host.new (O.written out.new)) }
    ensures silent { IsText action → host.new ≡ host.old }
    ensures asks { AsksFor action config.now.dry_run H.goes host.old host.new }
    ensures names { (source : Given) (w : World) → StandsFor source w → source.os ≡ config.now.os → BreaksNone w → IsResolvable w compilation.now → MatchSources source compilation.now → TellsNames source (asked_of action words.now config.now) root.now (left_of host.old (O.written out.old) (O.failed out.old) host.new (O.written out.new) (O.failed out.new)) result w }
{
    file_law();
    let overrides = words.overrides.as_slice();
    match Analyzer::analyze(alloc, compilation, config, overrides) {
        Ok(analysis) => {
            let driven = drive_analysis(
                alloc,
                compilation,
                &analysis,
                config,
                root,
                words,
                action,
                host,
                out,
            );
            part_with_analysis(analysis, trees);
            driven
        }
        Err(error) => Err(Fault::from(error)),
    }
}

/// Numbers the variables of the modules, and does what is asked of them.
fn drive_compilation<'src, H: RunHost + Drop, O: Out>(
    alloc: Global,
    config: &Config,
    mut compilation: Compilation<'src>,
    root: &str,
    words: &Positional,
    action: Action,
    trees: Trees,
    host: &mut Recorded<H>,
    out: &mut O,
) -> Result<Outcome, Fault<'src>>
    ensures kept { IfErr result (λ fault. IsKeptBy action (O.written out.old) fault (O.written out.new)) }
    ensures unfailed { WriteFails (O.failed out.old) result (O.failed out.new) }
    ensures planned { action ≡ Plan → Plans H.goes host.old (O.written out.old) result host.new (O.written out.new) }
    ensures early { IfErr result (λ fault. IsEarly fault host.old (O.written out.old) host.new (O.written out.new)) }
    ensures silent { IsText action → host.new ≡ host.old }
    ensures asks { AsksFor action config.now.dry_run H.goes host.old host.new }
    ensures names { AllByName compilation.entry → (source : Given) (w : World) → StandsFor source w → source.os ≡ config.now.os → BreaksNone w → IsMeantWhole w compilation.entry → MatchSources source compilation.entry → TellsNames source (asked_of action words.now config.now) root.now (left_of host.old (O.written out.old) (O.failed out.old) host.new (O.written out.new) (O.failed out.new)) result w }
{
    match number_variables(alloc, &mut compilation) {
        Ok(()) => {
            let driven = drive_modules(
                alloc,
                &compilation,
                config,
                root,
                words,
                action,
                trees,
                host,
                out,
            );
            part_with(compilation, trees);
            driven
        }
        Err(error) => Err(Fault::from(error)),
    }
}

/// Reads all that the root file names, and does what is asked of them.
fn drive_files<'src, E: Expander, H: RunHost + Drop, O: Out>(
    alloc: Global,
    config: &Config,
    expander: &E,
    sources: &'src BTreeMap<String, String>,
    path: &'src str,
    parsed: Parsed<'src>,
    words: &Positional,
    action: Action,
    trees: Trees,
    host: &mut Recorded<H>,
    out: &mut O,
) -> Result<Outcome, Fault<'src>>
    ensures kept { IfErr result (λ fault. IsKeptBy action (O.written out.old) fault (O.written out.new)) }
    ensures unfailed { WriteFails (O.failed out.old) result (O.failed out.new) }
    ensures planned { action ≡ Plan → Plans H.goes host.old (O.written out.old) result host.new (O.written out.new) }
    ensures early { IfErr result (λ fault. IsEarly fault host.old (O.written out.old) host.new (O.written out.new)) }
    ensures silent { IsText action → host.new ≡ host.old }
    ensures asks { AsksFor action config.now.dry_run H.goes host.old host.new }
    ensures sources { (start : Numbers) → length constant_rows ≤ start.bindings → IsRootRead sources.now (E.expansion expander.now) config.now.version start path.now parsed.entry → InEachWorld config.now.os config.now.unstable sources.now (E.expansion expander.now) config.now.version path.now (TellsSources (given_of sources.now config.now.os config.now.unstable (E.expansion expander.now) config.now.version path.now) (asked_of action words.now config.now) path.now (left_of host.old (O.written out.old) (O.failed out.old) host.new (O.written out.new) (O.failed out.new)) result) }
{
    match Compiler::compile_parsed(alloc, config, expander, sources, path, parsed) {
        Ok(compilation) => drive_compilation(
            alloc,
            config,
            compilation,
            path,
            words,
            action,
            trees,
            host,
            out,
        ),
        Err(error) => Err(Fault::from(error)),
    }
}

/// Reads the root file that the words name, and does what is asked of it.
fn drive_words<'src, E: Expander, H: RunHost + Drop, O: Out>(
    alloc: Global,
    config: &Config,
    expander: &E,
    sources: &'src BTreeMap<String, String>,
    roots: &'src BTreeMap<Option<String>, String>,
    words: &[String],
    action: Action,
    trees: Trees,
    host: &mut Recorded<H>,
    out: &mut O,
) -> Result<Outcome, Fault<'src>>
    // Whatever is asked for: a fault that is none of a run or of the output names a rule that is broken; then nothing was asked, handed over or written.
    ensures early { IfErr result (λ fault. IsEarly fault host.old (O.written out.old) host.new (O.written out.new)) }
    // The sources stand for a world. The call is refused by a rule of files, modules, definitions, names or words exactly where one is broken in it, and else what is done goes by what is defined by name.
    ensures sources { AnswersSources (given_of sources.now config.now.os config.now.unstable (E.expansion expander.now) config.now.version) (inputs_of (reader_of (E.expansion expander.now) config.now.version) sources.now roots.now words.now) (asked_of action (inputs_of (reader_of (E.expansion expander.now) config.now.version) sources.now roots.now words.now).words config.now) (left_of host.old (O.written out.old) (O.failed out.old) host.new (O.written out.new) (O.failed out.new)) result }
    // Where the text of the root file or the list of recipes is asked for, nothing is asked and nothing handed over.
    ensures silent { IsText action → host.new ≡ host.old }
    // Where the call is refused nothing is written, unless the output takes no more, or a run fails whose plan is written.
    ensures kept { IfErr result (λ fault. IsKeptBy action (O.written out.old) fault (O.written out.new)) }
    // A write failed exactly where the answer is `Write`.
    ensures unfailed { WriteFails (O.failed out.old) result (O.failed out.new) }
    // A plan hands nothing over: what is asked are questions and requests for files of variables alone, and what is written tells what a run would hand over.
    ensures planned { action ≡ Plan → Plans H.goes host.old (O.written out.old) result host.new (O.written out.new) }
    // Whatever is asked for: the record has grown by just what was asked, by entries that the action may add alone, and the host went along by it.
    ensures asked { (kinds : Entry → Bool) → MayAdd action config.now.dry_run kinds → IsAsked (Only kinds H.goes) host.old host.new }
{
    file_law();
    worlds_are_given();
    let words = Positional::from_values(alloc, words)?;
    let root = read_root(alloc, &words, sources, roots, expander, &config.version)?;
    let Root { path, parsed } = root;
    drive_files(
        alloc, config, expander, sources, path, parsed, &words, action, trees, host, out,
    )
}

/// Does what the action and the words ask of the justfile in `sources` that `roots` name for the
/// words' search directory.
///
/// A call is refused before anything is asked of the host where a rule is broken: of the files that
/// are reached, of their modules, names and orders, or of the words. Else all modules open, parents
/// first, and the recipes that the words name run, each after all that it depends on, none twice
/// with the same values, up to the first command that fails; or what they would hand over up to there
/// is written, and nothing is handed over; or the variables are written, or the one command runs.
/// Want of memory, or of numbers for recipes and bindings, may come in the place of any answer. The
/// trees of the files are dropped at the end.
///
/// # Errors
///
/// `NoRootForWord`; a rule of files, modules, names and orders, or of words; `Dotenv`, `Opening`,
/// `Evaluation`, `Code`, `Signal`, `CouldNotStart`, `NotConfirmed` and `Command` of a run; `Write`
/// where the output takes no more; `NotPrintable`; `OutOfMemory`.
pub fn drive<'src, E: Expander, H: RunHost + Drop, O: Out>(
    alloc: Global,
    config: &Config,
    expander: &E,
    sources: &'src BTreeMap<String, String>,
    roots: &'src BTreeMap<Option<String>, String>,
    words: &[String],
    action: Action,
    host: &mut Recorded<H>,
    out: &mut O,
) -> Result<Outcome, Fault<'src>>
    ensures drives { Drives H.goes (inputs_of (reader_of (E.expansion expander.now) config.now.version) sources.now roots.now words.now) (given_of sources.now config.now.os config.now.unstable (E.expansion expander.now) config.now.version) config.now action (record { host = host.old; written = O.written out.old; failed = O.failed out.old }) result (record { host = host.new; written = O.written out.new; failed = O.failed out.new }) }
    // Where some of the files stand in their formatted text instead, the answer is one of that call.
    ensures formatted { InEachFormatted (E.expansion expander.now) config.now.version sources.now (λ other. Drives H.goes (inputs_of (reader_of (E.expansion expander.now) config.now.version) other roots.now words.now) (given_of other config.now.os config.now.unstable (E.expansion expander.now) config.now.version) config.now action (record { host = host.old; written = O.written out.old; failed = O.failed out.old }) result (record { host = host.new; written = O.written out.new; failed = O.failed out.new })) }
{
    file_law();
    formatted_texts_say_the_same();
    drive_words(
        alloc,
        config,
        expander,
        sources,
        roots,
        words,
        action,
        Trees::Dropped,
        host,
        out,
    )
}

/// Does what `drive` does, for a process that ends after the call: the trees of the files and what is
/// known of them are leaked, so that the system takes their memory back at once.
///
/// # Errors
///
/// Those of `drive`.
pub fn drive_and_leak<'src, E: Expander, H: RunHost + Drop, O: Out>(
    alloc: Global,
    config: &Config,
    expander: &E,
    sources: &'src BTreeMap<String, String>,
    roots: &'src BTreeMap<Option<String>, String>,
    words: &[String],
    action: Action,
    host: &mut Recorded<H>,
    out: &mut O,
) -> Result<Outcome, Fault<'src>>
    ensures drives { Drives H.goes (inputs_of (reader_of (E.expansion expander.now) config.now.version) sources.now roots.now words.now) (given_of sources.now config.now.os config.now.unstable (E.expansion expander.now) config.now.version) config.now action (record { host = host.old; written = O.written out.old; failed = O.failed out.old }) result (record { host = host.new; written = O.written out.new; failed = O.failed out.new }) }
    // Where some of the files stand in their formatted text instead, the answer is one of that call.
    ensures formatted { InEachFormatted (E.expansion expander.now) config.now.version sources.now (λ other. Drives H.goes (inputs_of (reader_of (E.expansion expander.now) config.now.version) other roots.now words.now) (given_of other config.now.os config.now.unstable (E.expansion expander.now) config.now.version) config.now action (record { host = host.old; written = O.written out.old; failed = O.failed out.old }) result (record { host = host.new; written = O.written out.new; failed = O.failed out.new })) }
{
    file_law();
    formatted_texts_say_the_same();
    drive_words(
        alloc,
        config,
        expander,
        sources,
        roots,
        words,
        action,
        Trees::Leaked,
        host,
        out,
    )
}
