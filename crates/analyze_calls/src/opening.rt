//! What modules open with: their files of variables, and their variables' values.
ghost use Rattle.std.specs.Prelude.{◌≡◌, ◌∷◌, [], Err, IfOk, List, Some, false, map, true};
ghost use Rattle.just_host.specs.Kinds.{AsksQuestions, AsksRequests};
ghost use Rattle.just_host.specs.declared.host.HostFault.TheVariants.{Memory};
ghost use Rattle.evaluate_context.specs.Environment.{variable};
ghost use Rattle.evaluate_context.specs.Surroundings as by;
ghost use Rattle.analyze_calls.specs.declared.fault.OpeningFault.TheVariants.{OutOfMemory};
ghost use Rattle.meaning_evaluation.specs.Requests.{Requests};
ghost use Rattle.analyze_calls.specs.Opening.{AllBegin, FillsBegin, IfOpened, IsContextOf, IsFilled, IsTold, MayBeTold, OneBegins, OpensAfter, OpensAll, OpensOne, asks_for, opened_row, opened_rows, passed, request_if_any, request_in};

use crate::fault::OpeningFault;
use just_host::{Config, DotenvRequest, HostFault, Pair, Recorded, RunHost};
use just_text::{Number, Sequence, Text};
use just_value::{Scope, Value};
use justfile_evaluator::{ExecutionContext, ModuleView, Settings, open_assignments};
use std::alloc::{AllocError, Global};
use std::collections::{BTreeMap, BTreeSet};

/// What all modules open with.
#[derive(Clone, Copy)]
pub struct Opening<'a, 'src> {
    pub config: &'a Config,
    /// Texts in place of variables' values.
    pub overrides: &'a BTreeMap<Number, String>,
    /// The constants' frame.
    pub constants: &'a Scope<'a, 'src>,
    /// The key of the root file.
    pub root: &'a str,
    /// The variables that a module which is lazy evaluates; all where none are named.
    pub wanted: Option<&'a BTreeSet<Number>>,
}

/// What a module was opened with.
#[derive(Drop)]
pub struct Opened<'c, 'src> {
    /// The module's place.
    pub module: usize,
    /// What its files of variables gave.
    pub dotenv: BTreeMap<String, String>,
    /// The module's frame inside the constants' frame.
    pub scope: Scope<'c, 'src>,
}

/// Whether the settings ask for files of variables.
fn asks(settings: &Settings) -> bool
    ensures { result ≡ asks_for settings.now }
{
    settings.dotenv_load
        || settings.dotenv_override
        || settings.dotenv_required
        || !settings.dotenv_filename.is_empty()
        || !settings.dotenv_path.is_empty()
        || !settings.dotenv_command.is_empty()
}

/// The value's texts.
fn texts(alloc: Global, value: &Value) -> Result<Sequence<Text>, AllocError>
    ensures { IfOk result (λ texts. texts ≡ value.now) }
{
    let mut texts = Sequence::new(alloc);
    for element in value {
        texts.push(Text::from_text(alloc, element.as_str())?)?;
    }
    Ok(texts)
}

/// Which files of variables are read, and how.
fn request(alloc: Global, context: &ExecutionContext) -> Result<DotenvRequest, AllocError>
    ensures { IfOk result (λ request. request ≡ request_in context.now.config.now context.now.module.now) }
{
    let settings = context.module.settings;
    let folder = context.working_directory(alloc)?;
    Ok(DotenvRequest {
        folder: Text::from_string(folder),
        load: settings.dotenv_load,
        filenames: texts(alloc, &settings.dotenv_filename)?,
        paths: texts(alloc, &settings.dotenv_path)?,
        command: texts(alloc, &settings.dotenv_command)?,
        overriding: settings.dotenv_override,
        required: settings.dotenv_required,
    })
}

/// The pairs by their names; of equal names the last counts.
fn by_name(alloc: Global, pairs: Sequence<Pair>) -> Result<BTreeMap<String, String>, AllocError>
    ensures { IfOk result (λ values. map variable values.entries ≡ by.by_name pairs) }
{
    let mut values = BTreeMap::new(alloc);
    for pair in pairs.into_vec() {
        values.insert(pair.name.into_string(), pair.value.into_string())?;
    }
    Ok(values)
}

/// The host's answer, or its fault.
fn told<'src>(
    asked: Result<Sequence<Pair>, HostFault>,
    is_exhausted: bool,
) -> Result<Sequence<Pair>, OpeningFault<'src>>
    ensures open { is_exhausted ≡ false → result ≡ passed asked }
    ensures exhausted { is_exhausted ≡ true → asked ≡ Err Memory → result ≡ Err OutOfMemory }
{
    match asked {
        Ok(pairs) => Ok(pairs),
        Err(HostFault::Memory) if is_exhausted => Err(OpeningFault::OutOfMemory),
        Err(fault) => Err(OpeningFault::Dotenv(fault)),
    }
}

/// Asks for what the files of variables give.
fn ask_dotenv<'src, H: RunHost + Drop>(
    host: &mut Recorded<H>,
    request: &DotenvRequest,
) -> Result<Sequence<Pair>, OpeningFault<'src>>
    ensures asks { AsksRequests H.goes host.old host.new }
    ensures requests { IfOpened (λ pairs. pairs) result (Requests (Some request.now) host.old.entries host.new.entries) }
    ensures begun { MayBeTold (Some request.now) host.old.entries host.new.entries }
{
    let asked = host.dotenv(request);
    told(asked, host.exhausted())
}

/// What the module's files of variables give: nothing where it asks for none.
fn read_dotenv<'src, H: RunHost + Drop>(
    alloc: Global,
    host: &mut Recorded<H>,
    context: &ExecutionContext<'_, 'src>,
) -> Result<BTreeMap<String, String>, OpeningFault<'src>>
    ensures asks { AsksRequests H.goes host.old host.new }
    ensures told { IfOpened (λ values. map variable values.entries) result (IsTold (request_if_any context.now.config.now context.now.module.now) host.old.entries host.new.entries) }
    ensures begun { MayBeTold (request_if_any context.now.config.now context.now.module.now) host.old.entries host.new.entries }
{
    if !asks(context.module.settings) {
        return Ok(BTreeMap::new(alloc));
    }
    let request = request(alloc, context)?;
    let pairs = ask_dotenv(host, &request)?;
    Ok(by_name(alloc, pairs)?)
}

impl<'a, 'src> Opening<'a, 'src> {
    /// In what the module's variables are evaluated.
    fn context(
        &self,
        module: &'a ModuleView<'a, 'src>,
        dotenv: &'a BTreeMap<String, String>,
    ) -> ExecutionContext<'a, 'src>
        ensures context { (pairs : List Pair) → map variable dotenv.now.entries ≡ by.by_name pairs → IsContextOf self.now module.now pairs result }
        ensures config { result.config.now ≡ self.now.config.now }
        ensures view { result.module.now ≡ module.now }
    {
        ExecutionContext {
            config: self.config,
            dotenv,
            module,
            overrides: self.overrides,
            scope: self.constants,
            root: self.root,
        }
    }
}

/// What the module's files of variables give; nothing is given before.
fn dotenv_of<'x, 'src, H: RunHost + Drop>(
    alloc: Global,
    host: &mut Recorded<H>,
    opening: &Opening<'x, 'src>,
    module: &'x ModuleView<'x, 'src>,
    none: &'x BTreeMap<String, String>,
) -> Result<BTreeMap<String, String>, OpeningFault<'src>>
    ensures asks { AsksRequests H.goes host.old host.new }
    ensures told { IfOpened (λ values. map variable values.entries) result (IsTold (request_if_any opening.now.config.now module.now) host.old.entries host.new.entries) }
    ensures begun { MayBeTold (request_if_any opening.now.config.now module.now) host.old.entries host.new.entries }
{
    let context = opening.context(module, none);
    read_dotenv(alloc, host, &context)
}

/// Evaluates the module's variables in the frame.
fn fill<'x, 'src, H: RunHost + Drop>(
    alloc: Global,
    host: &mut Recorded<H>,
    opening: &Opening<'x, 'src>,
    module: &'x ModuleView<'x, 'src>,
    dotenv: &'x BTreeMap<String, String>,
    scope: &mut Scope<'_, 'src>,
) -> Result<(), OpeningFault<'src>>
    ensures asks { AsksQuestions H.goes host.old host.new }
    ensures around { scope.new.outer ≡ scope.old.outer }
    ensures fills { (pairs : List Pair) → map variable dotenv.now.entries ≡ by.by_name pairs → scope.old.own ≡ [] → scope.old.outer ≡ opening.now.constants.now.own ∷ opening.now.constants.now.outer → IfOpened (λ done. scope.new.own) result (IsFilled opening.now module.now pairs host.old.entries host.new.entries) }
    ensures begun { (pairs : List Pair) → map variable dotenv.now.entries ≡ by.by_name pairs → scope.old.own ≡ [] → scope.old.outer ≡ opening.now.constants.now.own ∷ opening.now.constants.now.outer → FillsBegin opening.now module.now pairs host.old.entries host.new.entries }
{
    let context = opening.context(module, dotenv);
    let wanted = if module.settings.lazy {
        opening.wanted
    } else {
        None
    };
    match open_assignments(alloc, host, &context, scope, wanted) {
        Ok(()) => Ok(()),
        Err(error) => Err(OpeningFault::from(error)),
    }
}

/// Opens the module: asks for its pairs, then evaluates its variables.
fn open_module<'c, 'src, H: RunHost + Drop>(
    alloc: Global,
    host: &mut Recorded<H>,
    opening: &Opening<'c, 'src>,
    place: usize,
    module: &ModuleView<'_, 'src>,
) -> Result<Opened<'c, 'src>, OpeningFault<'src>>
    ensures asks { AsksRequests H.goes host.old host.new }
    ensures opens { IfOpened opened_row result (OpensOne opening.now place module.now host.old.entries host.new.entries) }
    ensures begun { OneBegins opening.now place module.now host.old.entries host.new.entries }
{
    let none = BTreeMap::new(alloc);
    let dotenv = dotenv_of(alloc, host, &*opening, &*module, &none)?;
    let mut scope = opening.constants.child(alloc)?;
    match fill(alloc, host, &*opening, &*module, &dotenv, &mut scope) {
        Ok(()) => Ok(Opened {
            module: place,
            dotenv,
            scope,
        }),
        Err(fault) => {
            drop(scope);
            drop(dotenv);
            Err(fault)
        }
    }
}

/// Opens the module at the place, if there is one, after those that are open.
fn push_opened<'c, 'src, H: RunHost + Drop>(
    alloc: Global,
    host: &mut Recorded<H>,
    opening: &Opening<'c, 'src>,
    modules: &[ModuleView<'_, 'src>],
    place: usize,
    opened: &mut Vec<Opened<'c, 'src>>,
) -> Result<(), OpeningFault<'src>>
    ensures asks { AsksRequests H.goes host.old host.new }
    ensures opens { IfOpened (λ done. opened_rows opened.new.items) result (OpensAfter opening.now modules.now place (opened_rows opened.old.items) host.old.entries host.new.entries) }
    ensures begun { AllBegin opening.now modules.now (place ∷ []) host.old.entries host.new.entries }
{
    if place >= modules.len() {
        return Ok(());
    }
    opened.push(open_module(alloc, host, opening, place, &modules[place])?)?;
    Ok(())
}

/// Opens the modules at these places one after another: each asks for the pairs of its files of
/// variables, where its settings say so, and then its variables are evaluated, each after those
/// that it reads. Refused as `Dotenv` or `Opening` at the first fault.
pub fn open_modules<'c, 'src, H: RunHost + Drop>(
    alloc: Global,
    host: &mut Recorded<H>,
    opening: &Opening<'c, 'src>,
    modules: &[ModuleView<'_, 'src>],
    order: &[usize],
) -> Result<Vec<Opened<'c, 'src>>, OpeningFault<'src>>
    ensures asks { AsksRequests H.goes host.old host.new }
    ensures opens { IfOpened (λ all. opened_rows all.items) result (OpensAll opening.now modules.now order.now host.old.entries host.new.entries) }
    // However it ends, what was recorded is the beginning of what the modules' openings record.
    ensures begun { AllBegin opening.now modules.now order.now host.old.entries host.new.entries }
{
    let mut opened = Vec::new(alloc);
    for place in order {
        push_opened(alloc, host, opening, modules, *place, &mut opened)?;
    }
    Ok(opened)
}
