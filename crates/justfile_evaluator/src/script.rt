//! Bodies that are one script.
ghost use Rattle.std.specs.Prelude.{◌≡◌, ◌∷◌, IfErr, IfOk, [], drop, false, map, option_map, true};
ghost use Rattle.std.specs.Str.{chars, encode_utf8_all, trim};
ghost use Rattle.std.specs.String.{string_bytes};
ghost use Rattle.just_text.specs.Tokens.{lexeme};
ghost use Rattle.tree_items.specs.Lines.{no_sigils};
ghost use Rattle.just_host.specs.Kinds.{AsksQuestions, AsksWork};
ghost use Rattle.just_host.specs.Follows.{Follows};
ghost use Rattle.just_host.specs.declared.entry.Entry.TheVariants.{Show};
ghost use Rattle.evaluate_context.specs.Refusals.{seen, seen_as};
ghost use Rattle.evaluate_expressions.specs.Situations.{reading_at, stage_at};
ghost use Rattle.meaning_dialogues.specs.Dialogue.{Evaluates};
ghost use Rattle.meaning_dialogues.specs.Evaluation.{dialogues, interpreter_dialogue};
ghost use Rattle.meaning_dialogues.specs.Terms.{terms_of};
ghost use Rattle.meaning_evaluation.specs.Stages.Lines.{line_dialogue, piece_of};
ghost use Rattle.meaning_runs.specs.Failures.{next_by};
ghost use Rattle.meaning_evaluation.specs.Bodies as spec;
ghost use Rattle.meaning_evaluation.specs.Bodies.{front, in_lines, rear, with_rest};
ghost use Rattle.meaning_evaluation.specs.Calling.{without_next};
ghost use Rattle.laws_evaluation.specs.Bodies.Marked.{BeginsAs, BeginsShebang};
ghost use Rattle.laws_evaluation.specs.Bodies.Performing.{Performs};
ghost use Rattle.justfile_evaluator.specs.Bodies.{IsBodyOf, NamedBody, script_of};
ghost use Rattle.justfile_evaluator.specs.Ended.{SaysSo, ended};
ghost use Rattle.justfile_evaluator.specs.Scripts as scripts;
ghost use Rattle.justfile_evaluator.specs.Scripts.{GivesWords, IsScriptOf, handed_of, plain_words, positional_in, script_job_in, set_interpreter, shows_script_in, texts_of, words_of};
ghost use Rattle.justfile_evaluator.specs.Sites as sites;
ghost use Rattle.justfile_evaluator.specs.Sites.{extension_in, folder_in};
ghost use Rattle.justfile_evaluator.specs.declared.site.Site as declared;

use crate::fault::RunFault;
use crate::line::line_text;
use crate::site::{Site, extension_of, folder_of, judge};
use evaluate_context::settings::interpreter_words;
use evaluate_context::{Error, JobEnvironment};
use evaluate_expressions::Evaluator;
use just_host::{Recorded, RunHost, ScriptJob, Status};
use just_text::{Name, Sequence, Text};
use std::alloc::{AllocError, Global};
use tree_attributes::{Attribute, AttributeKind, AttributeSet, Interpreter};
use tree_expressions::Expression;
use tree_items::{Line, Sigils};

/// The marks of a script: none.
const NO_SIGILS: Sigils = Sigils {
    guard: false,
    infallible: false,
    quiet: false,
};

/// The text of a line.
fn script_line<'src, H: RunHost + Drop>(
    alloc: Global,
    host: &mut Recorded<H>,
    evaluator: &Evaluator<'_, 'src>,
    line: &Line<'src>,
) -> Result<Text, Error<'src>>
    ensures asks { AsksQuestions H.goes host.old host.new }
    ensures evaluates { Evaluates (reading_at evaluator.now) (line_dialogue (stage_at evaluator.now) false [] (map piece_of line.now.fragments.items)) host.old.entries host.new.entries (seen result) }
{
    let text = line_text(alloc, host, evaluator, line, false)?;
    Ok(Text::from_string(text))
}

/// The texts of all lines.
fn script_lines<'src, H: RunHost + Drop>(
    alloc: Global,
    host: &mut Recorded<H>,
    evaluator: &Evaluator<'_, 'src>,
    body: &[Line<'src>],
) -> Result<Vec<Text>, Error<'src>>
    ensures asks { AsksQuestions H.goes host.old host.new }
    ensures evaluates { (b : NamedBody) (site : declared.Site) → IsBodyOf b site evaluator.now body.now → Evaluates b.reading (texts_of b) host.old.entries host.new.entries (seen_as (λ texts. texts.items) result) }
{
    let mut lines = Vec::new(alloc);
    for line in body {
        let text = script_line(alloc, host, evaluator, line)?;
        lines.push(text)?;
    }
    Ok(lines)
}

/// The lines with a newline between two.
fn joined(alloc: Global, lines: &[Text]) -> Result<String, AllocError>
    ensures { IfOk result (λ text. string_bytes text ≡ in_lines lines.now) }
{
    let Some((first, others)) = lines.split_first() else {
        return Ok(String::new(alloc));
    };
    let mut text = String::from_str(alloc, first.as_str())?;
    for line in others {
        text.push('\n')?;
        text.push_str(line.as_str())?;
    }
    Ok(text)
}

/// What a first line `#!` names, without white space around it.
fn named_program(line: &str) -> &str
    ensures { BeginsShebang line.now → result.now ≡ trim (drop 2 line.now) }
{
    match line.strip_prefix("#!") {
        Some(rest) => rest.trim(),
        None => line.trim(),
    }
}

/// The text up to its first white space, and what stands after it.
fn halves(text: &str) -> (&str, &str)
    ensures word { result.0.now ≡ encode_utf8_all (front (chars text.now)) }
    ensures rest { trim result.1.now ≡ trim (encode_utf8_all (rear (chars text.now))) }
{
    match text.split_once(|c: char| c.is_whitespace()) {
        Some(parts) => parts,
        None => (text, ""),
    }
}

/// The word, and after it the rest if there is one.
fn word_and_rest(alloc: Global, word: &str, rest: &str) -> Result<Sequence<Text>, AllocError>
    ensures { IfOk result (λ words. words ≡ word.now ∷ with_rest rest.now) }
{
    let mut words = Sequence::new(alloc);
    words.push(Text::from_text(alloc, word)?)?;
    if rest.is_empty() {
        return Ok(words);
    }
    words.push(Text::from_text(alloc, rest)?)?;
    Ok(words)
}

/// The interpreter that a first line `#!` names: its first word, and the rest as one word if there
/// is one.
fn shebang_words(alloc: Global, line: &str) -> Result<Sequence<Text>, AllocError>
    ensures { BeginsShebang line.now → IfOk result (λ words. words ≡ spec.shebang_words line.now) }
{
    let (word, rest) = halves(named_program(line));
    word_and_rest(alloc, word, rest.trim())
}

/// The words of the interpreter that stands in the attribute at this name.
fn written_words<'src, H: RunHost + Drop>(
    alloc: Global,
    host: &mut Recorded<H>,
    evaluator: &Evaluator<'_, 'src>,
    interpreter: &Interpreter<Expression<'src>>,
    name: Name<'src>,
) -> Result<Sequence<Text>, Error<'src>>
    ensures asks { AsksQuestions H.goes host.old host.new }
    ensures evaluates { GivesWords (reading_at evaluator.now) (interpreter_dialogue (lexeme name.entry.token) (dialogues (stage_at evaluator.now) (terms_of (interpreter.now.command ∷ interpreter.now.arguments.items)))) host.old.entries host.new.entries result }
{
    let words = evaluator.evaluate_interpreter(alloc, host, interpreter, name)?;
    Ok(interpreter_words(alloc, &words)?)
}

/// The interpreter that the attribute names.
fn interpreter_at<'a, 'src>(
    attribute: &'a Attribute<'src>,
) -> Option<&'a Interpreter<Expression<'src>>>
    ensures { option_map (λ interpreter. interpreter.now) result ≡ sites.interpreter_at (Some attribute.now) }
{
    match attribute {
        Attribute::Script(Some(interpreter)) => Some(interpreter),
        _ => None,
    }
}

/// The interpreter that an attribute names, if one does.
fn interpreter_in<'a, 'src>(
    attributes: &'a AttributeSet<'src>,
) -> Option<&'a Interpreter<Expression<'src>>>
    ensures { option_map (λ interpreter. interpreter.now) result ≡ sites.interpreter_in attributes.now }
{
    match attributes.get(AttributeKind::Script) {
        Some(attribute) => interpreter_at(attribute),
        None => None,
    }
}

/// Where the attribute `script` is written, else the recipe's name.
fn script_name<'src>(attributes: &AttributeSet<'src>, recipe: Name<'src>) -> Name<'src>
    ensures { result ≡ scripts.script_name attributes.now recipe.entry }
{
    match attributes.name(AttributeKind::Script) {
        Some(name) => name,
        None => recipe,
    }
}

/// The words where no attribute names an interpreter: those of the first line where the body begins
/// `#!`, else those of the settings.
fn default_words(alloc: Global, site: &Site, lines: &[Text]) -> Result<Sequence<Text>, AllocError>
    ensures { BeginsAs site.now.manner.has_shebang lines.now → IfOk result (λ words. words ≡ plain_words site.now.manner.has_shebang (set_interpreter site.now) lines.now) }
{
    if !site.manner.has_shebang {
        return site.context.module.settings.interpreter(alloc);
    }
    match lines.split_first() {
        Some((first, _others)) => shebang_words(alloc, first.as_str()),
        None => site.context.module.settings.interpreter(alloc),
    }
}

/// The words that the script's path stands after.
fn interpreter<'src, H: RunHost + Drop>(
    alloc: Global,
    host: &mut Recorded<H>,
    evaluator: &Evaluator<'_, 'src>,
    site: &Site<'_, 'src>,
    lines: &[Text],
) -> Result<Sequence<Text>, Error<'src>>
    ensures asks { AsksQuestions H.goes host.old host.new }
    ensures evaluates { (b : NamedBody) → IsScriptOf b site.now evaluator.now lines.now → Evaluates b.reading (words_of b lines.now) host.old.entries host.new.entries (seen result) }
{
    match interpreter_in(site.attributes) {
        Some(interpreter) => {
            let name = script_name(site.attributes, site.name);
            written_words(alloc, host, evaluator, interpreter, name)
        }
        None => Ok(default_words(alloc, site, lines)?),
    }
}

/// The words, copied.
fn copied(alloc: Global, words: &[String]) -> Result<Sequence<Text>, AllocError>
    ensures { IfOk result (λ copies. copies ≡ map string_bytes words.now) }
{
    let mut copies = Sequence::new(alloc);
    for word in words {
        copies.push(Text::from_text(alloc, word.as_str())?)?;
    }
    Ok(copies)
}

/// The words after the script's path.
fn script_words(alloc: Global, site: &Site) -> Result<Sequence<Text>, AllocError>
    ensures { IfOk result (λ words. words ≡ positional_in site.now) }
{
    if site.manner.passes_words {
        return copied(alloc, site.positional);
    }
    Ok(Sequence::new(alloc))
}

/// What a script is given beside its text and its environment.
#[derive(Drop)]
struct ScriptPlace {
    positional: Sequence<Text>,
    extension: Option<Text>,
    folder: Option<String>,
}

/// What a script is given there beside its text and its environment.
fn script_place(alloc: Global, site: &Site) -> Result<ScriptPlace, AllocError>
    ensures positional { IfOk result (λ place. place.positional ≡ positional_in site.now) }
    ensures extension { IfOk result (λ place. place.extension ≡ extension_in site.now.attributes.now) }
    ensures folder { IfOk result (λ place. option_map string_bytes place.folder ≡ folder_in site.now.context.now site.now.attributes.now) }
{
    let positional = script_words(alloc, site)?;
    let extension = extension_of(alloc, site.attributes)?;
    let folder = folder_of(alloc, site.context, site.attributes)?;
    Ok(ScriptPlace {
        positional,
        extension,
        folder,
    })
}

/// The text of a folder, if there is one.
fn folder_text(folder: Option<String>) -> Option<Text>
    ensures { result ≡ option_map string_bytes folder }
{
    match folder {
        Some(folder) => Some(Text::from_string(folder)),
        None => None,
    }
}

/// What is handed over.
fn job(
    alloc: Global,
    site: &Site,
    interpreter: Sequence<Text>,
    lines: Vec<Text>,
) -> Result<ScriptJob, AllocError>
    ensures { IfOk result (λ job. job ≡ script_job_in site.now interpreter lines.items) }
{
    let place = script_place(alloc, site)?;
    let environment = site.context.job_environment(alloc, site.env, site.scope)?;
    let ScriptPlace {
        positional,
        extension,
        folder,
    } = place;
    let JobEnvironment { pairs, removed } = environment;
    Ok(ScriptJob {
        interpreter,
        lines: Sequence::from_vec(lines),
        positional,
        extension,
        pairs,
        removed,
        folder: folder_text(folder),
    })
}

/// Whether the script is shown.
fn shows_script(site: &Site) -> bool
    ensures { result ≡ shows_script_in site.now }
{
    let config = site.context.config;
    config.dry_run || config.loquacious || site.manner.is_quiet
}

/// Shows the script where it is to be shown.
fn show<H: RunHost + Drop>(
    alloc: Global,
    host: &mut Recorded<H>,
    site: &Site,
    lines: &[Text],
) -> Result<(), AllocError>
    ensures asks { AsksWork site.now.context.now.config.now.dry_run H.goes host.old host.new }
    ensures shown { shows_script_in site.now ≡ true → IfOk result (λ _. Follows H.goes host.old (Show (in_lines lines.now) ∷ []) host.new) }
    ensures hidden { shows_script_in site.now ≡ false → host.new ≡ host.old }
    ensures unshown { IfErr result (λ _. host.new ≡ host.old) }
{
    if !shows_script(site) {
        return Ok(());
    }
    let text = joined(alloc, lines)?;
    host.show(text.as_str());
    Ok(())
}

/// How a script that ended so ends its recipe's body.
fn end<'src>(site: &Site<'_, 'src>, status: Status) -> Result<(), RunFault<'src>>
    ensures ended { ended result ≡ without_next (next_by (lexeme site.now.name.token) no_sigils status) }
    ensures said { IfErr result (SaysSo site.now.name site.now.manner.is_silent) }
{
    match judge(site.name, status, NO_SIGILS, site.manner.is_silent) {
        Ok(_goes_on) => Ok(()),
        Err(fault) => Err(fault),
    }
}

/// Evaluates the whole body, shows it and hands it over.
pub(crate) fn run_script<'src, H: RunHost + Drop>(
    alloc: Global,
    host: &mut Recorded<H>,
    evaluator: &Evaluator<'_, 'src>,
    site: &Site<'_, 'src>,
    body: &[Line<'src>],
) -> Result<(), RunFault<'src>>
    ensures asks { AsksWork site.now.context.now.config.now.dry_run H.goes host.old host.new }
    ensures performs { (b : NamedBody) → IsBodyOf b site.now evaluator.now body.now → Performs b.reading (script_of b) host.old host.new (ended result) }
    ensures said { IfErr result (SaysSo site.now.name site.now.manner.is_silent) }
{
    let lines = script_lines(alloc, host, evaluator, body)?;
    show(alloc, host, site, lines.as_slice())?;
    if site.context.config.dry_run {
        return Ok(());
    }
    hand_over(alloc, host, evaluator, site, lines)
}

/// Hands the script over.
fn hand_over<'src, H: RunHost + Drop>(
    alloc: Global,
    host: &mut Recorded<H>,
    evaluator: &Evaluator<'_, 'src>,
    site: &Site<'_, 'src>,
    lines: Vec<Text>,
) -> Result<(), RunFault<'src>>
    ensures asks { AsksWork false H.goes host.old host.new }
    ensures performs { (b : NamedBody) → IsScriptOf b site.now evaluator.now lines.items → Performs b.reading (handed_of b false lines.items) host.old host.new (ended result) }
    ensures said { IfErr result (SaysSo site.now.name site.now.manner.is_silent) }
{
    let words = interpreter(alloc, host, evaluator, site, lines.as_slice())?;
    let job = job(alloc, site, words, lines)?;
    let status = host.script(&job);
    end(site, status)
}
