//! Texts that are written or answered.
ghost use Rattle.std.specs.Prelude.{◌≡◌, ◌++◌, ◌+◌, ◌<◌, ◌^◌, IfErr, IfOk, Ok, OnErr, OnOk, slice_get};
ghost use Rattle.std.specs.String.{string_bytes};
ghost use Rattle.just_host.specs.Out.{IsPartOf};
ghost use Rattle.justfile_analyzer.specs.Justfiles.{place_of};
ghost use Rattle.justfile_analyzer.specs.Listings.{listing};
ghost use Rattle.just_run.specs.Early.{IsLate, IsOfNoRule};
ghost use Rattle.just_run.specs.Texts.{IsFormatted, IsReadAgain, answered_text, dumped_text, file_place, formatted_text, performed_outcome, performed_text, printed_text, root_file};
ghost use Rattle.just_run.specs.Writes.{IsKept, IsNoWrite, WriteFails, Writes};
ghost use Rattle.just_run.specs.declared.outcome.Outcome.TheVariants as outcomes;
ghost use Rattle.run_tasks.specs.declared.request.RootText.TheVariants as texts;
ghost use Rattle.run_tasks.specs.declared.task.Performed.TheVariants as tasks;

use crate::fault::Fault;
use crate::outcome::Outcome;
use just_host::{Out, WriteFailed, write_all};
use just_modules::{Compilation, ModuleNode};
use justfile_analyzer::Justfile;
use justfile_syntax::{Ast, Os, Text, print};
use laws_printing::law::formatted::formatted_texts_say_the_same;
use run_tasks::{Performed, RootText};
use std::alloc::{AllocError, Global};

/// Bodies of files that set no indentation.
const FOUR_SPACES: &str = "    ";

/// Writes the text, or a beginning of it where a write fails.
pub(crate) fn write_text<O: Out>(out: &mut O, text: &str) -> Result<(), WriteFailed>
    ensures whole { OnOk result (O.written out.new ≡ O.written out.old ++ text.now) }
    ensures part { OnErr result (IsPartOf (O.written out.old) text.now (O.written out.new)) }
    ensures quiet { OnOk result (O.failed out.new ≡ O.failed out.old) }
    ensures told { OnErr result (O.failed out.old + 1 < 2 ^ 64 → O.failed out.new ≡ O.failed out.old + 1) }
{
    if out.failures() == u64::MAX {
        return Err(WriteFailed);
    }
    write_all(out, text.as_bytes())
}

/// The file's text as it is formatted: in its own indentation, else with four spaces.
fn formatted(alloc: Global, ast: &Ast, os: Os) -> Result<String, AllocError>
    ensures { IfOk result (λ text. string_bytes text ≡ formatted_text os ast.now.items.items) }
{
    match ast.indentation(os) {
        Some(indentation) => print(alloc, ast, indentation.as_str()),
        None => print(alloc, ast, FOUR_SPACES),
    }
}

/// The file's text as it is formatted; none where it can't be printed so that it is read as it was.
fn printed(alloc: Global, ast: &Ast, os: Os) -> Result<Option<Text>, AllocError>
    ensures { IfOk result (λ text. text ≡ printed_text os ast.now.items.items) }
{
    if !ast.printable() {
        return Ok(None);
    }
    let text = formatted(alloc, ast, os)?;
    Ok(Some(Text::from_string(text)))
}

/// The file's path and its text as it is formatted; refused as `NotPrintable` where there is no text.
fn format<'src>(alloc: Global, path: &str, text: Option<Text>) -> Result<Outcome, Fault<'src>>
    ensures formatted { IsFormatted path.now text result }
    ensures no_write { IfErr result IsNoWrite }
    ensures unruled { IfErr result IsOfNoRule }
{
    let path = Text::from_text(alloc, path)?;
    match text {
        Some(text) => Ok(Outcome::Formatted { path, text }),
        None => Err(Fault::NotPrintable(path)),
    }
}

/// Writes what the task gave.
pub(crate) fn write_performed<'src, O: Out>(
    performed: Performed,
    out: &mut O,
) -> Result<Outcome, Fault<'src>>
    ensures kept { IfErr result (λ fault. IsKept (O.written out.old) fault (O.written out.new)) }
    ensures late { IfErr result IsLate }
    ensures ran { performed ≡ tasks.Ran → result ≡ Ok outcomes.Ran }
    ensures wrote { Writes (record { written = O.written out.old; failed = O.failed out.old }) (performed_text performed) (performed_outcome performed) result (record { written = O.written out.new; failed = O.failed out.new }) }
    ensures unfailed { WriteFails (O.failed out.old) result (O.failed out.new) }
{
    match performed {
        Performed::Ran => Ok(Outcome::Ran),
        Performed::Evaluated(text) => {
            write_text(out, text.as_str())?;
            Ok(Outcome::Evaluated)
        }
    }
}

/// The place of the root file among all files.
fn root_place<'src>(modules: &[ModuleNode<'src>]) -> usize
    ensures { result ≡ file_place (slice_get modules.now 0) }
{
    if modules.is_empty() {
        return 0;
    }
    modules[0].first_file
}

/// The root file's text as it is formatted.
fn root_text<'src>(
    alloc: Global,
    compilation: &Compilation<'src>,
    os: Os,
) -> Result<String, AllocError>
    ensures { IfOk result (λ text. string_bytes text ≡ dumped_text os (root_file compilation.now)) }
{
    let place = root_place(compilation.modules.as_slice());
    let files = compilation.files.as_slice();
    if place >= files.len() {
        return Ok(String::new(alloc));
    }
    formatted(alloc, &files[place].ast, os)
}

/// The same, where it can be printed so that it is read as it was.
fn root_printed<'src>(
    alloc: Global,
    compilation: &Compilation<'src>,
    os: Os,
) -> Result<Option<Text>, AllocError>
    ensures { IfOk result (λ text. text ≡ answered_text os (root_file compilation.now)) }
{
    let place = root_place(compilation.modules.as_slice());
    let files = compilation.files.as_slice();
    if place >= files.len() {
        return Ok(None);
    }
    printed(alloc, &files[place].ast, os)
}

/// The list of the module's recipes.
fn listing_of<'src, 'a>(
    alloc: Global,
    module: &mut Justfile<'src, 'a>,
) -> Result<String, AllocError>
    ensures { IfOk result (λ text. string_bytes text ≡ listing «module».old.compilation.now (place_of «module».old)) }
{
    module.listing(alloc)
}

/// The list of the root's recipes.
fn root_listing<'src>(alloc: Global, compilation: &Compilation<'src>) -> Result<String, AllocError>
    ensures { IfOk result (λ text. string_bytes text ≡ listing compilation.now 0) }
{
    let mut root = Justfile::from_resolved(compilation);
    listing_of(alloc, &mut root)
}

/// Writes the text; what is then said is the outcome.
fn write_told<'src, O: Out>(
    out: &mut O,
    text: String,
    outcome: Outcome,
) -> Result<Outcome, Fault<'src>>
    ensures kept { IfErr result (λ fault. IsKept (O.written out.old) fault (O.written out.new)) }
    ensures wrote { Writes (record { written = O.written out.old; failed = O.failed out.old }) (string_bytes text) outcome result (record { written = O.written out.new; failed = O.failed out.new }) }
    ensures unfailed { WriteFails (O.failed out.old) result (O.failed out.new) }
    ensures unruled { IfErr result IsOfNoRule }
{
    write_text(out, text.as_str())?;
    Ok(outcome)
}

/// Writes the list of recipes.
fn list<'src, O: Out>(
    alloc: Global,
    compilation: &Compilation<'src>,
    out: &mut O,
) -> Result<Outcome, Fault<'src>>
    ensures kept { IfErr result (λ fault. IsKept (O.written out.old) fault (O.written out.new)) }
    ensures wrote { Writes (record { written = O.written out.old; failed = O.failed out.old }) (listing compilation.now 0) outcomes.Listed result (record { written = O.written out.new; failed = O.failed out.new }) }
    ensures unfailed { WriteFails (O.failed out.old) result (O.failed out.new) }
    ensures unruled { IfErr result IsOfNoRule }
{
    let text = root_listing(alloc, compilation)?;
    write_told(out, text, Outcome::Listed)
}

/// Writes the root file.
fn dump<'src, O: Out>(
    alloc: Global,
    compilation: &Compilation<'src>,
    os: Os,
    out: &mut O,
) -> Result<Outcome, Fault<'src>>
    ensures kept { IfErr result (λ fault. IsKept (O.written out.old) fault (O.written out.new)) }
    ensures wrote { Writes (record { written = O.written out.old; failed = O.failed out.old }) (dumped_text os (root_file compilation.now)) outcomes.Dumped result (record { written = O.written out.new; failed = O.failed out.new }) }
    ensures unfailed { WriteFails (O.failed out.old) result (O.failed out.new) }
    ensures unruled { IfErr result IsOfNoRule }
{
    let text = root_text(alloc, compilation, os)?;
    write_told(out, text, Outcome::Dumped)
}

/// Answers the root file, whose path this is.
fn answer<'src>(
    alloc: Global,
    compilation: &Compilation<'src>,
    path: &str,
    os: Os,
) -> Result<Outcome, Fault<'src>>
    ensures formatted { IsFormatted path.now (answered_text os (root_file compilation.now)) result }
    ensures again { IsReadAgain (root_file compilation.now) result }
    ensures no_write { IfErr result IsNoWrite }
    ensures unruled { IfErr result IsOfNoRule }
{
    formatted_texts_say_the_same();
    let text = root_printed(alloc, compilation, os)?;
    format(alloc, path, text)
}

/// Writes or answers the text of the root, whose path this is.
pub(crate) fn tell<'src, O: Out>(
    alloc: Global,
    compilation: &Compilation<'src>,
    path: &str,
    os: Os,
    text: RootText,
    out: &mut O,
) -> Result<Outcome, Fault<'src>>
    ensures kept { IfErr result (λ fault. IsKept (O.written out.old) fault (O.written out.new)) }
    ensures listed { text ≡ texts.List → Writes (record { written = O.written out.old; failed = O.failed out.old }) (listing compilation.now 0) outcomes.Listed result (record { written = O.written out.new; failed = O.failed out.new }) }
    ensures dumped { text ≡ texts.Dump → Writes (record { written = O.written out.old; failed = O.failed out.old }) (dumped_text os (root_file compilation.now)) outcomes.Dumped result (record { written = O.written out.new; failed = O.failed out.new }) }
    ensures formatted { text ≡ texts.Format → IsFormatted path.now (answered_text os (root_file compilation.now)) result }
    ensures unwritten { text ≡ texts.Format → O.written out.new ≡ O.written out.old }
    ensures again { text ≡ texts.Format → IsReadAgain (root_file compilation.now) result }
    ensures unfailed { WriteFails (O.failed out.old) result (O.failed out.new) }
    ensures unruled { IfErr result IsOfNoRule }
{
    match text {
        RootText::List => list(alloc, compilation, out),
        RootText::Dump => dump(alloc, compilation, os, out),
        RootText::Format => answer(alloc, compilation, path, os),
    }
}
