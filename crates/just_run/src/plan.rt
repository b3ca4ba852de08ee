//! What a run would hand over, as it is written.
ghost use Rattle.std.specs.Prelude.{◌≡◌, ◌⊎◌, ℕ, [], Err, false, IfErr, IfSome, IsSome, List, OnOk, true};
ghost use Rattle.std.specs.String.{string_bytes};
ghost use Rattle.just_host.specs.Follows.{Follows, questions};
ghost use Rattle.just_host.specs.declared.entry.Entry.{Entry};
ghost use Rattle.run_plan.specs.Plans.{plan_text};
ghost use Rattle.run_tasks.specs.Prepared.Begun.{BeginsTask};
ghost use Rattle.run_tasks.specs.Prepared.Performed.{PerformsTask};
ghost use Rattle.run_tasks.specs.declared.task.Task.TheVariants as tasks;
ghost use Rattle.just_run.specs.Named.{left_of};
ghost use Rattle.just_run.specs.Ran.{PlansTask, WasSent, plan_answer};
ghost use Rattle.just_run.specs.declared.fault.Fault.TheVariants.{OutOfMemory, Write};
ghost use Rattle.just_run.specs.Plans.{IsEnd, IsPlanned, IsSent, IsWrittenPlan};
ghost use Rattle.just_run.specs.Writes.{WriteFails};

use crate::fault::Fault;
use crate::outcome::Outcome;
use crate::texts::write_text;
use analyze_calls::Call;
use just_host::{Config, Out, Recorded, RunHost};
use just_modules::Compilation;
use just_resolve::Analysis;
use run_plan::{Planning, plan_text};
use run_tasks::{Performed, Task, TaskFault, perform_task};
use std::alloc::Global;

/// The text of what was planned; none where memory is or was wanting.
fn text_of<H>(alloc: Global, planned: &Recorded<H>) -> Option<String>
    ensures text { IfSome result (λ text. string_bytes text ≡ plan_text planned.now.entries) }
    ensures sufficed { IfSome result (λ text. planned.now.exhausted ≡ false) }
{
    if planned.exhausted() {
        return None;
    }
    match plan_text(alloc, planned.entries()) {
        Ok(text) => Some(text),
        Err(_) => None,
    }
}

/// What is answered where what was planned ended so.
fn ended<'src>(performed: Result<Performed, TaskFault<'src>>) -> Result<Outcome, Fault<'src>>
    ensures end { IsEnd result }
    ensures told { result ≡ plan_answer performed.entry }
{
    match performed {
        Ok(_) => Ok(Outcome::Planned),
        Err(fault) => Err(Fault::from(fault)),
    }
}

/// Writes the text.
fn send<'src, O: Out>(text: Option<String>, out: &mut O) -> Result<(), Fault<'src>>
    ensures sent { (plan : List ℕ) → IfSome text (λ written. string_bytes written ≡ plan) → IsSent (O.written out.old) plan result (O.written out.new) }
    ensures there { OnOk result (IsSome text) }
    ensures failed { IfErr result (λ fault. (fault ≡ Write) ⊎ (fault ≡ OutOfMemory)) }
    ensures unfailed { WriteFails (O.failed out.old) result (O.failed out.new) }
{
    let Some(text) = text else {
        return Err(Fault::OutOfMemory);
    };
    write_text(out, text.as_str())?;
    Ok(())
}

/// Writes the text, and answers how what was planned ended.
fn write_plan<'src, O: Out>(
    text: Option<String>,
    ended: Result<Outcome, Fault<'src>>,
    out: &mut O,
) -> Result<Outcome, Fault<'src>>
    ensures planned { (plan : List ℕ) → IsEnd ended.entry → IfSome text (λ written. string_bytes written ≡ plan) → IsWrittenPlan (O.written out.old) plan result (O.written out.new) }
    ensures sent { WasSent text ended.entry result }
    ensures unfailed { IsEnd ended.entry → WriteFails (O.failed out.old) result (O.failed out.new) }
{
    let sent = send(text, out);
    sent.and(ended)
}

/// Opens all modules and runs the calls under a host that passes on questions alone, and writes what
/// the run hands over to that host, up to its first failure. The caller's host is asked what is
/// evaluated and for files of variables, and nothing is handed over to it.
pub(crate) fn drive_plan<'src, H: RunHost + Drop, O: Out>(
    alloc: Global,
    compilation: &Compilation<'src>,
    analysis: &Analysis<'src, '_>,
    config: &Config,
    root: &str,
    calls: Vec<Call>,
    host: &mut Recorded<H>,
    out: &mut O,
) -> Result<Outcome, Fault<'src>>
    ensures planned { IsPlanned H.goes host.old (O.written out.old) result host.new (O.written out.new) }
    // What is planned is the run of the calls over what is known of the justfile, and how it ended is answered; however it ended, what was recorded is its beginning.
    ensures ends { PlansTask (left_of host.old (O.written out.old) (O.failed out.old) host.new (O.written out.new) (O.failed out.new)) result (tasks.Run calls) (PerformsTask compilation.now analysis.now config.now root.now (tasks.Run calls) []) (BeginsTask compilation.now analysis.now config.now root.now (tasks.Run calls) []) }
    ensures unfailed { WriteFails (O.failed out.old) result (O.failed out.new) }
{
    let mut planned = Recorded::new(alloc, Planning { caller: host });
    let task = Task::Run(calls);
    let performed = perform_task(
        alloc,
        compilation,
        analysis,
        config,
        root,
        &mut planned,
        task,
    );
    let text = text_of(alloc, &planned);
    let Planning { caller: _caller } = planned.into_host();
    write_plan(text, ended(performed), out)
}
