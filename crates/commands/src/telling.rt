ghost use Rattle.std.specs.Prelude.{◌≡◌, ◌+◌, ◌<◌, ◌^◌, ◌++◌, ℕ, All, List, length, true, IfOk, OnOk};
ghost use Rattle.std.specs.declared.option.Option.{Option as OptionOf};
ghost use Rattle.hs_base.specs.declared.plan.Extension.{Extension};
ghost use Rattle.hs_base.specs.Points.{count};
ghost use Rattle.hs_base.specs.Schedule.{IsBelow};
ghost use Rattle.hs_machine.specs.Run.{Run};
ghost use Rattle.hs_machine.specs.State.{count_at, has_failed};
ghost use Rattle.hs_texts.specs.ClosingText.{device_fault_line, done_line, failed_line};
ghost use Rattle.journal_text.specs.Reasons.{why_text};
ghost use Rattle.simulation_laws.specs.Ended.{Heard};
ghost use Rattle.simulation_laws.specs.Simulated.{all};
ghost use Rattle.sim_run.specs.Runs.{HasFront, IsRunOf, attempts_of};
ghost use Rattle.commands.specs.Runs.{IsClosed, IsSimTold};

use crate::{Outcome, Status};
use answer_lines::{push_budget, push_no_plan};
use exec_core::Exec;
use hs_base::{Bound, Memory};
use hs_machine::Phase;
use hs_texts::Text;
use journal_text::write_why;
use plan_check::CheckedPlan;
use run_reasons::why_failed;
use sim_run::{Flown, Planned};
use std::alloc::Global;

/// Adds the lines of the bounds that force the bound by which a run failed, and that it failed.
fn push_why(
    alloc: Global,
    text: &mut Text,
    plan: &CheckedPlan,
    chain: &[Bound],
) -> Result<Status, Memory>
    requires few { count plan.now.plan.extensions < 2 ^ 32 }
    requires points { All (IsBelow (count plan.now.plan.extensions)) chain.now }
    ensures lines { OnOk result (text.new ≡ text.old ++ why_text plan.now.mission plan.now.plan.extensions chain.now ++ failed_line) }
    ensures status { IfOk result (λ s. s ≡ Status.PlanFailed) }
{
    let why = write_why(alloc, plan.mission(), plan.plan(), chain)?;
    text.push_bytes(why.as_bytes())?;
    text.push_bytes(b"failed\n")?;
    Ok(Status::PlanFailed)
}

/// Adds the line that a device failed.
fn push_fault(text: &mut Text) -> Result<Status, Memory>
    ensures line { OnOk result (text.new ≡ text.old ++ device_fault_line) }
    ensures status { IfOk result (λ s. s ≡ Status.DeviceFault) }
{
    text.push_bytes(b"device fault\n")?;
    Ok(Status::DeviceFault)
}

/// Adds the line that a run was completed.
fn push_done(text: &mut Text) -> Result<Status, Memory>
    ensures line { OnOk result (text.new ≡ text.old ++ done_line) }
    ensures status { IfOk result (λ s. s ≡ Status.Done) }
{
    text.push_bytes(b"done\n")?;
    Ok(Status::Done)
}

/// Adds why a run of a plan failed: by a bound that was broken, or by a device.
fn push_failure(alloc: Global, text: &mut Text, exec: &Exec) -> Result<Status, Memory>
    requires run { Run exec.now.mission exec.now.history }
    requires few { count_at exec.now.history + 1 < 2 ^ 32 }
    requires failed { has_failed exec.now.history ≡ true }
    ensures { (nodes : ℕ) (given : OptionOf Extension) (heard : List Heard) → IsRunOf exec.now.mission nodes given heard exec.now.history all → IfOk result (λ status. IsClosed heard exec.now.mission exec.now.history all text.old status text.new) }
{
    let Some(plan) = exec.plan() else {
        return push_fault(text);
    };
    match why_failed(alloc, plan, exec.history())? {
        Some(chain) => push_why(alloc, text, plan, chain.as_slice()),
        None => push_fault(text),
    }
}

/// Adds how a run of a plan ended.
fn push_end(alloc: Global, text: &mut Text, exec: &Exec) -> Result<Status, Memory>
    requires run { Run exec.now.mission exec.now.history }
    requires few { count_at exec.now.history + 1 < 2 ^ 32 }
    ensures { (nodes : ℕ) (given : OptionOf Extension) (heard : List Heard) → IsRunOf exec.now.mission nodes given heard exec.now.history all → IfOk result (λ status. IsClosed heard exec.now.mission exec.now.history all text.old status text.new) }
{
    match exec.phase() {
        Phase::Failed => push_failure(alloc, text, exec),
        _ => push_done(text),
    }
}

/// Adds how a run ended, and answers the status.
fn push_closing(alloc: Global, text: &mut Text, flown: &Flown) -> Result<Status, Memory>
    requires run { Run flown.now.exec.mission flown.now.exec.history }
    requires few { count_at flown.now.exec.history + 1 < 2 ^ 32 }
    requires front { HasFront (length flown.now.exec.history) flown.now.planned }
    ensures { (nodes : ℕ) (given : OptionOf Extension) (heard : List Heard) → IsRunOf flown.now.exec.mission nodes given heard flown.now.exec.history (attempts_of flown.now.planned) → IfOk result (λ status. IsClosed heard flown.now.exec.mission flown.now.exec.history (attempts_of flown.now.planned) text.old status text.new) }
{
    match &flown.planned {
        Planned::All => push_end(alloc, text, &flown.exec),
        Planned::NoPlan { front } => {
            push_no_plan(text, *front)?;
            Ok(Status::NoPlan)
        }
        Planned::Budget { front, path } => {
            push_budget(text, *front, path.as_slice())?;
            Ok(Status::Budget)
        }
    }
}

/// The log of a run, and how it ended.
pub(crate) fn tell(alloc: Global, flown: &Flown) -> Result<Outcome, Memory>
    requires run { Run flown.now.exec.mission flown.now.exec.history }
    requires few { count_at flown.now.exec.history + 1 < 2 ^ 32 }
    requires front { HasFront (length flown.now.exec.history) flown.now.planned }
    ensures { (nodes : ℕ) (given : OptionOf Extension) (heard : List Heard) → IsRunOf flown.now.exec.mission nodes given heard flown.now.exec.history (attempts_of flown.now.planned) → IfOk result (λ o. IsSimTold nodes given heard flown.now.exec.mission o.status o.text) }
{
    let mut text = journal_text::write(alloc, flown.exec.mission(), flown.exec.history())?;
    let status = push_closing(alloc, &mut text, flown)?;
    Ok(Outcome { status, text })
}
