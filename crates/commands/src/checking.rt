ghost use Rattle.std.specs.Prelude.{◌≡◌, ◌≢◌, ◌<◌, IfOk, IfErr};
ghost use Rattle.hs_base.specs.declared.fault.Fault.TheVariants.{Memory as NoMemoryLeft};
ghost use Rattle.hs_base.specs.Missions.{IsMission};
ghost use Rattle.hs_base.specs.Checked.{Checked};
ghost use Rattle.hs_texts.specs.ClosingText.{checked_line};
ghost use Rattle.commands.specs.Checks.{IsFlaw, IsFaulty, Judges, Checks};

use crate::input::given;
use crate::outcome::refused;
use crate::{Outcome, Status};
use answer_lines::{fault_line, push_checked};
use hs_base::{Copies, Extension, Fault, Memory, Mission, Plan};
use hs_texts::Text;
use plan_check::{CheckedPlan, Checker};
use std::alloc::Global;

/// Where a plan breaks the rules first.
#[derive(Drop)]
pub struct Flaw {
    /// The extension's place in the plan, counted from 0.
    pub place: usize,
    pub fault: Fault,
}

impl From<Memory> for Flaw {
    ghost from_gives = { λ _ flaw. flaw.fault ≡ NoMemoryLeft };

    fn from(_: Memory) -> Flaw {
        Flaw {
            place: 0,
            fault: Fault::Memory,
        }
    }
}

/// Checks a plan's extensions one after the other.
pub fn check_each(
    alloc: Global,
    mission: &Mission,
    extensions: &[Extension],
) -> Result<CheckedPlan, Flaw>
    requires { IsMission mission.now }
    ensures sound { IfOk result (λ c. (c.mission ≡ mission.now) × (c.plan.extensions ≡ extensions.now)) }
    ensures checked { IfOk result (λ c. Checked mission.now extensions.now) }
    ensures flaw { IfErr result (λ flaw. flaw.fault ≢ NoMemoryLeft → IsFlaw mission.now extensions.now flaw.place flaw.fault) }
{
    let mut checker = Checker::begin(alloc, mission.copy(alloc)?)?;
    for place in 0..extensions.len() {
        match checker.check(extensions[place].copy(alloc)?) {
            Ok(next) => checker = next,
            Err(fault) => return Err(Flaw { place, fault }),
        }
    }
    Ok(checker.into_plan())
}

/// The lines of a plan's first flaw.
pub fn faulty(
    alloc: Global,
    mission: &Mission,
    extensions: &[Extension],
    flaw: &Flaw,
) -> Result<Outcome, Memory>
    requires { flaw.now.fault ≢ NoMemoryLeft → IsFlaw mission.now extensions.now flaw.now.place flaw.now.fault }
    ensures { IfOk result (λ o. (o.status ≡ Status.PlanRefused) × IsFaulty mission.now extensions.now o.text) }
{
    match flaw.fault {
        Fault::Memory => Err(Memory),
        _ => Ok(Outcome {
            status: Status::PlanRefused,
            text: fault_line(alloc, mission, &extensions[..flaw.place + 1], &flaw.fault)?,
        }),
    }
}

/// The line that so many extensions were checked.
fn sound(alloc: Global, extensions: usize) -> Result<Outcome, Memory>
    ensures { IfOk result (λ o. (o.status ≡ Status.Done) × (o.text ≡ checked_line extensions)) }
{
    let mut text = Text::new(alloc);
    push_checked(&mut text, extensions as u64)?;
    Ok(Outcome {
        status: Status::Done,
        text,
    })
}

/// What is said of a plan for a mission.
fn judge(alloc: Global, mission: &Mission, plan: &Plan) -> Result<Outcome, Memory>
    requires { IsMission mission.now }
    ensures { IfOk result (λ o. Judges mission.now plan.now.extensions o.status o.text) }
{
    let extensions = plan.extensions.as_slice();
    match check_each(alloc, mission, extensions) {
        Ok(_) => sound(alloc, extensions.len()),
        Err(flaw) => faulty(alloc, mission, extensions, &flaw),
    }
}

/// Checks a plan that follows its mission: so many extensions keep the rules, or the first fault of
/// the first extension that breaks one.
pub fn check(alloc: Global, text: &[u8]) -> Result<Outcome, Memory>
    ensures { IfOk result (λ o. Checks text.now o.status o.text) }
{
    match given(alloc, text) {
        Ok((mission, plan)) => judge(alloc, &mission, &plan),
        Err(refusal) => refused(alloc, &refusal),
    }
}
