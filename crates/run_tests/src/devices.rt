ghost use Rattle.std.specs.Prelude.{◌≡◌, ◌∷◌, [], IfOk, codes, length, pos};
ghost use Rattle.hs_base.specs.declared.limits.TheConstants.{LAST};
ghost use Rattle.hs_base.specs.Missions.{IsMission};
ghost use Rattle.hs_base.specs.Ranges.{range};
ghost use Rattle.base_laws.specs.Samples.{device_value, plain_value, value_id};

use crate::flights::flew;
use hs_base::{
    Bound, Horizon, LAST, List, Memory, Mission, Name, PointId, Range, Said, Step, SvId, ValId,
    Value, Var, WordId,
};
use hs_machine::Deed;
use hs_port::{Answer, MemDevice};
use sim_run::sim;
use std::alloc::Global;
use std::test::Fail;

/// How many nodes a search may take.
const BUDGET: u64 = 1_000;

const DONE: Answer = Answer::Said(WordId(0));

/// A value that a device ends after two to four ticks.
fn by_device(alloc: Global, name: &[u8], next: ValId) -> Result<Value, Memory>
    ensures { IfOk result (λ v. v ≡ device_value name.now (range (pos 2) (pos 4)) (next ∷ []) (pos 3)) }
{
    let mut script = List::new(alloc);
    script.push(Step::Until { word: WordId(0) })?;
    let mut said = List::new(alloc);
    said.push(Said {
        delay: 3,
        word: WordId(0),
    })?;
    let mut answers = List::new(alloc);
    answers.push(said)?;
    let mut values = List::new(alloc);
    values.push(next)?;
    Ok(Value {
        name: Name::from_bytes(alloc, name)?,
        lasts: Range { low: 2, high: 4 },
        by_device: true,
        next: values,
        script,
        answers,
    })
}

/// A value without an end, which nothing follows.
fn last(alloc: Global, name: &[u8]) -> Result<Value, Memory>
    ensures { IfOk result (λ v. v ≡ plain_value name.now (range (pos 1) LAST) []) }
{
    Ok(Value {
        name: Name::from_bytes(alloc, name)?,
        lasts: Range { low: 1, high: LAST },
        by_device: false,
        next: List::new(alloc),
        script: List::new(alloc),
        answers: List::new(alloc),
    })
}

/// A variable with three values in a row, of which a device ends the first two.
fn var(alloc: Global) -> Result<Var, Memory>
    ensures { IfOk result (λ v. v ≡ record {
      name = codes "a";
      values = device_value (codes "p") (range (pos 2) (pos 4)) (value_id 1 ∷ []) (pos 3) ∷ device_value (codes "q") (range (pos 2) (pos 4)) (value_id 2 ∷ []) (pos 3) ∷ plain_value (codes "r") (range (pos 1) LAST) [] ∷ [];
      begin = value_id 0;
    }) }
{
    let mut values = List::new(alloc);
    values.push(by_device(alloc, b"p", ValId(1))?)?;
    values.push(by_device(alloc, b"q", ValId(2))?)?;
    values.push(last(alloc, b"r")?)?;
    Ok(Var {
        name: Name::from_bytes(alloc, b"a")?,
        values,
        begin: ValId(0),
    })
}

/// Its mission, up to the tick 10. In a plan the points 0 to 4 are Z, the horizon, and the ends.
fn mission(alloc: Global) -> Result<Mission, Memory>
    ensures mission { IfOk result IsMission }
    ensures one { IfOk result (λ m. length m.horizons ≡ 1) }
{
    let mut vars = List::new(alloc);
    vars.push(var(alloc)?)?;
    let mut horizons = List::new(alloc);
    horizons.push(Horizon {
        tick: 10,
        goals: List::new(alloc),
    })?;
    let mut words = List::new(alloc);
    words.push(Name::from_bytes(alloc, b"done")?)?;
    Ok(Mission {
        vars,
        needs: List::new(alloc),
        horizons,
        words,
    })
}

/// A device whose polls are answered so, and whose call of that number fails.
fn device(alloc: Global, answers: &[Answer], fail: u64) -> Result<MemDevice, Memory> {
    let answers = List::from_vec(Vec::from_slice(alloc, answers)?);
    MemDevice::begin(alloc, 10, answers, List::from_vec([fail].to_vec(alloc)?))
}

/// The device, with others for the variables that the mission doesn't have.
fn devices(alloc: Global, first: MemDevice) -> Result<Vec<MemDevice>, Memory> {
    let mut devices = Vec::new(alloc);
    devices.push(first)?;
    for _ in 1..16 {
        devices.push(MemDevice::begin(alloc, 0, List::new(alloc), List::new(alloc))?)?;
    }
    Ok(devices)
}

/// Whether its run has just these deeds behind the handover.
fn is_run(
    alloc: Global,
    mission: &Mission,
    devices: &mut [MemDevice],
    deeds: &[Deed],
) -> Result<bool, Memory>
    requires mission { IsMission mission.now }
    requires one { length mission.now.horizons ≡ 1 }
    requires many { length devices.old ≡ 16 }
    ensures { length devices.new ≡ 16 }
{
    let flown = sim(alloc, None, mission, devices, BUDGET)?;
    Ok(flew(flown.exec.history(), deeds))
}

/// Whether the device was polled at these ticks, and failed so often.
fn was_asked(device: &MemDevice, polls: &[i64], faults: u64) -> bool {
    let asked = device.polls();
    if asked.len() != polls.len() {
        return false;
    }
    for i in 0..polls.len() {
        if asked[i].0 != polls[i] {
            return false;
        }
    }
    device.count() == faults
}

/// How a device behaves: its answers, and the number of the call that fails, of those of orders and
/// polls together.
#[derive(Clone, Copy)]
struct Behaved<'a> {
    answers: &'a [Answer],
    fail: u64,
}

/// A device that never fails.
fn says(answers: &[Answer]) -> Behaved<'_> {
    Behaved {
        answers,
        fail: 1_000,
    }
}

/// Whether a run with the device has just these deeds behind the handover, polls it at these ticks,
/// and has it fail so often.
fn flies(
    alloc: Global,
    behaved: Behaved<'_>,
    deeds: &[Deed],
    polls: &[i64],
    faults: u64,
) -> Result<bool, Memory> {
    let mission = mission(alloc)?;
    let mut devices = devices(alloc, device(alloc, behaved.answers, behaved.fail)?)?;
    if devices.len() != 16 {
        return Ok(false);
    }
    let run = is_run(alloc, &mission, devices.as_mut_slice(), deeds)?;
    Ok(run && was_asked(&devices[0], polls, faults))
}

/// The first token may end at 4 at the latest, and the device says nothing.
#[test]
fn a_silent_device_is_late(rt: HostRuntime) -> Result<(), Fail> {
    let late = Bound {
        from: PointId(0),
        to: PointId(2),
        most: 4,
    };
    let deeds = [
        Deed::Tick,
        Deed::Tick,
        Deed::Tick,
        Deed::Tick,
        Deed::Late(late),
    ];
    assert!(rt; flies(rt.alloc(), says(&[]), &deeds, &[1, 2, 3, 4], 0)?);
    Ok(())
}

/// It may end at 2 at the earliest.
#[test]
fn an_answer_before_its_time_is_early(rt: HostRuntime) -> Result<(), Fail> {
    let early = Bound {
        from: PointId(2),
        to: PointId(0),
        most: -2,
    };
    let deeds = [Deed::Tick, Deed::Early(early)];
    assert!(rt; flies(rt.alloc(), says(&[DONE]), &deeds, &[1], 0)?);
    Ok(())
}

/// Both scripts are polled from the tick behind their beginning on, to their last word.
#[test]
fn two_scripts_end_in_time(rt: HostRuntime) -> Result<(), Fail> {
    let quiet = Answer::Quiet;
    let answers = [quiet, quiet, DONE, quiet, DONE, DONE];
    let deeds = [
        Deed::Tick,
        Deed::Tick,
        Deed::Tick,
        Deed::Report(PointId(2)),
        Deed::Tick,
        Deed::Tick,
        Deed::Report(PointId(3)),
        Deed::Tick,
        Deed::Tick,
        Deed::Tick,
        Deed::Tick,
        Deed::Tick,
        Deed::Fire(PointId(1)),
    ];
    assert!(rt; flies(rt.alloc(), says(&answers), &deeds, &[1, 2, 3, 4, 5], 0)?);
    Ok(())
}

/// The begin is told at the tick 0, before any poll.
#[test]
fn a_device_breaks_at_an_order(rt: HostRuntime) -> Result<(), Fail> {
    let behaved = Behaved {
        answers: &[],
        fail: 0,
    };
    assert!(rt; flies(rt.alloc(), behaved, &[Deed::Broken(SvId(0))], &[], 1)?);
    Ok(())
}

#[test]
fn a_device_breaks_at_a_poll(rt: HostRuntime) -> Result<(), Fail> {
    let behaved = Behaved {
        answers: &[Answer::Quiet, DONE],
        fail: 2,
    };
    let deeds = [Deed::Tick, Deed::Tick, Deed::Broken(SvId(0))];
    assert!(rt; flies(rt.alloc(), behaved, &deeds, &[1], 1)?);
    Ok(())
}
