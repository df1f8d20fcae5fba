ghost use Rattle.std.specs.Prelude.{◌≡◌, length, IfOk};
ghost use Rattle.base_laws.specs.Samples.{smallest};

use hs_base::{Fault, List, Memory, PointId};
use hs_machine::{Deed, Entry};
use hs_port::MemDevice;
use plan_check::{CheckedPlan, check};
use sample_missions::{smallest, smallest_extension};
use sim_run::sim;
use std::alloc::Global;
use std::test::Fail;

/// The smallest mission with its plan.
pub(crate) fn planned(alloc: Global) -> Result<CheckedPlan, Fault>
    ensures mission { IfOk result (λ p. p.mission ≡ smallest) }
    ensures one { IfOk result (λ p. length p.plan.extensions ≡ 1) }
{
    let extension = smallest_extension(alloc)?;
    let base = CheckedPlan::none(alloc, smallest(alloc)?)?;
    check(alloc, &base, extension)
}

/// Whether a plan was handed over first, and then just these deeds were done.
pub(crate) fn flew(history: &[Entry], deeds: &[Deed]) -> bool {
    if history.len() != deeds.len() + 1 {
        return false;
    }
    for (i, deed) in deeds.iter().enumerate() {
        if history[i + 1].deed != *deed {
            return false;
        }
    }
    matches!(history[0].deed, Deed::Handover { .. })
}

/// Devices that are never asked.
fn idle_devices(alloc: Global) -> Result<Vec<MemDevice>, Memory> {
    let mut devices = Vec::new(alloc);
    for _ in 0..16 {
        devices.push(MemDevice::begin(alloc, 0, List::new(alloc), List::new(alloc))?)?;
    }
    Ok(devices)
}

/// Whether its flight has just these deeds behind the handover.
fn is_flown(alloc: Global, deeds: &[Deed]) -> Result<bool, Fault> {
    let mission = smallest(alloc)?;
    let mut devices = idle_devices(alloc)?;
    if devices.len() != 16 {
        return Ok(false);
    }
    let flown = sim(
        alloc,
        Some(planned(alloc)?),
        &mission,
        devices.as_mut_slice(),
        1,
    )?;
    Ok(flew(flown.exec.history(), deeds))
}

/// The first token ends at its least, at 2, and the last one not before the horizon.
#[test]
fn flies_the_smallest_plan(rt: HostRuntime) -> Result<(), Fail> {
    let deeds = [
        Deed::Tick,
        Deed::Tick,
        Deed::Fire(PointId(2)),
        Deed::Tick,
        Deed::Tick,
        Deed::Tick,
        Deed::Tick,
        Deed::Tick,
        Deed::Tick,
        Deed::Tick,
        Deed::Tick,
        Deed::Fire(PointId(1)),
    ];
    assert!(rt; matches!(is_flown(rt.alloc(), &deeds), Ok(true)));
    Ok(())
}
