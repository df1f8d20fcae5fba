use crate::flights::planned;
use edge_filter::reform;
use horizon_handover::{Handed, Offer, prepare};
use hs_base::{Extension, Fault};
use sample_missions::smallest_extension;
use std::alloc::Global;
use std::test::Fail;

/// The smallest mission's plan, ready to be handed over.
pub(crate) fn offer(alloc: Global) -> Result<Offer, Fault> {
    let plan = planned(alloc)?;
    Ok(prepare(alloc, reform(alloc, plan)?)?)
}

/// Whether it is the plan, as it is at 0.
fn is_launched(handed: &Handed, extension: &Extension) -> bool {
    handed.extension.as_ref() == Some(extension)
        && handed.net.groups.len() == 3
        && handed.net.edges.len() == 4
        && handed.live.plan.plan().extensions.len() == 1
        && handed.live.dispatch.points() == 4
        && handed.live.dispatch.now() == 0
}

fn launches(alloc: Global) -> Result<bool, Fault> {
    let extension = smallest_extension(alloc)?;
    let handed = offer(alloc)?.launch();
    Ok(is_launched(&handed, &extension))
}

#[test]
fn launches_a_plan(rt: HostRuntime) -> Result<(), Fail> {
    assert!(rt; matches!(launches(rt.alloc()), Ok(true)));
    Ok(())
}
