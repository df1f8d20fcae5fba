ghost use Rattle.std.specs.Prelude.{◌≡◌};
ghost use Rattle.hs_base.specs.Checked.{Checked};
ghost use Rattle.exec_laws.specs.Follows.{Follows};
ghost use Rattle.horizon_handover.specs.Offers.{beginning, IsLast};

use dispatcher::Dispatch;
use hs_base::{Extension, Net};
use plan_check::CheckedPlan;
use std::marker::Model;
use stn_distance::Dist;

/// A checked plan that is ready to be handed over, with all memory that its dispatch needs.
#[derive(Drop)]
pub struct Offer {
    pub(crate) plan: CheckedPlan,
    pub(crate) extension: Option<Extension>,
    pub(crate) net: Net,
    pub(crate) dist: Dist,
    pub(crate) dispatch: Dispatch,
}

impl Model for Offer {
    ghost use Rattle.horizon_handover.specs.Offers.{Offered, IsReady};

    ghost Value = { Offered };

    ghost view = { λ o. record { plan = o.plan; extension = o.extension; net = o.net; dist = o.dist; dispatch = o.dispatch } };

    ghost invariant = { λ o. IsReady (record { plan = o.plan; extension = o.extension; net = o.net; dist = o.dist; dispatch = o.dispatch }) };
}

/// A plan in execution.
#[derive(Drop)]
pub struct Live {
    pub plan: CheckedPlan,
    pub dispatch: Dispatch,
}

/// A plan that was handed over, with its last extension and its network for the history.
#[derive(Drop)]
pub struct Handed {
    pub live: Live,
    pub extension: Option<Extension>,
    pub net: Net,
}

impl Offer {
    /// The offered plan; it takes no memory.
    pub fn plan(&self) -> &CheckedPlan
        ensures { result.now ≡ self.now.plan }
    {
        &self.plan
    }

    /// The plan in execution from time 0 on, where nothing but Z is executed. It takes no memory.
    pub fn launch(self) -> Handed
        ensures plan { result.live.plan ≡ self.plan }
        ensures checked { Checked self.plan.mission self.plan.plan.extensions }
        ensures dispatch { Follows (beginning self.plan) result.live.dispatch }
        ensures last { IsLast self.plan.plan.extensions result.extension }
        ensures net { result.net ≡ result.live.dispatch.net }
    {
        let Offer {
            plan,
            extension,
            net,
            dist: _,
            dispatch,
        } = self;
        Handed {
            live: Live { plan, dispatch },
            extension,
            net,
        }
    }
}
