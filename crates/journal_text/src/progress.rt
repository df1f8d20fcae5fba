ghost use Rattle.std.specs.Prelude.{◌≡◌, ◌+◌, ◌^◌, ◌<◌, [], ◌∷◌, ◌++◌, List, length, IfOk, OnOk};
ghost use Rattle.std.specs.Option.{ForSome};
ghost use Rattle.hs_base.specs.declared.plan.Extension.{Extension};
ghost use Rattle.hs_machine.specs.declared.history.Entry.{Entry};
ghost use Rattle.hs_machine.specs.State.{hands_over};
ghost use Rattle.plan_index.specs.Contents.{contents_of};
ghost use Rattle.journal_text.specs.Stands.{StandsAt, newest_horizon};

use hs_base::{Memory, PointId};
use hs_machine::{Deed, Entry};
use plan_index::PlanIndex;
use std::alloc::Global;

/// Where a history stands behind the entries so far.
#[derive(Drop)]
pub(crate) struct Progress {
    pub tick: u64,
    /// The newest plan.
    pub index: PlanIndex,
}

impl Progress {
    pub fn new(alloc: Global) -> Result<Progress, Memory>
        ensures { IfOk result (λ p. StandsAt p.tick p.index []) }
    {
        Ok(Progress {
            tick: 0,
            index: PlanIndex::new(alloc)?,
        })
    }

    /// Takes in one more entry.
    pub fn take_in(&mut self, entry: &Entry) -> Result<(), Memory>
        requires time { self.old.tick + 1 < 2 ^ 64 }
        requires fewer { ForSome (hands_over entry.now.deed)
            (λ e. length self.old.index.points + length e.tokens + 1 < 2 ^ 32) }
        ensures { (before : List Entry) → StandsAt self.old.tick self.old.index before
            → OnOk result (StandsAt self.new.tick self.new.index (before ++ entry.now ∷ [])) }
    {
        match &entry.deed {
            Deed::Tick => self.tick += 1,
            Deed::Handover { extension, .. } => self.index.extend(extension)?,
            _ => {}
        }
        Ok(())
    }

    /// The newest plan's horizon point; None where there is no plan.
    pub fn newest(&self) -> Option<PointId>
        requires { self.now.index.horizons < 2 ^ 32 }
        ensures { (es : List Extension) → self.now.index ≡ contents_of es → result ≡ newest_horizon es }
    {
        let horizons = self.index.horizons();
        if horizons == 0 {
            return None;
        }
        Some(self.index.horizon(horizons as u32))
    }
}
