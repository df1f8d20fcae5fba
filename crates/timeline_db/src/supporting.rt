ghost use Rattle.std.specs.Prelude.{◌≡◌, IfErr, OnErr, OnOk};
ghost use Rattle.search_tree.specs.declared.part.Part.TheVariants.{Deferred, MetGoal, Supported};
ghost use Rattle.timeline_db.specs.Plannings.{Does, IsOpen, MayDoNow, WouldShut};
ghost use Rattle.timeline_db.specs.Shutting.{IfCycle};

use crate::{Db, Shut};
use hs_base::{Support, TokenRef};

impl Db {
    /// Serves a need of a token by a token. On a refusal nothing has changed; Cycle comes exactly
    /// where the bounds would have no schedule.
    pub fn support(&mut self, support: Support) -> Result<(), Shut>
        requires { MayDoNow self.old (Supported support.token support.need support.by) }
        ensures does { OnOk result (Does (Supported support.token support.need support.by) self.old self.new) }
        ensures kept { OnOk result (IsOpen self.new) }
        ensures same { OnErr result (self.new ≡ self.old) }
        ensures shut { IfErr result (λ e. IfCycle e (WouldShut (Supported support.token support.need support.by) self.old)) }
    {
        self.draft.make_support(self.base.mission(), support)?;
        match self
            .draft
            .support(self.base.plan().extensions.as_slice(), support)
        {
            Ok(()) => {
                self.stays_open();
                Ok(())
            }
            Err(shut) => Err(shut),
        }
    }

    /// Gives a goal its token. On a refusal nothing has changed; Cycle comes exactly where the
    /// bounds would have no schedule.
    pub fn meet_goal(&mut self, goal: u32, by: TokenRef) -> Result<(), Shut>
        requires { MayDoNow self.old (MetGoal goal by) }
        ensures does { OnOk result (Does (MetGoal goal by) self.old self.new) }
        ensures kept { OnOk result (IsOpen self.new) }
        ensures same { OnErr result (self.new ≡ self.old) }
        ensures shut { IfErr result (λ e. IfCycle e (WouldShut (MetGoal goal by) self.old)) }
    {
        let number = self.base.index().horizons();
        self.draft.make_goal(self.base.mission(), number, goal, by)?;
        match self.draft.meet_goal(goal, by) {
            Ok(()) => {
                self.stays_open();
                Ok(())
            }
            Err(shut) => Err(shut),
        }
    }

    /// Leaves a need of the last token of a finished timeline to a later plan.
    pub fn defer(&mut self, token: TokenRef, need: u32) -> Result<(), Shut>
        requires { MayDoNow self.old (Deferred token need) }
        ensures does { OnOk result (Does (Deferred token need) self.old self.new) }
        ensures kept { OnOk result (IsOpen self.new) }
        ensures same { OnErr result (self.new ≡ self.old) }
        ensures shut { IfErr result (λ e. IfCycle e (WouldShut (Deferred token need) self.old)) }
    {
        self.draft.make_none();
        match self
            .draft
            .defer(self.base.plan().extensions.as_slice(), token, need)
        {
            Ok(()) => {
                self.stays_open();
                Ok(())
            }
            Err(shut) => Err(shut),
        }
    }
}
