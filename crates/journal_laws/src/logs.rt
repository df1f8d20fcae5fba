ghost use Rattle.std.specs.Prelude.{◌≡◌, List, map};
ghost use Rattle.hs_base.specs.declared.mission.Mission.{Mission};
ghost use Rattle.hs_machine.specs.declared.history.Entry.{Entry};
ghost use Rattle.hs_machine.specs.Run.{Run};
ghost use Rattle.log_laws.specs.LogText.{log_text};

/// Two runs of a mission with the same log, however long it is, have the same deeds; where the same
/// passes made them too, they are the same history.
pub fn histories_with_one_log_are_one()
    ensures deeds { (m : Mission) (h g : List Entry) → Run m h → Run m g → log_text m h ≡ log_text m g → map (λ (e : Entry). e.deed) h ≡ map (λ (e : Entry). e.deed) g }
    ensures one { (m : Mission) (h g : List Entry) → Run m h → Run m g → log_text m h ≡ log_text m g → map (λ (e : Entry). e.by) h ≡ map (λ (e : Entry). e.by) g → h ≡ g }
{}
