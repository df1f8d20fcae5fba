// The laws of writing logs.
ghost use Rattle.std.specs.Prelude.{◌≤◌, List, length};
ghost use Rattle.hs_base.specs.declared.limits.TheConstants.{TEXT_BYTES};
ghost use Rattle.hs_base.specs.declared.mission.Mission.{Mission};
ghost use Rattle.hs_machine.specs.declared.history.Entry.{Entry};
ghost use Rattle.log_laws.specs.LogText.{log_text};
ghost use Rattle.log_laws.specs.WritableLogs.{IsWritableHistory, written_log, IsLogText};

/// The text of a history's log is a sentence that says its entries, and keeps the rules on points,
/// unless it is longer than a text may be.
pub fn log_texts_are_sentences()
    ensures { (m : Mission) (h : List Entry) → IsWritableHistory m h → length (log_text m h) ≤ TEXT_BYTES → IsLogText m (log_text m h) 0 (written_log m h) }
{}
