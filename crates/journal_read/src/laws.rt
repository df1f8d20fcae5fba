// The laws of reading logs.
ghost use Rattle.std.specs.Prelude.{◌≡◌, ℕ, ◌≤◌, List, [], length};
ghost use Rattle.hs_base.specs.declared.limits.TheConstants.{TEXT_BYTES};
ghost use Rattle.hs_base.specs.declared.mission.Mission.{Mission};
ghost use Rattle.hs_machine.specs.declared.history.Entry.{Entry};
ghost use Rattle.hs_texts.specs.declared.refusal.Refusal.{Refusal};
ghost use Rattle.text_laws.specs.Reads.{Reads};
ghost use Rattle.log_laws.specs.LogGrammar.{LogGrammar};
ghost use Rattle.log_laws.specs.LogText.{log_text};
ghost use Rattle.log_laws.specs.WritableLogs.{IsWritableHistory};
ghost use Rattle.journal_read.specs.declared.noted.Noted.{Noted};
ghost use Rattle.journal_read.specs.LogReading.{log_at};
ghost use Rattle.journal_read.specs.LogSpelling.{LogSpells, IsLogRefusal};
ghost use Rattle.journal_read.specs.NotedLogs.{noted_of};

/// Logs are read from left to right: what is read is spelled, what is spelled is read, and
/// reading stops at the first piece with which no log goes on.
pub fn logs_are_read()
    ensures { (m : Mission) → Reads (LogGrammar m) (log_at m) [] }
{}

/// A text spells one log of a mission at most.
pub fn a_log_text_spells_one_log()
    ensures { (m : Mission) (bytes : List ℕ) (i : ℕ) (ns os : List Noted) → LogSpells m bytes i ns → LogSpells m bytes i os → ns ≡ os }
{}

/// A text spells a log of a mission, or has one refusal.
pub fn a_log_text_has_one_answer()
    ensures spelled { (m : Mission) (bytes : List ℕ) (i : ℕ) (ns : List Noted) (r : Refusal) → LogSpells m bytes i ns → IsLogRefusal m bytes i r → ⊥ }
    ensures refused { (m : Mission) (bytes : List ℕ) (i : ℕ) (r s : Refusal) → IsLogRefusal m bytes i r → IsLogRefusal m bytes i s → r ≡ s }
{}

/// The text of a history's log spells what is noted of the history and nothing else, and has no
/// refusal, unless it is longer than a text may be.
pub fn logs_are_read_back()
    ensures spelled { (m : Mission) (h : List Entry) → IsWritableHistory m h → length (log_text m h) ≤ TEXT_BYTES → LogSpells m (log_text m h) 0 (noted_of h) }
    ensures alone { (m : Mission) (h : List Entry) (ns : List Noted) → IsWritableHistory m h → length (log_text m h) ≤ TEXT_BYTES → LogSpells m (log_text m h) 0 ns → ns ≡ noted_of h }
    ensures accepted { (m : Mission) (h : List Entry) (r : Refusal) → IsWritableHistory m h → length (log_text m h) ≤ TEXT_BYTES → IsLogRefusal m (log_text m h) 0 r → ⊥ }
{}
