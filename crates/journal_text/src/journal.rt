ghost use Rattle.std.specs.Prelude.{◌≡◌, ◌^◌, ◌<◌, IfOk};
ghost use Rattle.hs_machine.specs.State.{count_at};
ghost use Rattle.log_laws.specs.LogText.{log_text};

use crate::deeds::{push_deed, push_stop};
use crate::phases::phase;
use crate::progress::Progress;
use hs_base::{Memory, Mission};
use hs_machine::Entry;
use hs_texts::Text;
use std::alloc::Global;

/// The log of a history. Ticks write nothing; the times of the other entries tell them.
pub fn write(alloc: Global, mission: &Mission, history: &[Entry]) -> Result<Text, Memory>
    requires { count_at history.now < 2 ^ 32 }
    ensures { IfOk result (λ text. text ≡ log_text mission.now history.now) }
{
    let mut text = Text::new(alloc);
    let mut progress = Progress::new(alloc)?;
    text.push_bytes(b"hsts log 1\n")?;
    for entry in history {
        push_deed(
            &mut text,
            mission,
            &progress.index,
            progress.tick,
            &entry.deed,
        )?;
        progress.take_in(entry)?;
    }
    push_stop(&mut text, phase(history, progress.newest()), progress.tick)?;
    Ok(text)
}
