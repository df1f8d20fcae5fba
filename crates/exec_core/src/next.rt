ghost use Rattle.std.specs.Prelude.{◌<◌, ◌^◌, MatchOption, length};
ghost use Rattle.hs_machine.specs.Machine.{AgreeOn, IsNext};
ghost use Rattle.exec_core.specs.Next.{TellsNotNext};

use crate::Reply;
use hs_base::{Extension, Same};

/// On how many leading extensions two plans agree.
fn agree_on(newest: &[Extension], offered: &[Extension]) -> usize
    ensures { AgreeOn newest.now offered.now result }
{
    let shared = newest.len().min(offered.len());
    for i in 0..shared {
        if !newest[i].same(&offered[i]) {
            return i;
        }
    }
    shared
}

/// Why the offered plan isn't the newest one with one more extension, where it isn't.
pub fn not_next(newest: &[Extension], offered: &[Extension]) -> Option<Reply>
    requires { length newest.now < 2 ^ 32 }
    ensures { MatchOption result (IsNext newest.now offered.now) (TellsNotNext newest.now offered.now) }
{
    let current = newest.len() as u32;
    if offered.is_empty() {
        return Some(Reply::NotNext { current, agree: 0 });
    }
    let base = &offered[..offered.len() - 1];
    let agree = agree_on(newest, base);
    if agree == newest.len() && agree == base.len() {
        return None;
    }
    Some(Reply::NotNext {
        current,
        agree: agree as u32,
    })
}
