ghost use Rattle.std.specs.Prelude.{◌++◌, ◌∷◌, [], IfOk, List, ℕ};
ghost use Rattle.sim_run.specs.Watches.{IsFirst, IsUnmanned, watched_points};

use crate::post::Post;
use hs_base::{Memory, PointId};
use std::alloc::Global;

/// The number of the pass that a run's own calls carry.
pub const OWN: u32 = 0;

/// All that may be fired next: the ends of the timelines' current tokens, and the next horizon's point.
#[derive(Drop)]
pub struct Watch {
    pub posts: Vec<Post>,
    pub mark: PointId,
}

/// The lesser of a point and one that was found before, unless the point's number is below `from`.
fn lesser(found: Option<PointId>, point: PointId, from: u64) -> Option<PointId>
    ensures first { (xs : List ℕ) → IsFirst from xs found → IsFirst from (xs ++ point.0 ∷ []) result }
{
    if (point.0 as u64) < from {
        return found;
    }
    match found {
        Some(other) if other.0 <= point.0 => Some(other),
        _ => Some(point),
    }
}

impl Watch {
    /// The watch over so many timelines, before it has looked at them.
    pub fn begin(alloc: Global, timelines: usize) -> Result<Watch, Memory>
        ensures { IfOk result (λ watch. IsUnmanned timelines watch) }
    {
        let mut posts = Vec::with_capacity(alloc, timelines)?;
        for made in 0..timelines {
            posts.push(Post {
                end: PointId(0),
                script: None,
            })?;
        }
        Ok(Watch {
            posts,
            mark: PointId(0),
        })
    }

    /// The watched point with the least number from `from` on.
    pub fn next_from(&self, from: u64) -> Option<PointId>
        ensures { IsFirst from (watched_points self.now) result }
    {
        let mut next = lesser(None, self.mark, from);
        for post in self.posts.as_slice() {
            next = lesser(next, post.end, from);
        }
        next
    }
}
