ghost use Rattle.std.specs.Prelude.{[], IfNone, IfOk, IfSome, OnOk, ◌++◌, ◌<◌, ◌^◌, ◌∷◌, ◌≡◌};
ghost use Rattle.std.specs.List.{AllByRecursion};
ghost use Rattle.plan_search.specs.Searched.{path_to};
ghost use Rattle.plan_search.specs.declared.frames.Frame.{Frame};

use hs_base::{List, Memory};
use search_tree::{Flaw, Resolver};
use std::alloc::Global;
use std::marker::Model;
use timeline_db::DbMark;

/// A node with children that are still to be taken.
#[derive(Drop)]
pub(crate) struct Frame {
    pub flaw: Flaw,
    pub resolvers: List<Resolver>,
    /// The number of the next child.
    pub next: usize,
    /// The node's partial plan.
    pub mark: DbMark,
}

/// The frames on the way to where a search is, which contracts see as their list, and the lists of
/// frames that are done, which later ones fill again.
#[derive(Drop)]
pub(crate) struct Frames {
    stack: Vec<Frame>,
    spare: Vec<List<Resolver>>,
}

impl Model for Frames {
    ghost use Rattle.std.specs.Prelude.{List};
    ghost use Rattle.plan_search.specs.declared.frames.Frame.{Frame};

    ghost Value = { List Frame };

    ghost view = { λ frames. frames.stack.items };
}

impl Frames {
    /// No frame; it takes no memory.
    pub fn new(alloc: Global) -> Frames
        ensures { result ≡ [] }
    {
        Frames {
            stack: Vec::new(alloc),
            spare: Vec::new(alloc),
        }
    }

    /// The frames, the first node's first.
    pub fn as_slice(&self) -> &[Frame]
        ensures { result.now ≡ self.now }
    {
        self.stack.as_slice()
    }

    /// A frame more.
    pub fn push(&mut self, frame: Frame) -> Result<(), Memory>
        ensures { OnOk result (self.new ≡ self.old ++ frame ∷ []) }
    {
        self.stack.push(frame)?;
        Ok(())
    }

    /// Takes the last frame.
    pub fn pop(&mut self) -> Option<Frame>
        ensures some { IfSome result (λ frame. self.old ≡ self.new ++ frame ∷ []) }
        ensures none { IfNone result (self.old ≡ []) }
    {
        self.stack.pop()
    }

    /// A list to fill, whatever is in it: one that was kept, or else a new one.
    pub fn room(&mut self, alloc: Global) -> List<Resolver>
        ensures { self.new ≡ self.old }
    {
        match self.spare.pop() {
            Some(list) => list,
            None => List::new(alloc),
        }
    }

    /// Keeps the list of a frame that is done, or lets it go for want of memory.
    pub fn keep(&mut self, list: List<Resolver>)
        ensures { self.new ≡ self.old }
    {
        let _ = self.spare.push(list);
    }
}

/// The path of the child of that number of the node behind these, of each of which a child was
/// taken.
pub(crate) fn path_of(alloc: Global, frames: &[Frame], child: usize) -> Result<List<u32>, Memory>
    requires taken { AllByRecursion (λ (f : Frame). (0 < f.next) × (f.next < 2 ^ 32)) frames.now }
    requires child { child < 2 ^ 32 }
    ensures { IfOk result (λ path. path ≡ path_to frames.now ++ child ∷ []) }
{
    let mut path = List::new(alloc);
    for place in 0..frames.len() {
        path.push(frames[place].next as u32 - 1)?;
    }
    path.push(child as u32)?;
    Ok(path)
}
