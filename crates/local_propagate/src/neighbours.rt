ghost use Rattle.std.specs.Prelude.{◌≡◌, ◌++◌, ◌∷◌, [], ◌<◌, IfOk, OnOk, OnErr, length, replicate, slice_index_or, slice_set};

use hs_base::Memory;
use smallvec::SmallVec;
use std::alloc::Global;
use std::marker::Model;

/// The other end of an edge, by its group's number, and the edge's weight.
#[derive(Clone, Copy, Debug, Default, PartialEq, Eq)]
pub struct Neighbour {
    pub group: usize,
    pub most: i64,
}

/// The neighbours of each group. Contracts see it as the list of their lists.
#[derive(Drop)]
pub struct Neighbours {
    lists: Vec<SmallVec<Neighbour, 4>>,
}

impl Model for Neighbours {
    ghost use Rattle.std.specs.Prelude.{List, map};
    ghost use Rattle.local_propagate.specs.declared.neighbours.Neighbour.{Neighbour};

    ghost Value = { List (List Neighbour) };

    ghost view = { λ n. map (λ l. l.items) n.lists.items };
}

impl Neighbours {
    /// No neighbours, of so many groups.
    pub fn new(alloc: Global, groups: usize) -> Result<Neighbours, Memory>
        ensures { IfOk result (λ n. n ≡ replicate groups []) }
    {
        let mut lists = Vec::with_capacity(alloc, groups)?;
        for _group in 0..groups {
            lists.push(SmallVec::new(alloc))?;
        }
        Ok(Neighbours { lists })
    }

    /// The number of groups.
    pub fn len(&self) -> usize
        ensures { result ≡ length self.now }
    {
        self.lists.len()
    }

    /// The neighbours of a group.
    pub fn of(&self, group: usize) -> &[Neighbour]
        requires { group < length self.now }
        ensures { result.now ≡ slice_index_or self.now group [] }
    {
        self.lists[group].as_slice()
    }

    /// One more neighbour of a group. After want of memory the lists are unchanged.
    pub fn add(&mut self, group: usize, neighbour: Neighbour) -> Result<(), Memory>
        requires { group < length self.old }
        ensures ok { OnOk result (self.new ≡ slice_set self.old group (slice_index_or self.old group [] ++ neighbour ∷ [])) }
        ensures err { OnErr result (self.new ≡ self.old) }
    {
        self.lists[group].push(neighbour)?;
        Ok(())
    }
}
