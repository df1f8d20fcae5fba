ghost use Rattle.std.specs.Prelude.{◌≡◌, ◌+◌, ◌<◌, ◌≤ℤ◌, All, Contains, IfOk, length, pos, replicate, slice_index_or, slice_set, drop};
ghost use Rattle.local_propagate.specs.Tournament.{IsTournament, IsWonBut};

use hs_base::Memory;
use std::alloc::Global;
use std::marker::Model;

/// Numbers by place, the least of which is at hand: a tournament tree.
///
/// Place `size + i` of the tree has number `i`, and each place `k` below `size` but 0 has the lesser
/// of those at `2 k` and `2 k + 1`.
#[derive(Debug, Drop)]
pub struct Minima {
    size: usize,
    tree: Vec<i64>,
}

impl Model for Minima {
    ghost use Rattle.std.specs.Prelude.{List, ℤ, drop};
    ghost use Rattle.local_propagate.specs.Tournament.{IsTournament};

    ghost Value = { List ℤ };

    ghost view = { λ m. drop m.size m.tree.items };

    ghost invariant = { λ m. IsTournament m.size m.tree.items };
}

/// Plays again the games that place `at` takes part in.
fn climb(tree: &mut [i64], size: usize, at: usize)
    requires at_in { at < size + size }
    requires places { length tree.old ≡ size + size }
    requires won { IsWonBut at size tree.old }
    ensures tournament { IsTournament size tree.new }
    ensures numbers { drop size tree.new ≡ drop size tree.old }
{
    let mut k = at;
    'games: while k > 1 {
        k /= 2;
        tree[k] = tree[2 * k].min(tree[2 * k + 1]);
    }
}

impl Minima {
    /// `size` times the number `all`.
    pub fn new(alloc: Global, size: usize, all: i64) -> Result<Minima, Memory>
        ensures { IfOk result (λ m. m ≡ replicate size all) }
    {
        let mut tree = Vec::new(alloc);
        tree.resize(size, all)?;
        tree.resize(size + size, all)?;
        Ok(Minima { size, tree })
    }

    /// The number at a place.
    pub fn at(&self, i: usize) -> i64
        requires { i < length self.now }
        ensures { result ≡ slice_index_or self.now i (pos 0) }
    {
        self.tree[self.size + i]
    }

    /// Changes the number at a place, in a number of steps that is logarithmic in the size.
    pub fn set(&mut self, i: usize, to: i64)
        requires { i < length self.old }
        ensures { self.new ≡ slice_set self.old i to }
    {
        let at = self.size + i;
        self.tree[at] = to;
        climb(self.tree.as_mut_slice(), self.size, at);
    }

    /// The least number.
    pub fn least(&self) -> i64
        requires { 0 < length self.now }
        ensures bound { All (λ x. result ≤ℤ x) self.now }
        ensures reached { Contains self.now result }
    {
        self.tree[1]
    }
}
