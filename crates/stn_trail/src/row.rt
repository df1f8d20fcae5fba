ghost use Rattle.std.specs.Prelude.{◌≡◌, ◌-◌, [], ◌∷◌, ◌++◌, length, take, OnOk, OnErr};

use hs_base::{Bound, Memory};
use std::alloc::Global;
use std::marker::Model;

/// The bounds that end at one point, in the order in which they were added.
#[derive(Debug, Drop)]
pub(crate) struct Row {
    bounds: Vec<Bound>,
}

impl Model for Row {
    ghost use Rattle.std.specs.Prelude.{List};
    ghost use Rattle.hs_base.specs.declared.net.Bound.{Bound};

    ghost Value = { List Bound };

    ghost view = { λ row. row.bounds.items };
}

impl Row {
    pub fn new(alloc: Global) -> Row
        ensures { result ≡ [] }
    {
        Row {
            bounds: Vec::new(alloc),
        }
    }

    pub fn as_slice(&self) -> &[Bound]
        ensures { result.now ≡ self.now }
    {
        self.bounds.as_slice()
    }

    pub fn push(&mut self, bound: Bound) -> Result<(), Memory>
        ensures ok { OnOk result (self.new ≡ self.old ++ bound ∷ []) }
        ensures err { OnErr result (self.new ≡ self.old) }
    {
        self.bounds.push(bound)?;
        Ok(())
    }

    /// Takes the last bound away.
    pub fn pop(&mut self)
        ensures { self.new ≡ take (length self.old - 1) self.old }
    {
        let _ = self.bounds.pop();
    }
}
