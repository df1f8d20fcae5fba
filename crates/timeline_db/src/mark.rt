ghost use Rattle.std.specs.Prelude.{◌≡◌};

use std::marker::Model;

/// A place in a search to come back to: how many parts were done.
#[derive(Clone, Copy, Debug)]
pub struct DbMark {
    parts: usize,
}

impl Model for DbMark {
    ghost use Rattle.std.specs.Prelude.{ℕ};

    ghost Value = { ℕ };

    ghost view = { λ mark. mark.parts };

    ghost inverse = { λ parts. record { parts = parts } };
}

impl DbMark {
    pub(crate) fn after(parts: usize) -> DbMark
        ensures { result ≡ parts }
    {
        DbMark { parts }
    }

    pub(crate) fn parts(self) -> usize
        ensures { result ≡ self }
    {
        self.parts
    }
}
