ghost use Rattle.std.specs.Prelude.{◌≡◌, cond};
ghost use Rattle.timeline_db.specs.Lines.{is_gap, is_waiting};

use search_tree::Held;

/// A token in its row: joined to the one before it, or behind a gap.
#[derive(Clone, Copy, Debug)]
pub struct Token {
    pub held: Held,
    pub joined: bool,
    /// How many needs tokens of its kind have.
    pub needs: u32,
    /// The first need that is neither served nor left to a later plan, or `needs`.
    pub unmet: u32,
}

impl Token {
    /// 1 behind a gap, and else 0.
    pub(crate) fn gap(self) -> usize
        ensures { result ≡ cond (is_gap self) 1 0 }
    {
        if self.joined { 0 } else { 1 }
    }

    /// 1 with an open need, and else 0.
    pub(crate) fn wait(self) -> usize
        ensures { result ≡ cond (is_waiting self) 1 0 }
    {
        if self.unmet < self.needs { 1 } else { 0 }
    }
}
