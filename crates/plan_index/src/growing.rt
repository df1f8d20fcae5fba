ghost use Rattle.std.specs.Prelude.{◌≡◌, ◌+◌, ◌^◌, ◌<◌, ◌≤◌, [], ◌∷◌, ◌++◌, length, map, vec_len, vec_capacity, All};
ghost use Rattle.hs_base.specs.Points.{horizon, refs_after};
ghost use Rattle.plan_index.specs.Contents.{end_of};
ghost use Rattle.plan_index.specs.Lines.{row_of, HasRoom, AreLines};
ghost use Rattle.plan_index.specs.Named.{named, AreMarks, AreFlags};

use crate::PointName;
use crate::placed::{Timeline, place};
use hs_base::{Kind, PointId, Time, TokenRef};

/// Adds the point of the next horizon.
pub(crate) fn add_horizon(names: &mut Vec<PointName>, horizons: &mut Vec<PointId>)
    requires names { vec_len names.old < vec_capacity names.old }
    requires horizons { vec_len horizons.old < vec_capacity horizons.old }
    requires small { vec_len names.old < 2 ^ 32 }
    requires fewer { vec_len horizons.old < vec_len names.old }
    requires marks { AreMarks (map named names.old.items) horizons.old.items }
    ensures names { map named names.new.items ≡ map named names.old.items ++ horizon (length horizons.old.items + 1) ∷ [] }
    ensures many { vec_len names.new ≡ vec_len names.old + 1 }
    ensures capacity { vec_capacity names.new ≡ vec_capacity names.old }
    ensures horizons { length horizons.new.items ≡ length horizons.old.items + 1 }
    ensures marks { AreMarks (map named names.new.items) horizons.new.items }
{
    let number = names.len() as u32;
    let horizon = horizons.len() as u32 + 1;
    names.push_reserved(PointName::Horizon(horizon));
    horizons.push_reserved(PointId(number));
}

/// Adds tokens, each at the end of its timeline, with the points that end them.
pub(crate) fn add_tokens(
    names: &mut Vec<PointName>,
    tokens: &mut Vec<Kind>,
    lines: &mut Vec<Timeline>,
    new: &[Kind],
)
    requires names { vec_len names.old + length new.now ≤ vec_capacity names.old }
    requires tokens { vec_len tokens.old + length new.now ≤ vec_capacity tokens.old }
    requires room { All (λ k. HasRoom lines.old.items k.sv.0 (length new.now)) new.now }
    requires small { vec_len names.old + length new.now < 2 ^ 32 }
    requires fewer { vec_len tokens.old < vec_len names.old }
    requires lines { AreLines tokens.old.items (map named names.old.items) (row_of lines.old.items) }
    ensures names { map named names.new.items ≡ map named names.old.items ++ map end_of (refs_after tokens.old.items new.now) }
    ensures many { vec_len names.new ≡ vec_len names.old + length new.now }
    ensures tokens { tokens.new.items ≡ tokens.old.items ++ new.now }
    ensures lines { AreLines tokens.new.items (map named names.new.items) (row_of lines.new.items) }
{
    for kind in new {
        let end = PointId(names.len() as u32);
        let place = place(lines, *kind, end);
        names.push_reserved(PointName::End(TokenRef { sv: kind.sv, place }));
        tokens.push_reserved(*kind);
    }
}

/// Adds times, and sets the flags of their points.
pub(crate) fn add_times(fixed: &mut Vec<Time>, flags: &mut Vec<bool>, times: &[Time])
    requires room { vec_len fixed.old + length times.now ≤ vec_capacity fixed.old }
    requires there { All (λ t. t.point.0 < vec_len flags.old) times.now }
    requires flags { AreFlags fixed.old.items flags.old.items }
    ensures fixed { fixed.new.items ≡ fixed.old.items ++ times.now }
    ensures flags { AreFlags fixed.new.items flags.new.items }
{
    for time in times {
        fixed.push_reserved(*time);
        flags[time.point.0 as usize] = true;
    }
}
