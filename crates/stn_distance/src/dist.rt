ghost use Rattle.std.specs.Prelude.{◌≡◌, ◌<◌, ◌≤◌, ◌≤ℤ◌, neg_ℤ, All};
ghost use Rattle.hs_base.specs.declared.limits.TheConstants.{LAST};
ghost use Rattle.hs_base.specs.Schedule.{Tight};
ghost use Rattle.hs_base.specs.Reduced.{IsTableOf};
ghost use Rattle.stn_distance.specs.Ranges.{IsInRange};
ghost use Rattle.stn_distance.specs.Distances.{weight};

use hs_base::{Bound, PointId};
use std::marker::Model;

/// The distances of a network: for each two points the least number, in ticks, by which every
/// schedule has the second at most after the first.
///
/// Contracts see its number of points, its bounds and the rows of its distances. It holds rows for
/// the points alone whose times are not fixed.
#[derive(Drop)]
pub struct Dist {
    pub(crate) bounds: Vec<Bound>,
    pub(crate) places: Vec<u32>,
    pub(crate) offsets: Vec<i64>,
    pub(crate) rows: Vec<Vec<i64>>,
}

impl Model for Dist {
    ghost use Rattle.std.specs.Prelude.{length};
    ghost use Rattle.stn_distance.specs.Rows.{items_of};
    ghost use Rattle.stn_distance.specs.Distances.{Distances, rows_of_table, folded_weight, IsExact};

    ghost Value = { Distances };

    ghost view = { λ d. record {
      count = length d.places.items;
      bounds = d.bounds.items;
      rows = rows_of_table (length d.places.items) (folded_weight d.places.items d.offsets.items (items_of d.rows.items));
    } };

    ghost invariant = { λ d. IsExact (length d.places.items) d.bounds.items d.places.items d.offsets.items (items_of d.rows.items) };
}

impl Dist {
    /// The least number by which every schedule has `q` at most after `p`; it takes no memory.
    pub fn at(&self, p: PointId, q: PointId) -> i64
        requires p { p.0 < self.now.count }
        requires q { q.0 < self.now.count }
        ensures weight { result ≡ weight self.now p.0 q.0 }
        ensures tight { Tight self.now.bounds p.0 q.0 result }
        ensures near { (neg_ℤ LAST ≤ℤ result) × (result ≤ℤ LAST) }
    {
        let row = &self.rows[self.places[p.0 as usize] as usize];
        let apart = row[self.places[q.0 as usize] as usize];
        apart + self.offsets[q.0 as usize] - self.offsets[p.0 as usize]
    }

    /// The number of points; it takes no memory.
    pub fn points(&self) -> u32
        ensures count { result ≡ self.now.count }
        ensures some { 1 ≤ result }
        ensures few { result ≤ 131072 }
        ensures table { IsTableOf self.now.count self.now.bounds (weight self.now) }
    {
        self.places.len() as u32
    }

    /// The bounds; it takes no memory.
    pub fn bounds(&self) -> &[Bound]
        ensures bounds { result.now ≡ self.now.bounds }
        ensures range { All (IsInRange self.now.count) result.now }
    {
        self.bounds.as_slice()
    }
}
