ghost use Rattle.std.specs.Prelude.{◌≡◌, ◌<◌, ◌≤◌, ◌≤ℤ◌, neg_ℤ};
ghost use Rattle.hs_base.specs.declared.limits.TheConstants.{LAST};
ghost use Rattle.stn_distance.specs.Distances.{weight};

use hs_base::PointId;
use stn_distance::Dist;

/// The edges to a leader that aren't negative, or the negative edges from it.
#[derive(Clone, Copy)]
pub(crate) enum Side {
    Incoming,
    Outgoing,
}

impl Side {
    ghost use Rattle.edge_filter.specs.Sides.{along, has_sign};

    /// The weight of the edge between `leader` and another leader on this side.
    pub(crate) fn along(self, dist: &Dist, leader: u32, other: u32) -> i64
        requires leader { leader < dist.now.count }
        requires other { other < dist.now.count }
        ensures weight { result ≡ along self (weight dist.now) leader other }
        ensures near { (neg_ℤ LAST ≤ℤ result) × (result ≤ℤ LAST) }
    {
        match self {
            Side::Incoming => dist.at(PointId(other), PointId(leader)),
            Side::Outgoing => dist.at(PointId(leader), PointId(other)),
        }
    }

    /// Whether an edge of this weight is one of this side.
    pub(crate) fn has_sign(self, weight: i64) -> bool
        ensures { result ≡ has_sign self weight }
    {
        match self {
            Side::Incoming => 0 <= weight,
            Side::Outgoing => weight < 0,
        }
    }
}
