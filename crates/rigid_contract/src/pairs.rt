ghost use Rattle.std.specs.Prelude.{◌≡◌, ◌<◌, ◌&&◌, ◌||◌, not, nat_eq};
ghost use Rattle.hs_base.specs.Reduced.{are_rigid, leads_over};
ghost use Rattle.stn_distance.specs.Distances.{weight};

use hs_base::PointId;
use stn_distance::Dist;

/// Whether two points stand at one distance in every schedule.
pub(crate) fn is_rigid(dist: &Dist, p: u32, q: u32) -> bool
    requires p { p < dist.now.count }
    requires q { q < dist.now.count }
    ensures { result ≡ are_rigid (weight dist.now) p q }
{
    dist.at(PointId(p), PointId(q)) + dist.at(PointId(q), PointId(p)) == 0
}

/// Whether `q` is another point of the group of `p`.
pub(crate) fn is_member(dist: &Dist, p: u32, q: u32) -> bool
    requires p { p < dist.now.count }
    requires q { q < dist.now.count }
    ensures { result ≡ (are_rigid (weight dist.now) p q && not (nat_eq p q)) }
{
    if !is_rigid(dist, p, q) {
        return false;
    }
    p != q
}

/// Whether `q` lets `p` lead: it stands in another group, or `p` comes before it.
pub(crate) fn lets_lead(dist: &Dist, p: u32, q: u32) -> bool
    requires p { p < dist.now.count }
    requires q { q < dist.now.count }
    ensures { result ≡ (not (are_rigid (weight dist.now) p q) || leads_over (weight dist.now) p q) }
{
    if !is_rigid(dist, p, q) {
        return true;
    }
    let after = dist.at(PointId(p), PointId(q));
    if 0 < after {
        return true;
    }
    after == 0 && p <= q
}
