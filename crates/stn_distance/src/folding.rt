ghost use Rattle.std.specs.Prelude.{◌≡◌, ◌+◌, ◌<◌, ◌≤◌, [], ◌∷◌, ◌++◌, cond, pos, length, map, All, IfOk, OnOk};
ghost use Rattle.hs_base.specs.Schedule.{time_of};
ghost use Rattle.stn_distance.specs.Ranges.{IsInRange, IsNear};
ghost use Rattle.stn_distance.specs.Folding.{IsFolding, is_apart, folded_bound, folded_bounds};

use hs_base::{Bound, Memory, PointId, Time};
use std::alloc::Global;

/// How points are folded into rows. A point whose time is fixed stands at row 0, which is that of
/// point 0, and its time after it; every other point is a row of its own.
#[derive(Drop)]
pub(crate) struct Folding {
    /// The point of each row.
    pub(crate) points: Vec<u32>,
    /// The row of each point.
    pub(crate) places: Vec<u32>,
    /// How long after its row's point each point stands, in ticks.
    pub(crate) offsets: Vec<i64>,
}

impl Folding {
    /// The folding of point 0.
    fn of_origin(alloc: Global) -> Result<Folding, Memory>
        ensures points { IfOk result (λ f. f.points.items ≡ 0 ∷ []) }
        ensures places { IfOk result (λ f. f.places.items ≡ 0 ∷ []) }
        ensures offsets { IfOk result (λ f. f.offsets.items ≡ pos 0 ∷ []) }
    {
        Ok(Folding {
            points: vec![in alloc; 0]?,
            places: vec![in alloc; 0]?,
            offsets: vec![in alloc; 0]?,
        })
    }

    /// Takes the next point, which stands `offset` after the point of a row.
    fn push(&mut self, place: u32, offset: i64) -> Result<(), Memory>
        ensures points { self.new.points.items ≡ self.old.points.items }
        ensures places { OnOk result (self.new.places.items ≡ self.old.places.items ++ place ∷ []) }
        ensures offsets { OnOk result (self.new.offsets.items ≡ self.old.offsets.items ++ offset ∷ []) }
    {
        self.places.push(place)?;
        self.offsets.push(offset)?;
        Ok(())
    }

    /// Takes the next point as a row of its own.
    fn push_row(&mut self, point: u32) -> Result<(), Memory>
        requires { length self.old.points.items < 131072 }
        ensures points { OnOk result (self.new.points.items ≡ self.old.points.items ++ point ∷ []) }
        ensures places { OnOk result (self.new.places.items ≡ self.old.places.items ++ length self.old.points.items ∷ []) }
        ensures offsets { OnOk result (self.new.offsets.items ≡ self.old.offsets.items ++ pos 0 ∷ []) }
    {
        let row = self.points.len() as u32;
        self.push(row, 0)?;
        self.points.push(point)?;
        Ok(())
    }
}

/// Folds points, those of `fixed` with their times into row 0. Only those are found whose points
/// rise.
pub(crate) fn folding_of(alloc: Global, n: u32, fixed: &[Time]) -> Result<Folding, Memory>
    requires { (1 ≤ n) × (n ≤ 131072) }
    ensures { IfOk result (λ f. IsFolding n fixed.now f.points.items f.places.items f.offsets.items) }
{
    let mut folding = Folding::of_origin(alloc)?;
    let mut next = 0;
    for point in 1..n {
        if next < fixed.len() && fixed[next].point.0 == point {
            folding.push(0, fixed[next].at)?;
            next += 1;
        } else {
            folding.push_row(point)?;
        }
    }
    Ok(folding)
}

/// The bound between rows that a bound between points means.
fn fold_bound(n: u32, bound: &Bound, folding: &Folding) -> Bound
    requires range { IsInRange n bound.now }
    requires places { length folding.now.places.items ≡ n }
    requires offsets { IsNear n folding.now.offsets.items }
    ensures { result ≡ folded_bound folding.now.places.items folding.now.offsets.items bound.now }
{
    let from = bound.from.0 as usize;
    let to = bound.to.0 as usize;
    Bound {
        from: PointId(folding.places[from]),
        to: PointId(folding.places[to]),
        most: bound.most + folding.offsets[from] - folding.offsets[to],
    }
}

/// Takes a bound between two different points.
fn push_apart(bounds: &mut Vec<Bound>, bound: Bound) -> Result<(), Memory>
    ensures { OnOk result (bounds.new.items ≡ bounds.old.items ++ cond (is_apart bound) (bound ∷ []) []) }
{
    if bound.from.0 != bound.to.0 {
        bounds.push(bound)?;
    }
    Ok(())
}

/// The bounds between different rows that the bounds between points mean.
pub(crate) fn fold(
    alloc: Global,
    n: u32,
    bounds: &[Bound],
    folding: &Folding,
) -> Result<Vec<Bound>, Memory>
    requires range { All (IsInRange n) bounds.now }
    requires places { length folding.now.places.items ≡ n }
    requires offsets { IsNear n folding.now.offsets.items }
    ensures { IfOk result (λ v. v.items ≡ folded_bounds folding.now.places.items folding.now.offsets.items bounds.now) }
{
    let mut folded = Vec::new(alloc);
    for bound in bounds {
        push_apart(&mut folded, fold_bound(n, bound, folding))?;
    }
    Ok(folded)
}

/// The times of the rows' points.
pub(crate) fn times_of_rows(
    alloc: Global,
    points: &[u32],
    times: &[i64],
) -> Result<Vec<i64>, Memory>
    requires { All (λ p. p < length times.now) points.now }
    ensures { IfOk result (λ v. v.items ≡ map (time_of times.now) points.now) }
{
    let mut taken = Vec::with_capacity(alloc, points.len())?;
    for point in points {
        taken.push(times[*point as usize])?;
    }
    Ok(taken)
}
