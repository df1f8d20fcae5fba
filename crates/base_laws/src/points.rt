ghost use Rattle.std.specs.Prelude.{◌≡◌, ◌+◌, ◌≤◌, ◌<◌, ℕ, Some, List, [], ◌∷◌, ◌++◌, length, slice_get};
ghost use Rattle.hs_base.specs.declared.plan.Extension.{Extension};
ghost use Rattle.hs_base.specs.Points.{Point, points_of, count, tokens_of, timeline_of, ending, place_of, hor, start_at};

/// A plan has Z, a point for each extension and one for each token.
pub fn a_plan_has_so_many_points()
    ensures { (es : List Extension) → count es ≡ 1 + length es + length (tokens_of es) }
{}

/// Each point stands once, and the end of each token and each horizon is a point.
pub fn points_have_names_of_their_own()
    ensures once { (es : List Extension) (x : ℕ) (p : Point) → slice_get (points_of es) x ≡ Some p → place_of p (points_of es) ≡ x }
    ensures ends { (es : List Extension) (v i : ℕ) → i < length (timeline_of (tokens_of es) v) → place_of (ending v i) (points_of es) < count es }
    ensures horizons { (es : List Extension) (k : ℕ) → 0 < k → k ≤ length es → hor es k < count es }
{}

/// A further extension leaves the points their numbers.
pub fn points_keep_their_numbers()
    ensures ends { (es : List Extension) (e : Extension) (v i : ℕ) → i < length (timeline_of (tokens_of es) v) → place_of (ending v i) (points_of (es ++ e ∷ [])) ≡ place_of (ending v i) (points_of es) }
    ensures starts { (es : List Extension) (e : Extension) (v i : ℕ) → i ≤ length (timeline_of (tokens_of es) v) → start_at (es ++ e ∷ []) v i ≡ start_at es v i }
    ensures horizons { (es : List Extension) (e : Extension) (k : ℕ) → 0 < k → k ≤ length es → hor (es ++ e ∷ []) k ≡ hor es k }
    ensures new { (es : List Extension) (e : Extension) → hor (es ++ e ∷ []) (length es + 1) ≡ count es }
{}
