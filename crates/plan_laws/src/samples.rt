ghost use Rattle.std.specs.Prelude.{◌≡◌, true, false, pos, [], ◌∷◌, length, map};
ghost use Rattle.hs_base.specs.Schedule.{MeetsList, numbers_from};
ghost use Rattle.hs_base.specs.Points.{count, is_observed, start, stop, hor};
ghost use Rattle.hs_base.specs.Bounds.{bounds_of};
ghost use Rattle.hs_base.specs.Checked.{free_points};
ghost use Rattle.base_laws.specs.Samples.{smallest, smallest_plan, camera, camera_plan, camera_times, token};

/// The smallest plan has a schedule.
pub fn the_smallest_plan_has_a_schedule()
    ensures { MeetsList 4 (bounds_of smallest smallest_plan) (pos 0 ∷ pos 10 ∷ pos 2 ∷ pos 11 ∷ []) }
{}

/// The camera plan has eight points, 51 bounds and a schedule.
pub fn the_camera_plan_has_a_schedule()
    ensures points { count camera_plan ≡ 8 }
    ensures free { free_points camera_plan ≡ 8 }
    ensures bounds { length (bounds_of camera camera_plan) ≡ 51 }
    ensures schedule { MeetsList 8 (bounds_of camera camera_plan) camera_times }
    ensures horizon { hor camera_plan 1 ≡ 1 }
    ensures shoot { (start camera_plan (token 0 1) ≡ 2) × (stop camera_plan (token 0 1) ≡ 3) }
    ensures observed { map (is_observed camera camera_plan) (numbers_from 0 8) ≡ false ∷ false ∷ false ∷ true ∷ false ∷ false ∷ true ∷ false ∷ [] }
{}
