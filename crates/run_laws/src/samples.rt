ghost use Rattle.std.specs.Prelude.{◌≡◌, pos, [], ◌∷◌, map, Some, None};
ghost use Rattle.hs_base.specs.declared.net.Net.{Net};
ghost use Rattle.hs_machine.specs.declared.history.Phase.TheVariants.{Waiting, Running};
ghost use Rattle.hs_base.specs.Schedule.{numbers_from};
ghost use Rattle.hs_machine.specs.State.{now_of, executed, plan_of, phase_of};
ghost use Rattle.hs_machine.specs.Views.{snapshot_of, line_of};
ghost use Rattle.base_laws.specs.Samples.{camera, camera_plan};
ghost use Rattle.run_laws.specs.Samples.{camera_history};

/// The state of the camera mission after its handover, two ticks and a fire between them.
pub fn the_camera_run_has_its_state()
    ensures waiting { phase_of [] ≡ Waiting }
    ensures running { (n : Net) → phase_of (camera_history n) ≡ Running }
    ensures now { (n : Net) → now_of (camera_history n) ≡ 2 }
    ensures plan { (n : Net) → plan_of (camera_history n) ≡ camera_plan }
    ensures times { (n : Net) → map (executed (camera_history n)) (numbers_from 0 8) ≡ Some (pos 0) ∷ None ∷ None ∷ None ∷ None ∷ Some (pos 1) ∷ None ∷ None ∷ [] }
    ensures snapshot { (n : Net) → snapshot_of camera (camera_history n) ≡ record { mission = camera; plan = camera_plan; since = pos 2; fixed = record { point = record { 0 = 5 }; at = pos 1 } ∷ []; front = 4 } }
    ensures line { (n : Net) → line_of camera (camera_history n) 1 ≡ record { place = 1; value = 1; end = 6; start = pos 1; time = pos 2; mark = 1; plans = 1; until = pos 100 } }
{}
