ghost use Rattle.std.specs.Prelude.{◌≡◌, ℕ, Some, slice_get, length};
ghost use Rattle.hs_base.specs.declared.mission.Kind.{Kind};
ghost use Rattle.hs_base.specs.declared.mission.Value.{Value};
ghost use Rattle.hs_base.specs.declared.mission.Need.{Need};
ghost use Rattle.hs_base.specs.declared.mission.Choice.{Choice};
ghost use Rattle.hs_base.specs.declared.mission.Mission.{Mission};
ghost use Rattle.hs_base.specs.Points.{value_of};
ghost use Rattle.hs_base.specs.Needs.{needs_of, choice_by};
ghost use Rattle.hs_base.specs.Missions.{IsMission, IsValue, IsNeed, IsChoice};

/// The values, needs and choices that are looked up in a mission keep its rules.
pub fn parts_of_a_mission_keep_its_rules()
    ensures values { (m : Mission) (k : Kind) (v : Value) → IsMission m → value_of m k ≡ Some v → (values : ℕ) × IsValue (length m.words) values v }
    ensures needs { (m : Mission) (k : Kind) (i : ℕ) (n : Need) → IsMission m → slice_get (needs_of m k) i ≡ Some n → IsNeed m.vars n }
    ensures choices { (m : Mission) (k by : Kind) (i : ℕ) (n : Need) (c : Choice) → IsMission m → slice_get (needs_of m k) i ≡ Some n → choice_by n by ≡ Some c → IsChoice m.vars n.of c }
{}
