ghost use Rattle.std.specs.Prelude.{◌≡◌, ◌↔◌, ℕ, false, List, length};
ghost use Rattle.hs_base.specs.declared.net.Bound.{Bound};
ghost use Rattle.hs_base.specs.declared.net.Net.{Net};
ghost use Rattle.hs_base.specs.Schedule.{Schedule, Meets};
ghost use Rattle.hs_base.specs.Network.{Admits, spread};
ghost use Rattle.hs_base.specs.Reduced.{Table, IsReducedOf, dominates, reduced};
ghost use Rattle.net_laws.specs.Camera.{camera_table};
ghost use Rattle.net_laws.specs.Dominance.{OfLeaders, NestsFirst, NestsLast, UpperComposes, LowerComposes, UpperIsKept, LowerIsKept};

/// What stands between a leader and one between stands between the ends.
pub fn between_is_nested()
    ensures first { OfLeaders NestsFirst }
    ensures last { OfLeaders NestsLast }
{}

/// Dominance is a strict order of the edges to one leader that aren't negative, and one of the
/// negative edges from one leader.
pub fn dominance_is_a_strict_order()
    ensures irreflexive { (d : Table) (a e : ℕ) → (dominates d a e a ≡ false) × (dominates d a e e ≡ false) }
    ensures upper { OfLeaders UpperComposes }
    ensures lower { OfLeaders LowerComposes }
{}

/// A dominated edge is dominated by a kept one.
pub fn a_kept_edge_dominates()
    ensures upper { OfLeaders UpperIsKept }
    ensures lower { OfLeaders LowerIsKept }
{}

/// The reduced network admits exactly the schedules of its bounds, is the reduced network of what it
/// spreads to, and is the only one of those bounds.
pub fn the_reduced_network_is_exact()
    ensures exact { (c : ℕ) (k : List Bound) (n : Net) → IsReducedOf c k n → (s : Schedule) → Admits n s ↔ Meets k s }
    ensures again { (c : ℕ) (k : List Bound) (n : Net) → IsReducedOf c k n → IsReducedOf c (spread n) n }
    ensures one { (c : ℕ) (k : List Bound) (m n : Net) → IsReducedOf c k m → IsReducedOf c k n → m ≡ n }
{}

/// The definition computes the camera plan's network from its table: seven groups and fourteen edges.
pub fn the_camera_network()
    ensures groups { length (reduced 8 camera_table).groups ≡ 7 }
    ensures edges { length (reduced 8 camera_table).edges ≡ 14 }
{}
