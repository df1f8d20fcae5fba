ghost use Rattle.std.specs.Prelude.{◌≡◌, ℕ, Bool, true, false, pos, List, [], ◌∷◌, length, map};
ghost use Rattle.base_laws.specs.Samples.{camera, camera_plan};
ghost use Rattle.search_tree.specs.Flaws.{flaws};
ghost use Rattle.search_tree.specs.Extends.{extension};
ghost use Rattle.search_tree.specs.Search.{offspring};
ghost use Rattle.search_tree.specs.Trial.{visits, node_at};
ghost use Rattle.search_tree.specs.Samples.{nothing, early_camera, meeting, meeting_plan, meeting_begun, pacing, second_children, moving, moving_begun, moving_extension, choosing, choosing_plan};

/// The camera mission takes ten nodes, of which one has no schedule.
pub fn the_camera_search_takes_ten_nodes()
    ensures nodes { visits camera nothing 11 ≡ (true, []) ∷ (true, 0 ∷ []) ∷ (true, 0 ∷ 0 ∷ []) ∷ (true, 0 ∷ 0 ∷ 0 ∷ []) ∷ (false, 0 ∷ 0 ∷ 0 ∷ 0 ∷ []) ∷ (true, 0 ∷ 0 ∷ 0 ∷ 1 ∷ []) ∷ (true, 0 ∷ 0 ∷ 0 ∷ 1 ∷ 0 ∷ []) ∷ (true, 0 ∷ 0 ∷ 0 ∷ 1 ∷ 0 ∷ 0 ∷ []) ∷ (true, 0 ∷ 0 ∷ 0 ∷ 1 ∷ 0 ∷ 0 ∷ 0 ∷ []) ∷ (true, 0 ∷ 0 ∷ 0 ∷ 1 ∷ 0 ∷ 0 ∷ 0 ∷ 0 ∷ []) ∷ (true, 0 ∷ 0 ∷ 0 ∷ 1 ∷ 0 ∷ 0 ∷ 1 ∷ []) ∷ [] }
    ensures plan { extension camera nothing (node_at camera nothing (0 ∷ 0 ∷ 0 ∷ 1 ∷ 0 ∷ 0 ∷ 0 ∷ 0 ∷ [])).plan ∷ [] ≡ camera_plan }
    ensures flawless { flaws camera nothing (node_at camera nothing (0 ∷ 0 ∷ 0 ∷ 1 ∷ 0 ∷ 0 ∷ 0 ∷ 0 ∷ [])).plan ≡ [] }
{}

/// A goal that has to start at once leaves two nodes.
pub fn an_early_goal_leaves_two_nodes()
    ensures { visits early_camera nothing 10 ≡ (true, []) ∷ (false, 0 ∷ []) ∷ [] }
{}

/// A need that has to wait takes four nodes.
pub fn a_waiting_need_takes_four_nodes()
    ensures nodes { visits meeting nothing 4 ≡ (true, []) ∷ (false, 0 ∷ []) ∷ (true, 1 ∷ []) ∷ (true, 1 ∷ 0 ∷ []) ∷ [] }
    ensures plan { extension meeting nothing (node_at meeting nothing (1 ∷ 0 ∷ [])).plan ∷ [] ≡ meeting_plan }
{}

/// The second plan serves the need that waited.
pub fn the_next_plan_serves_what_waited()
    ensures nodes { visits meeting meeting_begun 7 ≡ (true, []) ∷ (true, 0 ∷ []) ∷ (false, 0 ∷ 0 ∷ []) ∷ (true, 0 ∷ 1 ∷ []) ∷ (true, 0 ∷ 1 ∷ 0 ∷ []) ∷ (true, 0 ∷ 1 ∷ 0 ∷ 0 ∷ []) ∷ (true, 0 ∷ 1 ∷ 0 ∷ 0 ∷ 0 ∷ []) ∷ [] }
    ensures flawless { flaws meeting meeting_begun (node_at meeting meeting_begun (0 ∷ 1 ∷ 0 ∷ 0 ∷ 0 ∷ [])).plan ≡ [] }
{}

/// A plan is extended behind a fixed point.
pub fn a_plan_is_extended_behind_a_fixed_point()
    ensures nodes { map (λ (p : Bool × List ℕ). p.0) (visits moving moving_begun 10) ≡ true ∷ true ∷ false ∷ true ∷ true ∷ false ∷ true ∷ true ∷ true ∷ true ∷ [] }
    ensures flawless { flaws moving moving_begun (node_at moving moving_begun (0 ∷ 1 ∷ 0 ∷ 1 ∷ 0 ∷ 0 ∷ 0 ∷ [])).plan ≡ [] }
    ensures plan { extension moving moving_begun (node_at moving moving_begun (0 ∷ 1 ∷ 0 ∷ 1 ∷ 0 ∷ 0 ∷ 0 ∷ [])).plan ≡ moving_extension }
{}

/// The 129th new token is not tried; a shorter horizon has its plan at the tenth node.
pub fn tokens_come_to_an_end()
    ensures nodes { length (visits (pacing (pos 9)) nothing 20) ≡ 11 }
    ensures path { map (λ (p : Bool × List ℕ). p.0) (visits (pacing (pos 9)) nothing 10) ≡ true ∷ false ∷ true ∷ false ∷ true ∷ false ∷ true ∷ false ∷ true ∷ true ∷ [] }
    ensures flawless { flaws (pacing (pos 9)) nothing (node_at (pacing (pos 9)) nothing (1 ∷ 1 ∷ 1 ∷ 1 ∷ 0 ∷ [])).plan ≡ [] }
    ensures full { length (offspring (pacing (pos 257)) nothing (node_at (pacing (pos 257)) nothing (second_children 127))) ≡ 1 }
    ensures room { length (offspring (pacing (pos 257)) nothing (node_at (pacing (pos 257)) nothing (second_children 126))) ≡ 2 }
{}

/// The second choice of a need takes seven nodes.
pub fn the_second_choice_takes_seven_nodes()
    ensures path { map (λ (p : Bool × List ℕ). p.1) (visits choosing nothing 7) ≡ [] ∷ (0 ∷ []) ∷ (1 ∷ []) ∷ (1 ∷ 0 ∷ []) ∷ (1 ∷ 1 ∷ []) ∷ (1 ∷ 1 ∷ 0 ∷ []) ∷ (1 ∷ 1 ∷ 0 ∷ 0 ∷ []) ∷ [] }
    ensures plan { extension choosing nothing (node_at choosing nothing (1 ∷ 1 ∷ 0 ∷ 0 ∷ [])).plan ∷ [] ≡ choosing_plan }
    ensures flawless { flaws choosing nothing (node_at choosing nothing (1 ∷ 1 ∷ 0 ∷ 0 ∷ [])).plan ≡ [] }
{}
