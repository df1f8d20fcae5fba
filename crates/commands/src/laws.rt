// The laws of what commands make of good inputs.
ghost use Rattle.std.specs.Prelude.{◌≡◌, ◌≢◌, ◌⊎◌, ℕ, List, [], ◌∷◌, length, Some, None};
ghost use Rattle.hs_texts.specs.declared.ast.Ast.{Ast};
ghost use Rattle.hs_base.specs.declared.mission.Mission.{Mission};
ghost use Rattle.hs_base.specs.declared.net.Bound.{Bound};
ghost use Rattle.hs_base.specs.declared.plan.Extension.{Extension};
ghost use Rattle.std.specs.declared.option.Option.{Option as OptionOf};
ghost use Rattle.hs_texts.specs.CanonicalText.{canonical};
ghost use Rattle.hs_base.specs.declared.fault.Fault.{Fault};
ghost use Rattle.hs_base.specs.declared.fault.Fault.TheVariants.{Memory as NoMemoryLeft};
ghost use Rattle.hs_base.specs.Checked.{schedule, Checked};
ghost use Rattle.hs_base.specs.Faults.{rule_of};
ghost use Rattle.hs_texts.specs.ClosingText.{checked_line};
ghost use Rattle.search_tree.specs.Tree.{Found};
ghost use Rattle.plan_search.specs.First.{FindsFirst};
ghost use Rattle.commands.specs.Inputs.{IsGiven, IsWhole};
ghost use Rattle.commands.specs.Plans.{IsNetText, IsPlanText, Nets, Plans};
ghost use Rattle.commands.specs.Searches.{IsToldOf};
ghost use Rattle.commands.specs.Prints.{IsAccepted, Prints};
ghost use Rattle.commands.specs.Checks.{IsFlaw, IsFaulty, Checks};
ghost use Rattle.simulation_laws.specs.Ended.{FindsEachPlan, Heard, IsFailedBy, RoseAt, takes_all};
ghost use Rattle.commands.specs.Runs.{IsSimTold};
ghost use Rattle.commands.specs.Sims.{HasOneHorizon, Sims};
ghost use Rattle.commands.specs.declared.status.Status.{Status as StatusOf};
ghost use Rattle.commands.specs.declared.status.Status.TheVariants.{Done, PlanRefused};

/// The text of an accepted mission is printed.
pub fn an_accepted_mission_is_printed()
    ensures { (bytes text : List ℕ) (a : Ast) (status : StatusOf) → IsAccepted bytes a → Prints bytes status text → (status ≡ Done) × (text ≡ canonical a) }
{}

/// A checked plan that follows its mission is judged sound.
pub fn a_checked_plan_is_sound()
    ensures { (bytes text : List ℕ) (m : Mission) (es : List Extension) (status : StatusOf) → IsGiven bytes m es → Checked m es → Checks bytes status text → (status ≡ Done) × (text ≡ checked_line (length es)) }
{}

/// A mission of one horizon is run by the checked plan of one extension that follows it.
pub fn a_mission_is_run_by_its_plan()
    ensures { (nodes : ℕ) (heard : List Heard) (bytes text : List ℕ) (m : Mission) (e : Extension) (status : StatusOf) → IsGiven bytes m (e ∷ []) → HasOneHorizon m → Checked m (e ∷ []) → Sims nodes heard bytes status text → IsSimTold nodes (Some e) heard m status text }
{}

/// A plan that breaks a rule is told its first fault, with status 11: under `check`, and under `sim`
/// where it has one extension and is for a mission of one horizon. It isn't run.
pub fn a_faulty_plan_is_told_its_fault()
    ensures checks { (bytes text : List ℕ) (m : Mission) (es : List Extension) (status : StatusOf) → IsGiven bytes m es → (Checked m es → ⊥) → Checks bytes status text → (status ≡ PlanRefused) × IsFaulty m es text }
    ensures sims { (nodes : ℕ) (heard : List Heard) (bytes text : List ℕ) (m : Mission) (es : List Extension) (status : StatusOf) → IsGiven bytes m es → HasOneHorizon m → length es ≡ 1 → (Checked m es → ⊥) → Sims nodes heard bytes status text → (status ≡ PlanRefused) × IsFaulty m es text }
{}

/// Of an accepted mission alone it is told what the search finds: the plan, or under `net` its
/// network, that there is none, or where the nodes ended.
pub fn what_a_search_finds_is_told()
    ensures plans { (nodes : ℕ) (bytes text : List ℕ) (m : Mission) (found : Found Extension) (status : StatusOf) → IsWhole bytes m → FindsFirst m nodes found → Plans nodes bytes status text → IsToldOf m [] (IsPlanText m) found status text }
    ensures nets { (nodes : ℕ) (bytes text : List ℕ) (m : Mission) (found : Found Extension) (status : StatusOf) → IsWhole bytes m → FindsFirst m nodes found → Nets nodes bytes status text → IsToldOf m [] (IsNetText m) found status text }
{}

/// A mission of one horizon alone is run by the plan that a search finds.
pub fn a_mission_alone_is_run()
    ensures { (nodes : ℕ) (heard : List Heard) (bytes text : List ℕ) (m : Mission) (status : StatusOf) → IsWhole bytes m → HasOneHorizon m → Sims nodes heard bytes status text → IsSimTold nodes None heard m status text }
{}

/// Where no device failed, no report came late or early, and the search finds a plan wherever one is
/// wanted, it is told that the run is done.
pub fn a_run_with_its_plans_is_done()
    ensures { (nodes : ℕ) (given : OptionOf Extension) (heard : List Heard) (m : Mission) (status : StatusOf) (text : List ℕ) (t : IsSimTold nodes given heard m status text)
        → ((d : ℕ) → RoseAt heard d → ⊥) → ((b : Bound) → IsFailedBy t.history b → ⊥) → FindsEachPlan takes_all m nodes t.history → status ≡ Done }
{}

/// A plan has one first flaw, but for which negative cycle is named.
pub fn a_plan_has_one_first_flaw()
    ensures { (m : Mission) (es : List Extension) (place other : ℕ) (f g : Fault) → f ≢ NoMemoryLeft → g ≢ NoMemoryLeft → IsFlaw m es place f → IsFlaw m es other g → (place ≡ other) × ((f ≡ g) ⊎ ((rule_of f ≡ schedule) × (rule_of g ≡ schedule))) }
{}
