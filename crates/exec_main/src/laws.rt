// What comes of good inputs, where the source tells its bytes and no read fails.
ghost use Rattle.std.specs.Prelude.{◌≡◌, ℕ, List, [], ◌∷◌, length, Some, None};
ghost use Rattle.std.specs.declared.option.Option.{Option as OptionOf};
ghost use Rattle.hs_texts.specs.declared.ast.Ast.{Ast};
ghost use Rattle.hs_base.specs.declared.mission.Mission.{Mission};
ghost use Rattle.hs_base.specs.declared.plan.Extension.{Extension};
ghost use Rattle.hs_texts.specs.CanonicalText.{canonical};
ghost use Rattle.hs_base.specs.Checked.{Checked};
ghost use Rattle.hs_texts.specs.ClosingText.{checked_line};
ghost use Rattle.search_tree.specs.Tree.{Found};
ghost use Rattle.plan_search.specs.First.{FindsFirst};
ghost use Rattle.command_line.specs.declared.request.Command.TheVariants.{Print, Plan, Check, Net, Sim};
ghost use Rattle.command_line.specs.declared.request.Request.{Request};
ghost use Rattle.commands.specs.Checks.{IsFaulty};
ghost use Rattle.commands.specs.Inputs.{IsGiven, IsWhole};
ghost use Rattle.commands.specs.Plans.{IsNetText, IsPlanText};
ghost use Rattle.commands.specs.Prints.{IsAccepted};
ghost use Rattle.commands.specs.Searches.{IsToldOf};
ghost use Rattle.commands.specs.Runs.{IsSimTold};
ghost use Rattle.commands.specs.Sims.{HasOneHorizon};
ghost use Rattle.simulation_laws.specs.Ended.{Heard};
ghost use Rattle.commands.specs.declared.status.Status.TheVariants.{Done, PlanRefused};
ghost use Rattle.exec_main.specs.Ground.{Delivers, Writes, WritesSuch};

/// The canonical text of an accepted mission is written under `print`, or a front of it with a write
/// fault.
pub fn accepted_missions_are_printed()
    ensures { (q : Request) (heard : List Heard) (bytes : List ℕ) (a : Ast) (result : ℕ) (left taken taken_after : OptionOf (List ℕ)) → q.command ≡ Print → IsAccepted bytes a → Delivers q heard result (Some bytes) left taken taken_after → Writes result Done taken taken_after (canonical a) }
{}

/// How many extensions a checked plan has is written under `check`.
pub fn checked_plans_are_told()
    ensures { (q : Request) (heard : List Heard) (bytes : List ℕ) (m : Mission) (es : List Extension) (result : ℕ) (left taken taken_after : OptionOf (List ℕ)) → q.command ≡ Check → IsGiven bytes m es → Checked m es → Delivers q heard result (Some bytes) left taken taken_after → Writes result Done taken taken_after (checked_line (length es)) }
{}

/// A mission of one horizon is run under `sim` by the checked plan of one extension that follows it,
/// and what is told of the run is written with its status.
pub fn missions_are_run_by_their_plans()
    ensures { (q : Request) (heard : List Heard) (bytes : List ℕ) (m : Mission) (e : Extension) (result : ℕ) (left taken taken_after : OptionOf (List ℕ)) → q.command ≡ Sim → IsGiven bytes m (e ∷ []) → HasOneHorizon m → Checked m (e ∷ []) → Delivers q heard result (Some bytes) left taken taken_after → WritesSuch (IsSimTold q.budget (Some e) heard m) result taken taken_after }
{}

/// The first fault of a plan that breaks a rule is told with status 11: under `check`, and under `sim`
/// where it has one extension and is for a mission of one horizon.
pub fn faulty_plans_are_told_their_faults()
    ensures checks { (q : Request) (heard : List Heard) (bytes : List ℕ) (m : Mission) (es : List Extension) (result : ℕ) (left taken taken_after : OptionOf (List ℕ)) → q.command ≡ Check → IsGiven bytes m es → (Checked m es → ⊥) → Delivers q heard result (Some bytes) left taken taken_after → (text : List ℕ) × IsFaulty m es text × Writes result PlanRefused taken taken_after text }
    ensures sims { (q : Request) (heard : List Heard) (bytes : List ℕ) (m : Mission) (es : List Extension) (result : ℕ) (left taken taken_after : OptionOf (List ℕ)) → q.command ≡ Sim → IsGiven bytes m es → HasOneHorizon m → length es ≡ 1 → (Checked m es → ⊥) → Delivers q heard result (Some bytes) left taken taken_after → (text : List ℕ) × IsFaulty m es text × Writes result PlanRefused taken taken_after text }
{}

/// What the search of the words' budget finds for an accepted mission is told under `plan`: the plan
/// with status 0, with 3 that there is none, or with 4 where the nodes ended.
pub fn first_plans_are_told()
    ensures { (q : Request) (heard : List Heard) (bytes : List ℕ) (m : Mission) (found : Found Extension) (result : ℕ) (left taken taken_after : OptionOf (List ℕ)) → q.command ≡ Plan → IsWhole bytes m → FindsFirst m q.budget found → Delivers q heard result (Some bytes) left taken taken_after → WritesSuch (IsToldOf m [] (IsPlanText m) found) result taken taken_after }
{}

/// The same under `net`, with the network of the plan in place of the plan.
pub fn networks_are_told()
    ensures { (q : Request) (heard : List Heard) (bytes : List ℕ) (m : Mission) (found : Found Extension) (result : ℕ) (left taken taken_after : OptionOf (List ℕ)) → q.command ≡ Net → IsWhole bytes m → FindsFirst m q.budget found → Delivers q heard result (Some bytes) left taken taken_after → WritesSuch (IsToldOf m [] (IsNetText m) found) result taken taken_after }
{}

/// A mission of one horizon alone is run under `sim` by the plan that a search of the words' budget
/// finds, and what is told of the run is written with its status.
pub fn missions_alone_are_run()
    ensures { (q : Request) (heard : List Heard) (bytes : List ℕ) (m : Mission) (result : ℕ) (left taken taken_after : OptionOf (List ℕ)) → q.command ≡ Sim → IsWhole bytes m → HasOneHorizon m → Delivers q heard result (Some bytes) left taken taken_after → WritesSuch (IsSimTold q.budget None heard m) result taken taken_after }
{}
