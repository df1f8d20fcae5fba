ghost use Rattle.std.specs.Prelude.{◌≡◌, ◌-◌, ◌∷◌, ◌++◌, [], ℕ, ℤ, List, get_or, length, min};
ghost use Rattle.hs_base.specs.declared.ids.WordId.{WordId};
ghost use Rattle.hs_base.specs.declared.mission.Said.{Said};
ghost use Rattle.hs_base.specs.declared.mission.Step.{Step};
ghost use Rattle.hs_port.specs.declared.device.Answer.{Answer};
ghost use Rattle.device_script.specs.Runs.{Orders, Stage, begun, hearing};
ghost use Rattle.device_script.specs.Passed.{HasCome};
ghost use Rattle.device_script.specs.Sayings.{Answers, Clauses, HasHeard, Saying, begins, clauses_behind, next_clause};

/// The orders that a runner gave, and those that it may give now, are those of the steps that it has
/// passed, in order: so it is at its beginning, after each answer, and after each order.
pub fn the_orders_of_a_runner_are_those_of_the_steps_it_passed()
    ensures begins { (steps : List Step) → HasCome steps [] (begun steps) }
    ensures hears { (steps : List Step) (given : Orders) (s : Stage) (answer : Answer) → HasCome steps given s → HasCome steps given (hearing s answer) }
    ensures gives { (steps : List Step) (given ready : Orders) (s : Stage) (order : WordId × ℤ) → HasCome steps given s → s.ready ≡ order ∷ ready
        → HasCome steps (given ++ order ∷ []) (record { ready = ready; left = s.left }) }
{}

/// The words that a device said of a clause since its begin, and those that are left, are the clause:
/// each is said once, in order, and a poll says one at most.
pub fn a_clause_is_said_word_by_word()
    ensures begins { (value : ℕ) (now : ℤ) (s : Saying) → HasHeard (next_clause (get_or s.values value [])) [] (begins value now s) }
    ensures waits { (clause : List Said) (heard : List WordId) (s after : Saying) (now : ℤ) → HasHeard clause heard s → Answers s now Answer.Quiet after → HasHeard clause heard after }
    ensures says { (clause : List Said) (heard : List WordId) (s after : Saying) (now : ℤ) (word : WordId) → HasHeard clause heard s → Answers s now (Answer.Said word) after → HasHeard clause (heard ++ word ∷ []) after }
{}

/// The token of number n, from 0, of a value takes the clause of that number, or the last one.
pub fn each_token_takes_the_next_clause_or_the_last()
    ensures { (clauses : Clauses) (n : ℕ) → next_clause (clauses_behind n clauses) ≡ get_or clauses (min n (length clauses - 1)) [] }
{}
