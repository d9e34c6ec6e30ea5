//! Laws of differences.
ghost use Rattle.std.specs.Prelude.{◌≡◌, ◌↔◌, ℕ, List, []};
ghost use Rattle.dp_plan.specs.Plan.{PlanOf};
ghost use Rattle.dp_diff.specs.Alike.{AnswerAlike};
ghost use Rattle.dp_diff.specs.Differences.{differences};
ghost use Rattle.dp_diff.specs.Reaches.{ReachOf, only_reached, reaches};

/// A dialplan has no differences from itself. This function does nothing.
pub fn an_unchanged_plan_has_no_differences()
    ensures { (plan : PlanOf) → differences plan plan ≡ [] }
{}

/// There are no differences exactly if each context answers alike before and after the change: at each name and priority, the first entry
/// that a look-up in it meets does the same, or there is none both times. This function does nothing.
pub fn plans_without_differences_answer_alike()
    ensures { (before after : PlanOf) → (differences before after ≡ []) ↔ AnswerAlike before after }
{}

/// If neither the dialplan nor the entries that a call may run have changed, it reaches no context only before or only after. This function
/// does nothing.
pub fn an_unchanged_plan_is_reached_alike()
    ensures { (reach : ReachOf) → only_reached reach reach ≡ [] }
{}

/// A call reaches no contexts only before and none only after a change exactly if it reaches the same contexts, by their names. This function
/// does nothing.
pub fn what_only_one_reaches_is_all_that_differs()
    ensures { (before after : ReachOf) → ((only_reached before after ≡ []) × (only_reached after before ≡ []))
        ↔ ((name : List ℕ) → reaches before name ≡ reaches after name) }
{}
