//! Laws of the rounds of a schedule.

ghost use Rattle.std.specs.Prelude.{◌≡◌, ℕ, List, []};
ghost use Rattle.resp_schedule.specs.Plans.{Plan, due_of, next_round};
ghost use Rattle.resp_schedule.specs.Rounds.{Visits};

/// A round visits exactly the places that are due when it begins, each once and in their order. All
/// places that are queued when it ends are due in the next round.
pub fn a_round_visits_what_is_due()
    ensures in_order { (start end : Plan) (places : List ℕ) → Visits start places end →
        due_of end ≡ [] → places ≡ due_of start }
    ensures all_are_next { (plan : Plan) → due_of (next_round plan) ≡ plan.queue }
{}
