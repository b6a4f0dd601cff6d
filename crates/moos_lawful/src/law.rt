// What holds of every schedule, and of those of a script's lines beside clients that answer each tick.
ghost use Rattle.std.specs.Prelude.{ℕ, ◌+◌, ◌≤◌, ◌++◌, ◌∷◌, [], List, length};
ghost use Rattle.moos_client.specs.Hearing.{Mailed};
ghost use Rattle.moos_lawful.specs.Answering.{Answerer, schedule_of};
ghost use Rattle.moos_lawful.specs.Schedules.{Completion, IsLawfulSoFar, IsPlayable, Schedule};
ghost use Rattle.moos_lawful.specs.Widening.{IsBounded, IsWider};
ghost use Rattle.moos_post.specs.declared.entry.Entry.{Entry};
ghost use Rattle.moos_post.specs.History.{History};
ghost use Rattle.script_reader.specs.declared.script.Order.{Order};

/// A history that is lawful so far can be completed, by entries of the known clients alone. It does nothing.
pub fn completion_law<A>()
    ensures { (schedule : Schedule A) → IsPlayable schedule → (history : History) → IsLawfulSoFar schedule history → Completion schedule history }
{}

/// The schedule of a script's lines beside clients that answer each tick is playable, and one with more such clients behind the
/// first is wider than that with the first alone. It does nothing.
pub fn answering_law<A>()
    ensures playable { (order : Order) (lines : List Entry) (clients stop period : ℕ) (answerers : List (Answerer A)) (names : ℕ) (mailed : Mailed A) → clients + length answerers ≤ names → IsPlayable (schedule_of order lines clients stop period answerers names mailed) }
    ensures wider { (order : Order) (lines : List Entry) (clients stop period : ℕ) (first : Answerer A) (others : List (Answerer A)) (names : ℕ) (mailed : Mailed A) → clients + length (first ∷ others) ≤ names → IsWider (schedule_of order lines clients stop period (first ∷ []) names mailed) (schedule_of order lines clients stop period (first ∷ others) names mailed) }
{}

/// What is lawful so far for a play that knows some clients alone is so, within bounds, for its caller, who knows further ones. It
/// does nothing.
pub fn widening_law<A>()
    ensures { (short long : Schedule A) → IsPlayable short → IsWider short long → (history later : History) (so : IsLawfulSoFar long history) (now : IsLawfulSoFar short (history ++ later)) → IsBounded short long history later so now → IsLawfulSoFar long (history ++ later) }
{}
