// What may come next behind a history that is lawful so far.
ghost use Rattle.std.specs.Prelude.{ℕ, ◌<◌, ◌++◌, ◌∷◌, [], List};
ghost use Rattle.moos_client.specs.Hearing.{Mailed};
ghost use Rattle.moos_following.specs.Following.{IsStepwise, MayFollow};
ghost use Rattle.moos_lawful.specs.Answering.{Answerer, schedule_of};
ghost use Rattle.moos_lawful.specs.Schedules.{IsLawfulFor, IsLawfulSoFar, IsPlayable, Schedule};
ghost use Rattle.moos_post.specs.declared.entry.Entry.{Entry};
ghost use Rattle.moos_post.specs.History.{History};
ghost use Rattle.script_reader.specs.declared.script.Order.{Order};

/// What may come next behind a history that is lawful so far keeps it so; and each entry of a lawful history, if it is a known client's, may
/// come next behind those before it. The schedule of a script's lines beside clients that answer each tick is settled so. It does nothing.
pub fn following_law<A>()
    ensures on { (schedule : Schedule A) → IsPlayable schedule → (history : History) (so : IsLawfulSoFar schedule history) (entry : Entry) → MayFollow schedule history so entry → IsLawfulSoFar schedule (history ++ entry ∷ []) }
    ensures only { (schedule : Schedule A) → IsStepwise schedule → (history more : History) (so : IsLawfulSoFar schedule history) (entry : Entry) → entry.client < schedule.known → IsLawfulFor schedule (history ++ entry ∷ more) → MayFollow schedule history so entry }
    ensures settled { (order : Order) (lines : List Entry) (clients stop period : ℕ) (answerers : List (Answerer A)) (names : ℕ) (mailed : Mailed A) → IsStepwise (schedule_of order lines clients stop period answerers names mailed) }
{}
