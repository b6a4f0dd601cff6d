// What one carrying posts.
ghost use Rattle.std.specs.Prelude.{ℕ, List, ◌++◌, ◌∷◌, []};
ghost use Rattle.moos_post.specs.declared.entry.Entry.{Entry};
ghost use Rattle.moos_share.specs.Carrying.{CarriesAll, HasCarried, SeatedBridge};
ghost use Rattle.moos_share.specs.Fetches.{IsAtStart, IsUpToDate, LosesNothing};

/// What holds over every list of calls of `carry`, each with memory or without: what the bridge has posted in the second community,
/// followed by the renaming of what it has not posted yet, is the renaming of all that it has fetched in the first. While each
/// call finds memory nothing is left, and there is one post for each fetch, at its stamp. A call of this does nothing: its
/// contract is what it is for.
pub fn carry_law()
    ensures start { (names : List (List ℕ)) (one : SeatedBridge) → IsAtStart one → LosesNothing names one }
    ensures all { (names : List (List ℕ)) (stamps : List ℕ) (one last : SeatedBridge) → CarriesAll names stamps one last → LosesNothing names one → LosesNothing names last }
    ensures up_to_date_start { (names : List (List ℕ)) (one : SeatedBridge) → IsAtStart one → IsUpToDate names one.from.mine [] one }
    ensures up_to_date { (names : List (List ℕ)) (opening : List Entry) (stamps : List ℕ) (stamp : ℕ) (before after : SeatedBridge) → HasCarried names stamp before after → IsUpToDate names opening stamps before → IsUpToDate names opening (stamps ++ stamp ∷ []) after }
{}
