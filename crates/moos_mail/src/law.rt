// The rule of delivery, entry by entry.
ghost use Rattle.std.specs.Prelude.{◌≡◌, ◌↔◌, ◌++◌, ℕ, ◌<◌, ◌≤◌, Contains, List, length, map, take};
ghost use Rattle.moos_post.specs.Delivery.{inbox_of, mail_after, mail_at, mailed_to};
ghost use Rattle.moos_post.specs.declared.registration.Reg.{Reg};
ghost use Rattle.moos_post.specs.History.{History, posts_of};
ghost use Rattle.moos_mail.specs.Registrations.{IsLive, MadeReg, is_mailed_at, is_to_mail, live_at, live_before};
ghost use Rattle.moos_mail.specs.Sentences.{AreOnceEach, given_at, given_before, HearsAll, numbers_mailed, numbers_selected, posts_before};

/// What holds of the delivery rule, which is told entry by entry, in sentences about the places of a history: each post is
/// mailed at most once, when it was made or later; a fetch gives just what was mailed since the fetch before; a post is
/// mailed just if it is due or catches up; and which registrations are live where, and which posts came through them.
/// All mails of a client joined, and then what waits for it, are all that was mailed to it, in order; and to a client that
/// registers once, before anybody posts, without an interval, that is each post that its registrations select, if stamps
/// don't fall. It does nothing.
pub fn delivery_law()
    ensures once { (names : List (List ℕ)) (client : ℕ) (history : History) → AreOnceEach history (mailed_to names client history) }
    ensures given { (names : List (List ℕ)) (history : History) (k : ℕ) → mail_at names history k ≡ given_at names history k }
    ensures mailed { (names : List (List ℕ)) (client : ℕ) (history : History) (n e : ℕ) → e < length history → is_mailed_at n e (mailed_to names client history) ≡ is_to_mail names client history n e }
    ensures live { (names : List (List ℕ)) (client : ℕ) (history : History) (k : ℕ) → k ≤ length history → (inbox_of names client (take k history)).lives ≡ map (live_at names client history (posts_before history k)) (live_before client history k) }
    ensures places { (client : ℕ) (history : History) (k : ℕ) (made : MadeReg) → (Contains (live_before client history k) made ↔ IsLive client history k made) }
    ensures joined { (names : List (List ℕ)) (client : ℕ) (history : History) (k : ℕ) → k ≤ length history →
        given_before names client history k ++ mail_after names client (take k history) ≡ numbers_mailed names client (take k history) }
    ensures selected { (names : List (List ℕ)) (client : ℕ) (regs : List Reg) (history : History) → HearsAll client regs history →
        numbers_mailed names client history ≡ numbers_selected names regs 0 (posts_of history) }
{}
