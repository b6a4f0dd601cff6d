// What a bridge has posted at every moment, and what entries are in both histories.
ghost use Rattle.std.specs.Prelude.{◌≡◌, List, None};
ghost use Rattle.std.specs.List.{All};
ghost use Rattle.moos_bridged.specs.Entries.{AreEntries};
ghost use Rattle.moos_bridged.specs.Fronts.{HasCarriedAll, HasCarriedFront, letters_mailed};
ghost use Rattle.moos_bridged.specs.LeftOut.{HasCarriedEach, IsCarried};
ghost use Rattle.moos_post.specs.History.{History};
ghost use Rattle.moos_share.specs.Bridged.{bridge_number, IsBridged, IsShared, names_bridged};
ghost use Rattle.moos_share.specs.declared.rule.Rule.{Rule};
ghost use Rattle.moos_share.specs.LongNames.{too_long_line};
ghost use Rattle.moos_share.specs.Validity.{IsRule};
ghost use Rattle.script_reader.specs.declared.script.Order.{Order};
ghost use Rattle.script_reader.specs.declared.script.Script.{Script};
ghost use Rattle.script_reader.specs.Validity.{IsValid};
ghost use Rattle.turn_lock.specs.Passes.{Begins};

/// What holds of two bridged histories, in either order: at every place of the second, what the bridge has posted there by then is the
/// renaming of a front of all that the first mails to it, in the order of mailing. If the scripts' lines are all else that is
/// there, it has posted the renaming of all of that in the end. And if no rule makes the name of a variable too long that the first
/// script posts, no letter is left out: a rule selects each, and its new name is short enough. So there is one pair for each letter.
/// It does nothing.
pub fn bridged_law()
    ensures fronts { (order : Order) (first second : Script) (rules : List Rule) (one two front : History) → IsBridged order first second rules one two → Begins two front
        → HasCarriedFront first second rules one front }
    ensures all { (order : Order) (first second : Script) (rules : List Rule) (one two : History) → IsShared order first second rules one two → HasCarriedAll first second rules one two }
    ensures none_left_out { (order : Order) (first second : Script) (rules : List Rule) (one two : History) → IsShared order first second rules one two → too_long_line rules first.lines ≡ None
        → All (IsCarried (names_bridged first) rules) (letters_mailed (names_bridged first) (bridge_number first) one) }
    ensures each { (order : Order) (first second : Script) (rules : List Rule) (one two : History) → IsShared order first second rules one two → too_long_line rules first.lines ≡ None
        → HasCarriedEach first second rules one two }
{}

/// What holds of what is shared between two valid scripts by rules that are as their parts let them be: so are all entries, each by a
/// client of its community. It does nothing.
pub fn entries_law()
    ensures { (order : Order) (first second : Script) (rules : List Rule) (one two : History) → IsValid first → IsValid second → All IsRule rules → IsShared order first second rules one two
        → AreEntries first one × AreEntries second two }
{}
