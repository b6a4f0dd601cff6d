// What all plays of one script and one helm have in common, however the calls of the clients fell between each other.
ghost use Rattle.play_laws.specs.Calm.{CalmHearTheSame};
ghost use Rattle.play_laws.specs.Ordered.{EachHasOrdered, OrderedIsSole, RisingIsOrdered};
ghost use Rattle.play_laws.specs.Parts.{PartsAreSame};

/// What holds of any two histories that plays of a script may leave, each in order Stamp or as a race: each client has the same
/// entries at the same stamps, the helm too but for what it posts, and each stamp has as many entries. It does nothing.
pub fn parts_law()
    ensures { PartsAreSame }
{}

/// What holds of two such histories in order Stamp if no two clients of one stamp get into each other's way: each client is mailed
/// the same, and the helm does the same. It does nothing.
pub fn calm_law()
    ensures { CalmHearTheSame }
{
    helm_laws::input_law();
}

/// What holds of the history in which a script's lines stand in the order of its file, and each tick behind the lines of its stamp:
/// it is lawful in order Stamp, it is the only one of those that are in the order of the file, and if no two lines have one stamp
/// it is the only one of all. It does nothing.
pub fn ordered_law()
    ensures each { EachHasOrdered }
    ensures sole { OrderedIsSole }
    ensures rising { RisingIsOrdered }
{
    helm_laws::input_law();
}
