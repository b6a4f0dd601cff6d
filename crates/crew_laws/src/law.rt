// What a crew may rely on of a helm among other clients, and of a simulated vehicle.
ghost use Rattle.crew_laws.specs.Braking.{NeverSlows, NoThrustAtZero, SlowsByBraking, StopsInSteps, StopsInTurns};
ghost use Rattle.crew_laws.specs.Hearing.{HeardFromItsStamp, HearsPostsInTime, MailedIfInTime, NoneIsOvertaken};
ghost use Rattle.crew_laws.specs.Inputs.{SameInputSameIterations};
ghost use Rattle.crew_laws.specs.Overrides.{HoldsFromItsStamp, ParkedByLastInTime, ParkedByLastPost};
ghost use Rattle.crew_laws.specs.Races.{InTimeIfAlone};
ghost use Rattle.crew_laws.specs.Runs.{OfEveryRun};
ghost use Rattle.script_reader.specs.declared.script.Order.{Order};
ghost use Rattle.script_reader.specs.declared.script.Order.TheVariants.{Stamp};

/// What holds of the posts that a helm hears: those of what it reads that come in time, at its next tick. In order Stamp all come in
/// time, and it hears each first at its first tick at or after the post's stamp; in a race those that one client alone posts do. It
/// does nothing.
pub fn hearing_law()
    ensures heard { (order : Order) → OfEveryRun order HearsPostsInTime }
    ensures mailed { (order : Order) → OfEveryRun order MailedIfInTime }
    ensures in_time { OfEveryRun Stamp NoneIsOvertaken }
    ensures first { OfEveryRun Stamp HeardFromItsStamp }
    ensures alone { InTimeIfAlone }
{
    moos_mail::delivery_law();
}

/// What holds of the posts of an override: the last one that comes in time parks the helm or gives the vehicle back, in order Stamp
/// from the helm's first tick at or after its stamp on. It does nothing.
pub fn obeying_law()
    ensures last_in_time { (order : Order) → OfEveryRun order ParkedByLastInTime }
    ensures last { OfEveryRun Stamp ParkedByLastPost }
    ensures holds { OfEveryRun Stamp HoldsFromItsStamp }
{
    moos_mail::delivery_law();
}

/// What holds of two histories in which a helm hears the same: its iterations are the same. It does nothing.
pub fn repeating_law()
    ensures { SameInputSameIterations }
{
    helm_laws::input_law();
}

/// What holds of a vehicle without thrust: it slows down step by step, and lies still once its steps may have taken off its greatest
/// speed, if a step takes off anything. It does nothing.
pub fn braking_law()
    ensures slows { SlowsByBraking }
    ensures steps { StopsInSteps }
    ensures never { NeverSlows }
    ensures thrust { NoThrustAtZero }
    ensures turns { StopsInTurns }
{
    sim_vehicle::ranges_law();
}
