// What a crew asks of a helm: laws of its iterations, whatever it hears.
ghost use Rattle.helm_laws.specs.Approaches.{WorthOfApproach, WorthOfEachApproach};
ghost use Rattle.helm_laws.specs.Bargains.{NothingForNothing};
ghost use Rattle.helm_laws.specs.Bounds.{BoundsKept, DepthKept, WorthIsBounded};
ghost use Rattle.helm_laws.specs.Desires.{DesiresInDomain};
ghost use Rattle.helm_laws.specs.Files.{OfEveryPlan, OfValidFiles};
ghost use Rattle.helm_laws.specs.Influences.{SaysNothingUnstepped, WithoutInfluence};
ghost use Rattle.helm_laws.specs.Inputs.{SameInputSameIteration};
ghost use Rattle.helm_laws.specs.Overrides.{HoldsFromOverride, ParkedBeforeOverride, ParkedDecideNothing, SilentWhileParked};
ghost use Rattle.helm_laws.specs.Regions.{FaultStops, LatenessFaults, LeavingFaults, LosingFaults, SinkingFaults};
ghost use Rattle.helm_laws.specs.Reliance.{IsReliable};
ghost use Rattle.helm_laws.specs.States.{CompletedHasNoSay, IdleHasNoSay, WeightlessHasNoSay};
ghost use Rattle.helm_laws.specs.Stops.{DrivesOtherwise, ReasonIsTold, StaysStopped, StoppedDecideNothing, StopsAtOnce};

/// What holds of every helm that must stop: its last word on the speed is 0, and stays so until an iteration in which it need not;
/// there it is the decided one. It does nothing.
pub fn stop_law()
    ensures at_once { OfEveryPlan StopsAtOnce }
    ensures stays { OfEveryPlan StaysStopped }
    ensures drives { OfEveryPlan DrivesOtherwise }
    ensures told { OfEveryPlan ReasonIsTold }
    ensures nothing { OfEveryPlan StoppedDecideNothing }
{}

/// What holds of what a helm desires: it is in the domain, but for the speed 0 of a vehicle that must stop. It does nothing.
pub fn domain_law()
    ensures { OfEveryPlan DesiresInDomain }
{}

/// What holds of behaviours without a say: they change nothing that is decided or desired, nor why the vehicle must stop. It does
/// nothing.
pub fn influence_law()
    ensures without { OfEveryPlan WithoutInfluence }
    ensures unstepped { SaysNothingUnstepped }
{}

/// What holds of behaviours by their states: one that is idle, completed, or of weight 0 without a fault has no say. It does
/// nothing.
pub fn state_law()
    ensures idle { IdleHasNoSay }
    ensures completed { CompletedHasNoSay }
    ensures weightless { WeightlessHasNoSay }
{}

/// What holds of faults: each stops the vehicle in that very iteration, and is told there; and an operating region raises one when
/// the vehicle is lost, has left it, is too deep or too late. It does nothing.
pub fn region_law()
    ensures stops { OfEveryPlan FaultStops }
    ensures losing { LosingFaults }
    ensures leaving { LeavingFaults }
    ensures sinking { SinkingFaults }
    ensures lateness { LatenessFaults }
{}

/// What holds of bounds that a behaviour of a valid file wants, and of a greatest depth: if it outweighs the others, it is kept. It
/// does nothing.
pub fn bound_law()
    ensures kept { OfValidFiles BoundsKept }
    ensures bounded { OfValidFiles WorthIsBounded }
    ensures depths { OfValidFiles DepthKept }
{
    helm_core::worth_law();
}

/// What holds of what a helm of valid files decides for some behaviours against others: none is given up for nothing. It does
/// nothing.
pub fn bargain_law()
    ensures { OfValidFiles NothingForNothing }
{
    helm_core::worth_law();
}

/// What holds of keeping clear of a contact: at the points where its utility is sampled it is worth what the closest approach
/// itself says. It does nothing.
pub fn approach_law()
    ensures sampled { WorthOfApproach }
    ensures each { WorthOfEachApproach }
{}

/// What holds of the manual override: from the iteration that hears it on it parks the helm, or gives the vehicle back, and a parked
/// helm decides nothing. It does nothing.
pub fn override_law()
    ensures before { OfEveryPlan ParkedBeforeOverride }
    ensures holds { OfEveryPlan HoldsFromOverride }
    ensures nothing { OfEveryPlan ParkedDecideNothing }
    ensures silent { OfEveryPlan SilentWhileParked }
{}

/// What holds of two helms that hear the same: their iterations are the same. It does nothing.
pub fn input_law()
    ensures { OfEveryPlan SameInputSameIteration }
{
    helm_core::iterations_law();
}

/// What holds of every helm of valid files, whatever it hears: all that the other laws say of a plan. It does nothing.
pub fn reliable_law()
    ensures { OfValidFiles IsReliable }
{
    helm_core::worth_law();
    helm_core::iterations_law();
}
