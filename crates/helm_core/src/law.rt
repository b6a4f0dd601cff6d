// Laws of iterations, for those who stand on a helm.
ghost use Rattle.std.specs.Prelude.{◌≡◌, ◌<◌, ◌++◌, ℕ, List, length};
ghost use Rattle.helm_core.specs.FirstSteps.{CountsFromFirstRun, NeverSteppedWithoutTime};
ghost use Rattle.helm_core.specs.Plans.{Plan};
ghost use Rattle.helm_core.specs.Ticks.{Tick};
ghost use Rattle.helm_core.specs.Iterations.{iteration_at};
ghost use Rattle.helm_core.specs.Lists.{AlwaysListed};
ghost use Rattle.helm_core.specs.Presence.{ThereUntilComplete};
ghost use Rattle.helm_core.specs.Names.{OneOfEachContact, ResolvedLeave, ValidFilesNameOnce};
ghost use Rattle.helm_core.specs.WellFormed.{ValidFilesPlanWell};
ghost use Rattle.helm_core.specs.Worths.{ValidFilesDecideByWorth};

/// What holds of the iterations of a helm: none depends on a later mail. It does nothing.
pub fn iterations_law()
    ensures { (plan : Plan) (ticks later : List Tick) (i : ℕ) → i < length ticks → iteration_at plan (ticks ++ later) i ≡ iteration_at plan ticks i }
{}

/// What holds of the list of a helm's behaviours in each iteration, whatever it hears: the behaviours of the file come first, in
/// its order, and none of them leaves; then come those that letters made, each by a later letter than the one before it, so no
/// letter made two of them; and none of these has completed for good. One that a letter made is there exactly from its making
/// until it completes for good. It does nothing.
pub fn list_law()
    ensures listed { AlwaysListed }
    ensures there { ThereUntilComplete }
{}

/// What holds of the names in the list of a helm of a valid behaviour file, whatever it hears: in each iteration at most one
/// behaviour has a given name, so at most one that of a contact, `avd_` and the contact's name. One that a letter made and
/// that isn't perpetual is done if it is stepped once its contact is clear for good, and leaves the list. It does nothing.
pub fn names_law()
    ensures once { ValidFilesNameOnce }
    ensures contacts { OneOfEachContact }
    ensures resolved { ResolvedLeave }
{}

/// What holds of what a helm of a valid mission and a valid behaviour file says, whatever it hears: its calls are as a call's
/// type lets them be, its mode is a text, the names that it tells of behaviours are names, and the axes that it decides over
/// have names. It does nothing.
pub fn plan_law()
    ensures { ValidFilesPlanWell }
{}

/// What holds of what a helm of a valid mission and a valid behaviour file decides, whatever it hears: the sum at each point is
/// what the point is worth to all behaviours, each one's weight in thousandths times its utility there. It does nothing.
pub fn worth_law()
    ensures { ValidFilesDecideByWorth }
{
    bhv_kinds::worth_law();
}

/// What holds of every helm, whatever it hears: the first step of a behaviour is made in the first iteration in which it runs, so
/// the time of an operating region counts from there. A behaviour of duration 0 is never stepped. It does nothing.
pub fn first_step_law()
    ensures counts { CountsFromFirstRun }
    ensures never { NeverSteppedWithoutTime }
{
    bhv_life::first_run_law();
}
