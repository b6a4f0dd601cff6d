// What holds of every history that a simulated vehicle leaves.
ghost use Rattle.std.specs.Prelude.{ℕ, suc, ◌+◌, ◌≤◌, List, length, Some};
ghost use Rattle.moos_lawful.specs.Schedules.{Completion};
ghost use Rattle.moos_play.specs.Lawful.{HelmSetup};
ghost use Rattle.moos_post.specs.History.{History};
ghost use Rattle.moos_simulate.specs.declared.gear.Gear.{Gear};
ghost use Rattle.moos_simulate.specs.Simulated.{IsSimulatedSoFar, schedule_simulated, vehicle_clients};
ghost use Rattle.script_reader.specs.declared.script.Script.{Script};

/// A history that is that of a simulated vehicle as far as it goes can be completed to one, by entries of the script's clients, the
/// helm and the vehicle's clients alone. It does nothing.
pub fn sailing_law()
    ensures { (script : Script) (helm : HelmSetup) (gear : Gear) (names : List (List ℕ)) → length script.names + suc (length (vehicle_clients gear helm.period)) ≤ length names → (history : History)
        → IsSimulatedSoFar script (Some helm) gear names history → Completion (schedule_simulated script (Some helm) gear names) history }
{}
