// The whole of a run, round by round.
ghost use Rattle.std.specs.Prelude.{◌≡◌, ◌≤◌, option_map, IfOk, IfSome, OnOk};
ghost use Rattle.moos_play.specs.Lawful.{heard_of, helm_number, MayStart, IsLawful, iterations, names_with, helm_setup_with};
ghost use Rattle.moos_play.specs.Plays.{GoesOnWith, left_in};
ghost use Rattle.moos_play.specs.Runs.{IsAtPlay, KeepsSeats, MayGoOn, shown_by};
ghost use Rattle.moos_play.specs.Steered.{KeepsEach};
ghost use Rattle.script_reader.specs.Validity.{IsValid};

use crate::helm_client::Iterations;
use crate::playing::Play;
use crate::stage::Stage;
use helm_core::Helm;
use moos_db::Db;
use moos_io::Gate;
use moos_post::{List, NoMemory};
use script_reader::{Order, Script};
use std::alloc::Global;
use std::sync::Wait;
use std::thread::Threads;

/// A helm, and the milliseconds from one of its ticks to the next.
#[derive(Drop)]
pub struct HelmRun {
    /// The helm, which has heard nothing yet.
    pub helm: Helm,
    /// The milliseconds from one tick to the next, at least 1.
    pub period: u64,
}

/// What a run leaves.
#[derive(Drop)]
pub struct Ran {
    /// The database with the whole history.
    pub db: Db,
    /// What the helm answered at its ticks, in order; none without a helm.
    pub iterations: Iterations,
}

/// Plays a script, and runs a helm beside its clients if one is given.
///
/// The clients have the numbers in which their names are, and make their calls on threads of their own. The helm has the
/// number behind them and the name `pHelmIvP`. It opens before any thread starts: it registers for what it wants, and posts
/// the pairs to begin with, if there are any, both at stamp 0. It ticks at each multiple of its period from 0 up to the
/// script's last stamp: it fetches and posts, even if it has nothing to post.
///
/// In order Stamp there is a step for each stamp at which there are lines, and a tick follows the clients of its stamp. In
/// order Race each client plays its whole script and the helm makes all its ticks, beside each other. The gate is called
/// before each client's nth call, counted from 0, and the helm's too. There are 1 to 16 workers for what the helm solves.
pub fn play<R: Threads + Wait + Sync, G: Gate>(
    rt: &R,
    alloc: Global,
    script: &Script,
    helm: Option<HelmRun>,
    order: Order,
    workers: u32,
    gate: &G,
) -> Result<Ran, NoMemory>
    requires valid { IsValid script.now }
    requires helm { IfSome helm MayStart }
    requires workers { (1 ≤ workers) × (workers ≤ 16) }
    ensures names { IfOk result (λ ran. ran.db.names ≡ names_with script.now helm) }
    ensures lawful { let helm = option_map (helm_setup_with script.now) helm in
        IfOk result (λ ran. IsLawful order script.now helm ran.db.names ran.db.history) }
    ensures iterations { let helm = option_map (helm_setup_with script.now) helm in
        IfOk result (λ ran. ran.iterations ≡ iterations helm script.now.stop (heard_of ran.db.names (helm_number script.now) ran.db.history)) }
{
    let play = Play::make(rt, alloc, script, helm, List::new(alloc), order, gate)?;
    let Play { mut run, .. } = play;
    let played = play_out(rt, alloc, &mut run, workers, gate);
    let ran = run.close(alloc);
    played?;
    Ok(ran)
}

// Plays all that is left.
fn play_out<R: Threads + Wait + Sync, G: Gate>(
    rt: &R,
    alloc: Global,
    run: &mut Stage,
    workers: u32,
    gate: &G,
) -> Result<(), NoMemory>
    requires { MayGoOn run.old workers }
    ensures seated { KeepsSeats run.old run.new }
    ensures at_play { OnOk result (IsAtPlay run.new) }
    ensures same { OnOk result (GoesOnWith (shown_by run.old) (shown_by run.new)) }
    ensures told { OnOk result (KeepsEach run.old.helm_client run.new.helm_client) }
    ensures over { OnOk result (left_in (shown_by run.new) ≡ 0) }
{
    while run.go_on(rt, alloc, workers, gate)? {}
    Ok(())
}
