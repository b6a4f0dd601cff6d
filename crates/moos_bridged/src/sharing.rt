// Two scripts played at once, with a bridge between their communities.
ghost use Rattle.std.specs.Prelude.{◌≡◌, [], ◌∷◌, None, IfOk, OnOk};
ghost use Rattle.moos_bridged.specs.Communities.{community_history, community_script, IsResting};
ghost use Rattle.moos_bridged.specs.Ending.{HaveShared};
ghost use Rattle.moos_bridged.specs.Opening.{AreOpened};
ghost use Rattle.moos_share.specs.Bridged.{IsShared, bridge_opening, names_bridged, regs_of_rules};
ghost use Rattle.script_reader.specs.Validity.{IsValid};

use crate::by_stamp::share_by_stamp;
use crate::community::Community;
use crate::race::share_by_race;
use moos_db::Db;
use moos_io::Gate;
use moos_post::{Copied, List, NoMemory, Regs};
use moos_share::{Bridge, Rules};
use script_reader::{Order, Script};
use std::alloc::Global;
use std::sync::Wait;
use std::thread::Threads;

/// What two communities with a bridge between them leave.
#[derive(Drop)]
pub struct Shared {
    /// The database of the first, with its whole history.
    pub first: Db,
    /// The database of the second, with its whole history.
    pub second: Db,
}

/// Plays two scripts at once, each on its own database, with a bridge from the first community to the second.
///
/// The clients of each script have the numbers in which their names are. The bridge is one more client of each, behind those, with the
/// name `pShare`. It first registers in the first community for what its rules select, in one call at stamp 0.
///
/// In order Stamp the stamps of both scripts are taken upward: at each all clients of both with lines there make their calls, and then
/// the bridge carries once. The calls are made one after another, in the order of the first script's lines and then of the second's. A
/// client with 64 lines there or more makes its calls on a thread of its own; then the clients of the two scripts are beside each other.
/// In order Race each client makes all its calls on a thread of its own, without waiting for others, and beside them the bridge
/// carries once for each line of the first script, at its stamp; once all have made their calls it carries a last time, at the greater
/// of both scripts' last stamps. The gate is called before each client's nth call, counted from 0, but not before the bridge's. It is
/// told of a client of the second script by the number that follows those of the first script's clients.
pub fn share<R: Threads + Wait + Sync, G: Gate>(
    rt: &R,
    alloc: Global,
    first: &Script,
    second: &Script,
    rules: Rules,
    order: Order,
    gate: &G,
) -> Result<Shared, NoMemory>
    requires first { IsValid first.now }
    requires second { IsValid second.now }
    ensures first { IfOk result (λ shared. shared.first.names ≡ names_bridged first.now) }
    ensures second { IfOk result (λ shared. shared.second.names ≡ names_bridged second.now) }
    ensures shared { IfOk result (λ shared. IsShared order first.now second.now rules shared.first.history shared.second.history) }
{
    let mut one = opened(rt, alloc, first, &rules)?;
    let mut two = Community::make(alloc, second)?;
    share_opened(rt, alloc, rules, &mut one, &mut two, order, gate)?;
    Ok(Shared {
        first: one.close(),
        second: two.close(),
    })
}

// The community of this script, in which the bridge has registered for what these rules select, and no line is played.
fn opened<'a, R: Wait>(
    rt: &R,
    alloc: Global,
    script: &'a Script,
    rules: &Rules,
) -> Result<Community<'a>, NoMemory>
    requires { IsValid script.now }
    ensures resting { IfOk result IsResting }
    ensures script { IfOk result (λ one. community_script one ≡ script.now) }
    ensures opened { IfOk result (λ one. community_history one ≡ bridge_opening (community_script one) rules.now ∷ []) }
    ensures from { IfOk result (λ one. one.from ≡ 0) }
{
    let regs = regs_of(alloc, rules)?;
    let mut one = Community::make(alloc, script)?;
    one.register(rt, alloc, regs)?;
    Ok(one)
}

// Plays both scripts in this order, with a bridge of these rules that has registered.
fn share_opened<R: Threads + Wait + Sync, G: Gate>(
    rt: &R,
    alloc: Global,
    rules: Rules,
    one: &mut Community,
    two: &mut Community,
    order: Order,
    gate: &G,
) -> Result<(), NoMemory>
    requires ready { AreOpened (record { rules = rules; unposted = None }) one.old two.old }
    ensures { OnOk result (HaveShared order rules one.old one.new two.old two.new) }
{
    let mut bridge = Bridge::make(rules);
    match order {
        Order::Stamp => share_by_stamp(rt, alloc, &mut bridge, one, two, gate),
        Order::Race => share_by_race(rt, alloc, &mut bridge, one, two, gate),
    }
}

// What the rules register for.
fn regs_of(alloc: Global, rules: &Rules) -> Result<Regs, NoMemory>
    ensures { IfOk result (λ regs. regs ≡ regs_of_rules rules.now) }
{
    let mut regs = List::new(alloc);
    for rule in rules.all() {
        regs.add(rule.reg.copy(alloc)?)?;
    }
    Ok(regs)
}
