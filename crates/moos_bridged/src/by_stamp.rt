// Order Stamp: at each stamp the clients of both communities, and then the bridge.
ghost use Rattle.std.specs.Prelude.{◌≡◌, ◌<◌, true, false, IfOk, IsTrue, OnOk, nat_le};
ghost use Rattle.std.specs.List.{list_all};
ghost use Rattle.std.specs.Thread.{IsSync};
ghost use Rattle.moos_bridged.specs.Communities.{community_script, HasPlayedStamp, IsResting, left_lines};
ghost use Rattle.moos_bridged.specs.Ending.{HaveShared};
ghost use Rattle.moos_bridged.specs.Opening.{AreOpened};
ghost use Rattle.moos_bridged.specs.Stamping.{earlier, IsSharedSoFar, lines_left};
ghost use Rattle.script_reader.specs.declared.script.Order.TheVariants.{Stamp};

use crate::community::Community;
use crate::crossing::cross;
use crate::second_gate::SecondGate;
use moos_io::Gate;
use moos_post::NoMemory;
use moos_share::Bridge;
use moos_step::both;
use std::alloc::Global;
use std::sync::Wait;
use std::thread::{Threads, join_mut};

/// Takes the stamps of both scripts upward. At each all clients of both with lines there make their calls, and then the bridge
/// carries once.
pub(crate) fn share_by_stamp<R: Threads + Wait + Sync, G: Gate>(
    rt: &R,
    alloc: Global,
    bridge: &mut Bridge,
    one: &mut Community,
    two: &mut Community,
    gate: &G,
) -> Result<(), NoMemory>
    requires ready { AreOpened bridge.old one.old two.old }
    ensures { OnOk result (HaveShared Stamp bridge.old.rules one.old one.new two.old two.new) }
{
    while share_next(rt, alloc, bridge, one, two, gate)? {}
    Ok(())
}

// Plays the lines of the next stamp and has the bridge carry. It answers false if no line was left.
fn share_next<R: Threads + Wait + Sync, G: Gate>(
    rt: &R,
    alloc: Global,
    bridge: &mut Bridge,
    one: &mut Community,
    two: &mut Community,
    gate: &G,
) -> Result<bool, NoMemory>
    requires { IsSharedSoFar bridge.old one.old two.old }
    ensures so_far { OnOk result (IsSharedSoFar bridge.new one.new two.new) }
    ensures rules { OnOk result (bridge.new.rules ≡ bridge.old.rules) }
    ensures first { OnOk result (community_script one.new ≡ community_script one.old) }
    ensures second { OnOk result (community_script two.new ≡ community_script two.old) }
    ensures more { IfOk result (λ more. more ≡ true → lines_left one.new two.new < lines_left one.old two.old) }
    ensures over { IfOk result (λ more. more ≡ false → lines_left one.new two.new ≡ 0) }
{
    let first = one.next_stamp();
    let second = two.next_stamp();
    let Some(stamp) = earlier(first, second) else {
        return Ok(false);
    };
    play_both(rt, alloc, one, two, stamp, gate)?;
    cross(rt, alloc, bridge, one, two, stamp)?;
    Ok(true)
}

// The clients of both communities make their calls of this stamp, those of the first before those of the second. If both have lines,
// and one has a client with many, they do so beside each other.
fn play_both<R: Threads + Wait + Sync, G: Gate>(
    rt: &R,
    alloc: Global,
    one: &mut Community,
    two: &mut Community,
    stamp: u64,
    gate: &G,
) -> Result<(), NoMemory>
    requires one { IsResting one.old × IsTrue (list_all (λ line. nat_le stamp line.stamp) (left_lines one.old)) }
    requires two { IsResting two.old × IsTrue (list_all (λ line. nat_le stamp line.stamp) (left_lines two.old)) }
    ensures one { OnOk result (IsResting one.new × HasPlayedStamp stamp one.old one.new) }
    ensures two { OnOk result (IsResting two.new × HasPlayedStamp stamp two.old two.new) }
{
    let second = SecondGate::behind(gate, one.bridge());
    let heavy = one.is_heavy(stamp) || two.is_heavy(stamp);
    if !heavy || one.next_stamp() != Some(stamp) || two.next_stamp() != Some(stamp) {
        one.play_stamp(rt, alloc, stamp, gate)?;
        return two.play_stamp(rt, alloc, stamp, &second);
    }
    let (first, second) = join_mut(
        rt,
        &mut ||
            requires { IsSync R.row × IsSync G.row × IsResting one.now × IsTrue (list_all (λ line. nat_le stamp line.stamp) (left_lines one.now)) }
            ensures { OnOk result (IsResting one.exit.now × HasPlayedStamp stamp one.entry.now one.exit.now) }
        { one.play_stamp(rt, alloc, stamp, gate) },
        &mut ||
            requires { IsSync R.row × IsSync G.row × IsResting two.now × IsTrue (list_all (λ line. nat_le stamp line.stamp) (left_lines two.now)) }
            ensures { OnOk result (IsResting two.exit.now × HasPlayedStamp stamp two.entry.now two.exit.now) }
        { two.play_stamp(rt, alloc, stamp, &second) },
    );
    both(&first, second)
}

// The earlier of two stamps, if there is one.
fn earlier(one: Option<u64>, two: Option<u64>) -> Option<u64>
    ensures { result ≡ earlier one two }
{
    match (one, two) {
        (None, two) => two,
        (Some(one), None) => Some(one),
        (Some(one), Some(two)) => Some(if two < one { two } else { one }),
    }
}
