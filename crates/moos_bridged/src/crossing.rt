// One carrying while nobody else calls.
ghost use Rattle.std.specs.Prelude.{◌≡◌, None, OnOk};
ghost use Rattle.moos_bridged.specs.Communities.{HasCrossed, HasCrossedFrom, IsResting};
ghost use Rattle.moos_share.specs.Carrying.{MayCarry};

use crate::community::Community;
use moos_client::{Lock, Seat};
use moos_post::NoMemory;
use moos_share::Bridge;
use moos_step::see_all;
use std::alloc::Global;
use std::sync::Wait;

/// The bridge carries once, while nobody calls in either community.
pub(crate) fn cross<R: Wait>(
    rt: &R,
    alloc: Global,
    bridge: &mut Bridge,
    one: &mut Community,
    two: &mut Community,
    stamp: u64,
) -> Result<(), NoMemory>
    requires one { IsResting one.old }
    requires two { IsResting two.old }
    requires none { bridge.old.unposted ≡ None }
    ensures bridge { OnOk result (bridge.new ≡ bridge.old) }
    ensures one { OnOk result (IsResting one.new) }
    ensures two { OnOk result (IsResting two.new) }
    ensures crossed { OnOk result (HasCrossed bridge.old.rules stamp one.old one.new two.old two.new) }
{
    let number = one.bridge();
    let first = &mut one.first.seat;
    if number == 0 {
        cross_from(rt, alloc, bridge, &one.lock, first, two, stamp)?;
        see_all(&one.lock, first);
        return Ok(());
    }
    let mut from = one.lock.part(first, number);
    cross_from(rt, alloc, bridge, &one.lock, &mut from, two, stamp)?;
    one.lock.meet(first, from);
    see_all(&one.lock, first);
    Ok(())
}

// The same from the bridge's seat in the first community.
fn cross_from<R: Wait>(
    rt: &R,
    alloc: Global,
    bridge: &mut Bridge,
    lock: &Lock,
    from: &mut Seat,
    two: &mut Community,
    stamp: u64,
) -> Result<(), NoMemory>
    requires from { MayCarry lock.now from.old }
    requires two { IsResting two.old }
    requires none { bridge.old.unposted ≡ None }
    ensures bridge { OnOk result (bridge.new ≡ bridge.old) }
    ensures two { OnOk result (IsResting two.new) }
    ensures crossed { OnOk result (HasCrossedFrom lock.now.base bridge.old.rules stamp from.old from.new two.old two.new) }
{
    let number = two.bridge();
    let first = &mut two.first.seat;
    if number == 0 {
        bridge.carry(rt, alloc, lock, from, &two.lock, first, stamp)?;
        see_all(&two.lock, first);
        return Ok(());
    }
    let mut to = two.lock.part(first, number);
    bridge.carry(rt, alloc, lock, from, &two.lock, &mut to, stamp)?;
    two.lock.meet(first, to);
    see_all(&two.lock, first);
    Ok(())
}
