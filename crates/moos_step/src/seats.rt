// How a community begins: a seat for each client.
ghost use Rattle.std.specs.Prelude.{◌≡◌, ◌<◌, ◌≤◌, length};
ghost use Rattle.moos_step.specs.Steps.{IsGathered, KnowsNothing};
ghost use Rattle.turn_lock.specs.Passes.{first_pass};

use moos_client::{Lock, Seat};

/// Splits off the seats of all other clients from that of the first, which takes them in.
pub fn seat_all(lock: &Lock, first: &mut Seat, clients: u32)
    requires some { 0 < clients }
    requires clients { length lock.now.base ≤ clients }
    requires first { first.old ≡ first_pass lock.now clients }
    ensures gathered { IsGathered lock.now first.new }
    ensures nothing { KnowsNothing first.new }
{
    for client in 1..clients {
        let seat = lock.split(first);
        lock.meet(first, seat);
    }
}
