// A call of one client while no other makes one.
ghost use Rattle.std.specs.Prelude.{◌≡◌, ◌<◌, ◌++◌, length, IfOk, OnErr};
ghost use Rattle.moos_client.specs.Calls.{entry_of, IsUncalled, MayCall};
ghost use Rattle.moos_step.specs.Steps.{added_by, IsAnswered, IsGathered, IsWhole, mail_of_call};

use crate::step::see_all;
use moos_client::{Lock, Seat, fetch, post, register, unregister};
use moos_db::Mail;
use moos_post::{Call, List, NoMemory};
use std::alloc::Global;
use std::sync::Wait;

/// Makes one call of a client while no other makes one, and has the first seat see the whole history again.
pub fn call_alone<R: Wait>(
    rt: &R,
    alloc: Global,
    lock: &Lock,
    first: &mut Seat,
    client: u32,
    stamp: u64,
    call: Call,
) -> Result<Mail, NoMemory>
    requires gathered { IsGathered lock.now first.old }
    requires whole { IsWhole first.old }
    requires client { client < length lock.now.base }
    ensures gathered { IsGathered lock.now first.new }
    ensures whole { IsWhole first.new }
    ensures added { first.new.seen ≡ first.old.seen ++ added_by result (entry_of client stamp call) }
    ensures mail { IfOk result (λ mail. mail ≡ mail_of_call lock.now.base first.old.seen client call) }
{
    let answer = if client == 0 {
        call_at(rt, alloc, lock, first, stamp, call)
    } else {
        let mut seat = lock.part(first, client);
        let answer = call_at(rt, alloc, lock, &mut seat, stamp, call);
        lock.meet(first, seat);
        answer
    };
    see_all(lock, first);
    answer
}

// Makes a call at the client's seat, and answers the mail if the client fetches.
fn call_at<R: Wait>(
    rt: &R,
    alloc: Global,
    lock: &Lock,
    seat: &mut Seat,
    stamp: u64,
    call: Call,
) -> Result<Mail, NoMemory>
    requires { MayCall lock.now seat.old }
    ensures answered { IfOk result (IsAnswered lock.now.base seat.old seat.new stamp call) }
    ensures uncalled { OnErr result (IsUncalled seat.old seat.new) }
{
    match call {
        Call::Register(regs) => {
            register(rt, alloc, lock, seat, stamp, regs)?;
            Ok(List::new(alloc))
        }
        Call::Unregister(var, source) => {
            unregister(rt, alloc, lock, seat, stamp, var, source)?;
            Ok(List::new(alloc))
        }
        Call::Post(batch) => {
            post(rt, alloc, lock, seat, stamp, batch)?;
            Ok(List::new(alloc))
        }
        Call::Fetch => fetch(rt, alloc, lock, seat, stamp),
    }
}
