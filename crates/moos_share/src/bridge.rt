// A bridge: it carries posts from one community into another, under other names.
ghost use Rattle.std.specs.Prelude.{◌≡◌, OnOk, OnErr};
ghost use Rattle.moos_client.specs.Calls.{IsCalled, IsUncalled};
ghost use Rattle.moos_post.specs.declared.entry.Call.TheVariants.{Post};
ghost use Rattle.moos_share.specs.Carrying.{HasCarried, HasGoneOn, HasNotCarried, MayCarry, seated};
ghost use Rattle.moos_share.specs.Renaming.{renamed};

use crate::carried_names::CarriedNames;
use crate::fetching::{Fetched, fetch_named};
use crate::renaming::renamed;
use crate::rule::Rules;
use moos_client::{Lock, Seat, post};
use moos_post::{Names, NoMemory};
use std::alloc::Global;
use std::marker::Model;
use std::sync::Wait;

/// A bridge. Contracts see its rules, and what it has fetched and not posted yet. So that a carrying takes little memory it keeps the
/// names of the first community's clients, as the fetch before gave them, and the carried names that it made.
#[derive(Drop)]
pub struct Bridge {
    rules: Rules,
    names: Option<Names>,
    carried: CarriedNames,
    unposted: Option<Fetched>,
}

impl Model for Bridge {
    ghost use Rattle.moos_share.specs.Carrying.{BridgeState};

    ghost Value = { BridgeState };

    ghost view = { λ bridge. record { rules = bridge.rules; unposted = bridge.unposted } };
}

impl Bridge {
    ghost use Rattle.std.specs.Prelude.{None};

    /// A bridge with these rules, which has fetched nothing.
    pub fn make(rules: Rules) -> Bridge
        ensures { result ≡ record { rules = rules; unposted = None } }
    {
        Bridge {
            rules,
            names: None,
            carried: CarriedNames::new(),
            unposted: None,
        }
    }

    /// Fetches in the first community, unless letters are left of a call before, and posts their renaming in the second, also
    /// if that is nothing, both at this stamp, in milliseconds. If no memory was left for the post, the letters are
    /// left to the next call. It waits for the client's turn at either lock, and never holds two turns.
    pub fn carry<R: Wait>(
        &mut self,
        rt: &R,
        alloc: Global,
        first: &Lock,
        from: &mut Seat,
        second: &Lock,
        to: &mut Seat,
        stamp: u64,
    ) -> Result<(), NoMemory>
        requires from { MayCarry first.now from.old }
        requires to { MayCarry second.now to.old }
        ensures carried { OnOk result (HasCarried first.now.base stamp (seated self.old from.old to.old) (seated self.new from.new to.new)) }
        ensures not_carried { OnErr result (HasNotCarried first.now.base stamp (seated self.old from.old to.old) (seated self.new from.new to.new)) }
        ensures from { HasGoneOn from.old from.new }
        ensures to { HasGoneOn to.old to.new }
    {
        let fetched = match self.unposted.take() {
            Some(fetched) => fetched,
            None => fetch_named(rt, alloc, first, from, self.names.take(), stamp)?,
        };
        let carried = &mut self.carried;
        let answer = post_renamed(rt, alloc, &self.rules, carried, &fetched, second, to, stamp);
        if answer.is_err() {
            self.unposted = Some(fetched);
        } else {
            self.names = Some(fetched.into_names());
        }
        answer
    }
}

// Posts the renaming of what was fetched.
fn post_renamed<R: Wait>(
    rt: &R,
    alloc: Global,
    rules: &Rules,
    carried: &mut CarriedNames,
    fetched: &Fetched,
    lock: &Lock,
    seat: &mut Seat,
    stamp: u64,
) -> Result<(), NoMemory>
    requires { MayCarry lock.now seat.old }
    ensures called { OnOk result (IsCalled seat.old seat.new stamp (Post (renamed fetched.now.names rules.now fetched.now.mail))) }
    ensures uncalled { OnErr result (IsUncalled seat.old seat.new) }
{
    let batch = renamed(alloc, rules, carried, &fetched.names, fetched.mail.all())?;
    post(rt, alloc, lock, seat, stamp, batch)
}
