// What further clients do between two rounds: each call as one entry of the client's seat.
ghost use Rattle.std.specs.Prelude.{◌≡◌, ◌<◌, ◌++◌, ◌∷◌, [], IfOk, OnErr, OnOk};
ghost use Rattle.moos_client.specs.Calls.{entry_of};
ghost use Rattle.moos_step.specs.Steps.{mail_of_call};
ghost use Rattle.moos_play.specs.Plays.{clients_in, GoesOnWith, history_in, IsBetween, IsFurther, iterations_made, left_in, next_stamp, StaysSeated};

use crate::playing::Play;
use moos_db::Mail;
use moos_post::{Call, NoMemory};
use moos_step::call_alone;
use std::alloc::Global;
use std::sync::Wait;

impl<'a> Play<'a> {
    /// Makes one call of a further client, at whatever stamp. The mail is empty unless the client fetches. If no memory is
    /// left there is no entry, and the run is as it was.
    pub fn enter<R: Wait>(
        &mut self,
        rt: &R,
        alloc: Global,
        client: u32,
        stamp: u64,
        call: Call,
    ) -> Result<Mail, NoMemory>
        requires between { IsBetween self.old }
        requires further { IsFurther self.old client }
        ensures entered { OnOk result (history_in self.new ≡ history_in self.old ++ entry_of client stamp call ∷ []) }
        ensures unentered { OnErr result (history_in self.new ≡ history_in self.old) }
        ensures mail { IfOk result (λ mail. mail ≡ mail_of_call (clients_in self.old) (history_in self.old) client call) }
        ensures seated { StaysSeated self.old self.new }
        ensures between { IsBetween self.new }
        ensures same { GoesOnWith self.old self.new }
        ensures left { left_in self.new ≡ left_in self.old }
        ensures next { next_stamp self.new ≡ next_stamp self.old }
        ensures iterations { iterations_made self.new ≡ iterations_made self.old }
    {
        self.entries = None;
        let run = &mut self.run;
        let first = &mut run.first.seat;
        call_alone(rt, alloc, &run.lock, first, client, stamp, call)
    }
}
