// A registration that hears a variable, and the stamp that it was last mailed.
ghost use Rattle.std.specs.Prelude.{◌≡◌, None};
ghost use Rattle.moos_post.specs.Patterns.{matches};
ghost use Rattle.moos_db.specs.Subscriptions.{caught_at, after_hearing, hears_due, is_new_at, is_registration};

use crate::registration::Registration;
use moos_post::Pattern;
use moos_reg::{due, matches};
use std::marker::Model;
use std::sync::Arc;

// A live registration of a client that hears a variable, and the stamp of the last post of the variable that came through it.
#[derive(Drop)]
pub(crate) struct Subscription {
    client: u32,
    live: Arc<Registration>,
    last: Option<u64>,
}

impl Model for Subscription {
    ghost use Rattle.moos_db.specs.Subscriptions.{SubscriptionState};

    ghost Value = { SubscriptionState };

    ghost view = { λ subscription. record {
      client = subscription.client;
      reg = subscription.live.value.reg;
      made = subscription.live.value.made;
      last = subscription.last;
    } };
}

// Whether the pattern matches the name of this source. A star alone, as most ask for, does so at a look.
fn takes_source(pattern: &Pattern, source: &[u8]) -> bool
    ensures { result ≡ matches pattern.now source.now }
{
    match pattern.bytes() {
        [sign] if *sign == b'*' => true,
        _ => matches(pattern, source),
    }
}

impl Subscription {
    // The client hears through this registration from now on.
    pub fn new(client: u32, live: Arc<Registration>) -> Subscription
        ensures { result ≡ record { client = client; reg = live.value.reg; made = live.value.made; last = None } }
    {
        Subscription {
            client,
            live,
            last: None,
        }
    }

    pub fn client(&self) -> u32
        ensures { result ≡ self.now.client }
    {
        self.client
    }

    // Whether it is the client's registration with these patterns.
    pub fn is_registration(&self, client: u32, var: &Pattern, source: &Pattern) -> bool
        ensures { result ≡ is_registration client var.now source.now self.now }
    {
        let reg = &self.live.reg;
        self.client == client
            && reg.var.bytes() == var.bytes()
            && reg.source.bytes() == source.bytes()
    }

    // A post of this stamp from the client with this name comes through if it is due. Tells whether it does.
    pub fn hear(&mut self, stamp: u64, source: &[u8]) -> bool
        ensures due { result ≡ hears_due stamp source.now self.old }
        ensures heard { self.new ≡ after_hearing stamp source.now self.old }
    {
        let reg = &self.live.reg;
        let is_due = takes_source(&reg.source, source) && due(self.last, stamp, reg.interval);
        if is_due {
            self.last = Some(stamp);
        }
        is_due
    }

    // A post of this stamp from the client with this name that catches up comes through if the client made the registration at
    // this entry, and it selects the post. Tells whether that is so.
    pub fn catch_up(&mut self, client: u32, made: u64, stamp: u64, source: &[u8]) -> bool
        ensures new { result ≡ is_new_at client made source.now self.old }
        ensures caught { self.new ≡ caught_at client made stamp source.now self.old }
    {
        let live = &self.live;
        let is_new = self.client == client
            && live.made == made
            && takes_source(&live.reg.source, source);
        if is_new {
            self.last = Some(stamp);
        }
        is_new
    }
}
