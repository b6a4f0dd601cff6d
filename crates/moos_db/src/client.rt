// A client of the database: its registrations and its mailbox.
ghost use Rattle.std.specs.Prelude.{◌≡◌, ◌<◌, ◌≤◌, ◌+◌, ◌++◌, ◌∷◌, [], length, map, vec_capacity, vec_len, IfOk, OnErr, OnOk};
ghost use Rattle.std.specs.List.{All, list_any};
ghost use Rattle.moos_db.specs.Clients.{IsBlank, is_with_patterns, without_registration};

use crate::log::Log;
use crate::registration::Registration;
use moos_mail::Mailbox;
use moos_post::{Entry, NoMemory, Pattern};
use std::alloc::Global;
use std::marker::Model;
use std::sync::Arc;

// What is kept of a client: its live registrations in the order in which they were made, and its mailbox.
#[derive(Drop)]
pub(crate) struct Client {
    lives: Vec<Arc<Registration>>,
    mailbox: Mailbox,
}

// As many clients for which nothing happened.
pub(crate) fn new_clients(alloc: Global, count: usize) -> Result<Vec<Client>, NoMemory>
    ensures each { IfOk result (λ clients. length clients.items ≡ count) }
    ensures blank { IfOk result (λ clients. All IsBlank clients.items) }
{
    let mut clients = Vec::with_capacity(alloc, count)?;
    for number in 0..count {
        clients.push(Client::new(alloc))?;
    }
    Ok(clients)
}

// Whether one of the registrations has both these patterns.
fn has_both(lives: &[Arc<Registration>], var: &Pattern, source: &Pattern) -> bool
    ensures { result ≡ list_any (λ live. is_with_patterns var.now source.now live.value) lives.now }
{
    lives.iter().any(|live| live.has_patterns(var, source))
}

// Withdraws each of the registrations that has both these patterns.
fn withdraw_from(lives: &mut Vec<Arc<Registration>>, var: &Pattern, source: &Pattern)
    ensures left { map (λ live. live.value) lives.new.items ≡ without_registration var.now source.now (map (λ live. live.value) lives.old.items) }
    ensures bound { vec_len lives.new ≤ vec_len lives.old }
    ensures capacity { vec_capacity lives.new ≡ vec_capacity lives.old }
{
    lives.retain(|live| !live.has_patterns(var, source));
}

impl Model for Client {
    ghost use Rattle.std.specs.Prelude.{◌-◌, map, vec_capacity, vec_len};
    ghost use Rattle.moos_db.specs.Clients.{ClientState};

    ghost Value = { ClientState };

    ghost view = { λ client. record {
      lives = map (λ live. live.value) client.lives.items;
      waits = client.mailbox.waiting;
      spare = client.mailbox.spare;
      room = vec_capacity client.lives - vec_len client.lives;
    } };
}

impl Client {
    ghost use Rattle.moos_db.specs.Clients.{has_registration, without_registration};

    // The client for which nothing happened.
    pub fn new(alloc: Global) -> Client
        ensures { IsBlank result }
    {
        Client {
            lives: Vec::new(alloc),
            mailbox: Mailbox::make(alloc),
        }
    }

    // Its live registrations, in the order in which they were made.
    pub fn lives(&self) -> &[Arc<Registration>]
        ensures { map (λ live. live.value) result.now ≡ self.now.lives }
    {
        self.lives.as_slice()
    }

    // The numbers of the posts that wait for its next fetch.
    pub fn waiting(&self) -> &[u64]
        ensures { result.now ≡ self.now.waits }
    {
        self.mailbox.waiting()
    }

    // Gives what waits to a fetch, the entry that is added.
    pub fn fetch(&mut self, alloc: Global, log: &mut Log, entry: Entry) -> Result<(), NoMemory>
        ensures ok { OnOk result (log.new ≡ record {
          entries = log.old.entries ++ entry ∷ [];
          letters = log.old.letters ++ self.old.waits ∷ [];
        }) }
        ensures given { OnOk result (self.new ≡ record self.old { waits = []; spare = self.new.spare }) }
        ensures same { OnErr result (log.new ≡ log.old) }
        ensures waiting { OnErr result (self.new ≡ record self.old { spare = self.new.spare }) }
    {
        log.append_mail(alloc, entry, &mut self.mailbox)
    }

    // Makes room for `more` registrations.
    pub fn reserve(&mut self, more: usize) -> Result<(), NoMemory>
        ensures room { OnOk result (more ≤ self.new.room) }
        ensures same { self.new ≡ record self.old { room = self.new.room } }
    {
        self.lives.reserve(more)?;
        Ok(())
    }

    // Makes room for `more` numbers in its mailbox.
    pub fn make_room(&mut self, more: usize) -> Result<(), NoMemory>
        ensures room { OnOk result (more ≤ self.new.spare) }
        ensures less { OnErr result (self.old.spare ≤ self.new.spare) }
        ensures same { self.new ≡ record self.old { spare = self.new.spare } }
    {
        self.mailbox.reserve(more)
    }

    // Whether it has a registration with these patterns.
    pub fn has(&self, var: &Pattern, source: &Pattern) -> bool
        ensures { result ≡ has_registration var.now source.now self.now.lives }
    {
        has_both(self.lives.as_slice(), var, source)
    }

    // Withdraws the registration with these patterns, if there is one.
    pub fn withdraw(&mut self, var: &Pattern, source: &Pattern)
        ensures same { self.new ≡ record self.old { lives = without_registration var.now source.now self.old.lives; room = self.new.room } }
        ensures room { self.old.room ≤ self.new.room }
    {
        withdraw_from(&mut self.lives, var, source);
    }

    // Makes a registration, for which there is room.
    pub fn add(&mut self, live: Arc<Registration>)
        requires { 0 < self.old.room }
        ensures same { self.new ≡ record self.old { lives = self.old.lives ++ live.value ∷ []; room = self.new.room } }
        ensures room { self.old.room ≤ self.new.room + 1 }
    {
        self.lives.push_reserved(live);
    }

    // The post with this number is mailed to it, for which there is room.
    pub fn mail(&mut self, number: u64)
        requires { 1 ≤ self.old.spare }
        ensures mailed { self.new ≡ record self.old { waits = self.old.waits ++ number ∷ []; spare = self.new.spare } }
        ensures room { self.old.spare ≤ self.new.spare + 1 }
    {
        self.mailbox.append(number);
    }
}
