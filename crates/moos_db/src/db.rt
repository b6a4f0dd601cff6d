// The database: registrations, posts and mails in one history.
ghost use Rattle.std.specs.Prelude.{◌≡◌, ◌^◌, ◌<◌, [], length, take, All, IfOk, OnOk, OnErr, Some, option_map, slice_get};
ghost use Rattle.moos_post.specs.Delivery.{mail_after, mail_at};
ghost use Rattle.moos_post.specs.History.{posts_of};

use crate::calls::{fetch, fetch_unread};
use crate::client::{Client, new_clients};
use crate::log::Log;
use crate::mail::{Mail, Origin};
use crate::posting::post;
use crate::registering::{register, unregister};
use crate::variables::Variables;
use moos_post::{Batch, Call, Entry, Name, Names, NoMemory, Pair, Pattern, Regs};
use std::alloc::Global;
use std::marker::Model;

/// The database of a community's messages.
///
/// Contracts see its clients' names by number and the history of the calls that it answered with Ok. Its parts follow a
/// pointer, since it is moved into a lock and out of it at each call.
#[derive(Drop)]
pub struct Db {
    parts: Box<Parts>,
}

// What a database is made of.
#[derive(Drop)]
struct Parts {
    names: Names,
    log: Log,
    variables: Variables,
    clients: Vec<Client>,
}

impl Model for Db {
    ghost use Rattle.moos_db.specs.Database.{Database};
    ghost use Rattle.moos_db.specs.Places.{IsDb};

    ghost Value = { Database };

    ghost view = { λ db. record { names = db.parts.value.names; history = db.parts.value.log.entries } };

    ghost invariant = { λ db. let parts = db.parts.value in IsDb parts.names parts.log parts.variables parts.clients.items };
}

impl Db {
    ghost use Rattle.moos_db.specs.Database.{after_entry, pair_posted, origin_of, AreLetters};

    /// A database of clients with these names, if nothing has happened yet. A client goes by its number, so nothing
    /// here rests on names that differ.
    pub fn make(alloc: Global, names: Names) -> Result<Db, NoMemory>
        requires { length names < 2 ^ 32 }
        ensures { IfOk result (λ db. db ≡ record { names = names; history = [] }) }
    {
        let clients = new_clients(alloc, names.len())?;
        let parts = Parts {
            names,
            log: Log::new(alloc),
            variables: Variables::new(alloc),
            clients,
        };
        let parts = Box::new(alloc, parts)?;
        Ok(Db { parts })
    }

    /// The client makes these registrations together. One with the patterns of a live one takes its place.
    pub fn register(
        &mut self,
        alloc: Global,
        client: u32,
        stamp: u64,
        regs: Regs,
    ) -> Result<(), NoMemory>
        requires { client < length self.old.names }
        ensures ok { OnOk result (self.new ≡ after_entry self.old (record {
          stamp = stamp;
          client = client;
          call = Call.Register regs;
        })) }
        ensures same { OnErr result (self.new ≡ self.old) }
    {
        let parts = &mut *self.parts;
        register(
            alloc,
            &parts.names,
            &mut parts.log,
            &mut parts.variables,
            &mut parts.clients,
            client,
            stamp,
            regs,
        )?;
        Ok(())
    }

    /// The client withdraws its live registration with these patterns, if it has one.
    pub fn unregister(
        &mut self,
        alloc: Global,
        client: u32,
        stamp: u64,
        var: Pattern,
        source: Pattern,
    ) -> Result<(), NoMemory>
        requires { client < length self.old.names }
        ensures ok { OnOk result (self.new ≡ after_entry self.old (record {
          stamp = stamp;
          client = client;
          call = Call.Unregister var source;
        })) }
        ensures same { OnErr result (self.new ≡ self.old) }
    {
        let parts = &mut *self.parts;
        unregister(
            alloc,
            &mut parts.log,
            &mut parts.variables,
            &mut parts.clients,
            client,
            stamp,
            &var,
            &source,
        )?;
        Ok(())
    }

    /// The client posts these pairs.
    pub fn post(
        &mut self,
        alloc: Global,
        client: u32,
        stamp: u64,
        batch: Batch,
    ) -> Result<(), NoMemory>
        requires { client < length self.old.names }
        ensures ok { OnOk result (self.new ≡ after_entry self.old (record {
          stamp = stamp;
          client = client;
          call = Call.Post batch;
        })) }
        ensures same { OnErr result (self.new ≡ self.old) }
    {
        let call = Call::Post(batch);
        let parts = &mut *self.parts;
        post(
            alloc,
            &parts.names,
            &mut parts.log,
            &mut parts.variables,
            &mut parts.clients,
            Entry {
                stamp,
                client,
                call,
            },
        )?;
        Ok(())
    }

    /// The client is given all that was mailed to it since its fetch before, in the order of mailing.
    pub fn fetch(&mut self, alloc: Global, client: u32, stamp: u64) -> Result<Mail, NoMemory>
        requires { client < length self.old.names }
        ensures mail { let numbers = mail_after self.old.names client self.old.history
            in IfOk result (AreLetters (posts_of self.old.history) numbers) }
        ensures ok { OnOk result (self.new ≡ after_entry self.old (record {
          stamp = stamp;
          client = client;
          call = Call.Fetch;
        })) }
        ensures same { OnErr result (self.new ≡ self.old) }
    {
        let parts = &mut *self.parts;
        let mail = fetch(
            alloc,
            &mut parts.log,
            &parts.variables,
            &mut parts.clients[client as usize],
            client,
            stamp,
        )?;
        Ok(mail)
    }

    /// The client is given the same, and no letters are made of it: for one that doesn't read its mail, which is in the
    /// history by its numbers.
    pub fn fetch_unread(&mut self, alloc: Global, client: u32, stamp: u64) -> Result<(), NoMemory>
        requires { client < length self.old.names }
        ensures ok { OnOk result (self.new ≡ after_entry self.old (record {
          stamp = stamp;
          client = client;
          call = Call.Fetch;
        })) }
        ensures same { OnErr result (self.new ≡ self.old) }
    {
        let parts = &mut *self.parts;
        fetch_unread(
            alloc,
            &mut parts.log,
            &mut parts.clients[client as usize],
            client,
            stamp,
        )?;
        Ok(())
    }

    /// How many entries the history has.
    pub fn entries(&self) -> u64
        ensures { result ≡ length self.now.history }
    {
        self.parts.log.len() as u64
    }

    /// The entry with this number, counted from 0.
    pub fn entry(&self, k: u64) -> &Entry
        requires { k < length self.now.history }
        ensures { slice_get self.now.history k ≡ Some result.now }
    {
        self.parts.log.entry(k as usize)
    }

    /// How many posts the history has.
    pub fn posts(&self) -> u64
        ensures { result ≡ length (posts_of self.now.history) }
    {
        self.parts.log.posts() as u64
    }

    /// What the post with this number says. Posts are counted from 0, and those of a batch in its order.
    pub fn pair(&self, j: u64) -> &Pair
        requires { j < length (posts_of self.now.history) }
        ensures { option_map pair_posted (slice_get (posts_of self.now.history) j) ≡ Some result.now }
    {
        self.parts.log.pair(j as usize)
    }

    /// When the post with this number was made, and by which client.
    pub fn origin(&self, j: u64) -> Origin
        requires { j < length (posts_of self.now.history) }
        ensures { option_map origin_of (slice_get (posts_of self.now.history) j) ≡ Some result }
    {
        self.parts.log.origin(j as usize)
    }

    /// The numbers of the posts that the entry gave: a fetch its mail, and every other entry nothing. Nor is there any if
    /// there is no such entry.
    pub fn letters(&self, k: u64) -> &[u64]
        ensures { result.now ≡ mail_at self.now.names self.now.history k }
    {
        if k >= self.entries() {
            return &[];
        }
        self.parts.log.letters(k as usize)
    }

    /// Each number that an entry gave is that of a post before it. This changes nothing, and tells callers of `letters`.
    pub fn letters_law(&self, k: u64)
        ensures { let before = take k self.now.history
            in All (λ number. number < length (posts_of before)) (mail_at self.now.names self.now.history k) }
    {}

    /// How many clients there are.
    pub fn clients(&self) -> u32
        ensures { result ≡ length self.now.names }
    {
        self.parts.names.len() as u32
    }

    /// The name of the client with this number, counted from 0.
    pub fn name(&self, client: u32) -> &Name
        requires { client < length self.now.names }
        ensures { slice_get self.now.names client ≡ Some result.now }
    {
        self.parts.names.get(client as usize)
    }
}
