// The variables that were posted, each with those that hear it.
ghost use Rattle.std.specs.Prelude.{◌≡◌, ◌<◌, ◌≤◌, ◌+◌, ◌^◌, ◌++◌, ◌∷◌, [], ℕ, List, None, Some, true, length, map, slice_get, slice_set, take, if◌then◌else◌, IfOk, OnErr, OnOk};
ghost use Rattle.std.specs.List.{All, list_any};
ghost use Rattle.moos_post.specs.Delivery.{Inbox};
ghost use Rattle.moos_post.specs.Patterns.{matches};
ghost use Rattle.moos_db.specs.Subscriptions.{AreAlike, HearBelow, AreNoted, AreReady, caught_at, HaveLetterRoom, HaveMarks, IsAdded, is_new_at, is_recipient, IsNumbering, IsPosted, MayAdd, name_at, VariableState};
ghost use Rattle.moos_db.specs.Registering.{AreEach, AreEachAt, AreRoomier, HasRoomThrough, HaveRoomFor, heard_where, heard_through, IsAddedTo, IsCaught, IsRoomier, latest_at, variable_names};
ghost use Rattle.moos_db.specs.Tables.{number_of};
ghost use Rattle.moos_post.specs.declared.value.Post.{Post};
ghost use Rattle.moos_db.specs.Withdrawing.{AreWithdrawn, IsWithdrawn};

use crate::client::Client;
use crate::recipients::Recipients;
use crate::registration::Registration;
use crate::subscription::Subscription;
use crate::subscriptions::{catch_all, first_subscriptions, mail_to};
use crate::table::Table;
use moos_post::{Copied, Name, NoMemory, Pattern};
use moos_reg::matches;
use std::alloc::Global;
use std::marker::Model;
use std::sync::Arc;

// A variable, the number of its latest post, if there is one, to which clients that was mailed, and who hears the variable: of each
// client the live registrations that match it, in their order.
#[derive(Drop)]
pub(crate) struct Variable {
    name: Name,
    latest: Option<u64>,
    recipients: Recipients,
    subscriptions: Vec<Subscription>,
}

// The variables that were posted, each under its number, from 0 in the order of their first posts, and of each post the number of
// its variable.
//
// A post looks at those who hear its variable, and at nobody else. A registration looks at the variables.
#[derive(Drop)]
pub(crate) struct Variables {
    all: Vec<Variable>,
    numbers: Table,
    noted: Vec<usize>,
}

impl Model for Variable {
    ghost use Rattle.std.specs.Prelude.{◌-◌, vec_capacity, vec_len};
    ghost use Rattle.moos_db.specs.Subscriptions.{VariableState};

    ghost Value = { VariableState };

    ghost view = { λ variable. record {
      name = variable.name;
      latest = variable.latest;
      recipients = variable.recipients;
      subscriptions = variable.subscriptions.items;
      room = vec_capacity variable.subscriptions - vec_len variable.subscriptions;
    } };
}

impl Model for Variables {
    ghost use Rattle.moos_db.specs.Subscriptions.{AreNumbers, VariablesState};

    ghost Value = { VariablesState };

    ghost view = { λ variables. record { all = variables.all.items; numbers = variables.numbers; noted = variables.noted.items } };

    ghost invariant = { λ variables. AreNumbers (record { all = variables.all.items; numbers = variables.numbers; noted = variables.noted.items }) };
}

impl Variable {
    // Makes room for `more` subscriptions to it.
    fn reserve(&mut self, more: usize) -> Result<(), NoMemory>
        ensures roomier { IsRoomier self.old self.new }
        ensures room { OnOk result (more ≤ self.new.room) }
    {
        self.subscriptions.reserve(more)?;
        Ok(())
    }

    // Through the registration the client is to hear the variable, which has this number, if that matches it. There is room for so
    // many of the client then.
    fn hear_through(
        &mut self,
        subscriptions: &mut Vec<(usize, Subscription)>,
        number: usize,
        client: u32,
        live: &Arc<Registration>,
        room: usize,
    ) -> Result<(), NoMemory>
        ensures heard { OnOk result (subscriptions.new.items ≡ subscriptions.old.items ++ heard_where client live.now.value number self.old.name) }
        ensures roomier { IsRoomier self.old self.new }
        ensures room { OnOk result (matches live.now.value.reg.var self.old.name ≡ true → room ≤ self.new.room) }
    {
        if live.hears(&self.name) {
            self.reserve(room)?;
            subscriptions.push((number, Subscription::new(client, live.clone()?)))?;
        }
        Ok(())
    }

    // One more hears it, for whom there is room.
    fn add(&mut self, subscription: Subscription)
        requires { 0 < self.old.room }
        ensures same { self.new ≡ record self.old { subscriptions = self.old.subscriptions ++ subscription ∷ []; room = self.new.room } }
        ensures room { self.old.room ≤ self.new.room + 1 }
    {
        self.subscriptions.push_reserved(subscription);
    }

    // The client hears it no more through its registration with these patterns.
    fn withdraw(&mut self, client: u32, var: &Pattern, source: &Pattern)
        ensures { IsWithdrawn client var.now source.now self.old self.new }
    {
        if matches(var, self.name.bytes()) {
            self.subscriptions.retain(|subscription| !subscription.is_registration(
                client, var, source,
            ));
        }
    }

    // Its latest post catches up: it comes through the registrations that the client made at this entry and that select it. Tells
    // whether there is one, which makes the client one of its recipients.
    fn catch_up(&mut self, client: u32, made: u64, stamp: u64, source: &[u8]) -> bool
        ensures catches { result ≡ list_any (is_new_at client made source.now) self.old.subscriptions }
        ensures same { self.new ≡ record self.old {
          recipients = if result then slice_set self.old.recipients client true else self.old.recipients;
          subscriptions = map (caught_at client made stamp source.now) self.old.subscriptions;
          room = self.new.room;
        } }
    {
        let catches = catch_all(&mut self.subscriptions, client, made, stamp, source);
        if catches {
            self.recipients.add(client);
        }
        catches
    }
}

// Through the registration the client is to hear each of these variables that it matches: that variable's number, and who hears it.
// There is room for so many of the client there.
fn subscriptions_among(
    alloc: Global,
    all: &mut Vec<Variable>,
    client: u32,
    live: &Arc<Registration>,
    room: usize,
) -> Result<Vec<(usize, Subscription)>, NoMemory>
    ensures through { IfOk result (λ subscriptions. subscriptions.items ≡ heard_through client live.now.value 0 (variable_names all.old.items)) }
    ensures roomier { AreEach IsRoomier all.old.items all.new.items }
    ensures room { OnOk result (HasRoomThrough room live.now.value.reg.var all.new.items) }
{
    let mut subscriptions = Vec::new(alloc);
    for number in 0..all.len() {
        all[number].hear_through(&mut subscriptions, number, client, live, room)?;
    }
    Ok(subscriptions)
}

// These hear from now on, each the one of the variables with its number. There is room for them.
fn add_among(all: &mut Vec<Variable>, subscriptions: Vec<(usize, Subscription)>)
    requires within { All (λ one. one.0 < length all.old.items) subscriptions.items }
    requires room { HaveRoomFor subscriptions.items all.old.items }
    ensures { AreEachAt (IsAddedTo subscriptions.items) all.old.items all.new.items }
{
    for (number, subscription) in subscriptions {
        all[number].add(subscription);
    }
}

// The client hears none of these any more through its registration with these patterns.
fn withdraw_from_all(all: &mut Vec<Variable>, client: u32, var: &Pattern, source: &Pattern)
    ensures { AreEach (IsWithdrawn client var.now source.now) all.old.items all.new.items }
{
    for number in 0..all.len() {
        all[number].withdraw(client, var, source);
    }
}

impl Variables {
    // The variables of no post.
    pub fn new(alloc: Global) -> Variables
        ensures { result ≡ record { all = []; numbers = []; noted = [] } }
    {
        Variables {
            all: Vec::new(alloc),
            numbers: Table::new(alloc),
            noted: Vec::new(alloc),
        }
    }

    // A variable that has no number gets the next one.
    fn add(&mut self, alloc: Global, clients: &[Client], var: &Name) -> Result<usize, NoMemory>
        requires few { length clients.now < 2 ^ 32 }
        requires unknown { number_of var.now self.old.numbers ≡ None }
        ensures number { IfOk result (λ number. name_at self.new.all number ≡ Some var.now) }
        ensures added { OnOk result (IsAdded clients.now var.now self.old self.new) }
        ensures same { OnErr result (self.new ≡ self.old) }
    {
        let number = self.all.len();
        let recipients = Recipients::new(alloc, clients.len())?;
        let subscriptions = first_subscriptions(alloc, clients, var)?;
        let name = var.copy(alloc)?;
        self.all.reserve(1)?;
        self.numbers.set(alloc, var, number as u64)?;
        self.all.push_reserved(Variable {
            name,
            latest: None,
            recipients,
            subscriptions,
        });
        Ok(number)
    }

    // The number of the variable, which gets one if it has none.
    fn number_for(
        &mut self,
        alloc: Global,
        clients: &[Client],
        var: &Name,
    ) -> Result<usize, NoMemory>
        requires few { length clients.now < 2 ^ 32 }
        ensures number { IfOk result (λ number. name_at self.new.all number ≡ Some var.now) }
        ensures added { MayAdd clients.now var.now self.old self.new }
        ensures numbering { IsNumbering self.old.all self.old.numbers }
    {
        match self.numbers.number_of(var) {
            Some(number) => Ok(number as usize),
            None => self.add(alloc, clients, var),
        }
    }

    // Notes the variable of the next post.
    pub fn note(&mut self, alloc: Global, clients: &[Client], var: &Name) -> Result<(), NoMemory>
        requires few { length clients.now < 2 ^ 32 }
        ensures noted { (vars : List (List ℕ)) → AreNoted vars self.old → OnOk result (AreNoted (vars ++ var.now ∷ []) self.new) }
        ensures below { HearBelow (length clients.now) self.old.all → HearBelow (length clients.now) self.new.all }
        ensures ready { (inboxes : ℕ → Inbox) (posts : List Post) → AreReady inboxes posts self.old clients.now → AreReady inboxes posts self.new clients.now }
    {
        let number = self.number_for(alloc, clients, var)?;
        self.noted.push(number)?;
        Ok(())
    }

    // Forgets the variables of the posts from this number on.
    pub fn forget(&mut self, from: usize)
        ensures { self.new ≡ record self.old { noted = take from self.old.noted } }
    {
        self.noted.truncate(from);
    }

    // Makes room for `more` letters with each client that hears one of the posts from this number on.
    pub fn make_room(
        &self,
        clients: &mut Vec<Client>,
        from: usize,
        more: usize,
    ) -> Result<(), NoMemory>
        requires below { HearBelow (length clients.old.items) self.now.all }
        ensures alike { AreAlike clients.old.items clients.new.items }
        ensures room { OnOk result (HaveLetterRoom clients.new.items self.now from more) }
    {
        for post in from..self.noted.len() {
            for subscription in self.all[self.noted[post]].subscriptions.as_slice() {
                clients[subscription.client() as usize].make_room(more)?;
            }
        }
        Ok(())
    }

    // The post with this number, of this stamp and from the client with this name, is mailed once to each client that has a
    // registration at which it is due, and comes through each of these.
    pub fn mail(&mut self, clients: &mut Vec<Client>, number: usize, stamp: u64, source: &[u8])
        requires noted { number < length self.old.noted }
        requires below { HearBelow (length clients.old.items) self.old.all }
        requires room { HaveLetterRoom clients.old.items self.old number 1 }
        requires marks { HaveMarks (length clients.old.items) self.old.all }
        ensures { IsPosted number stamp source.now self.old self.new clients.old.items clients.new.items }
    {
        let variable = &mut self.all[self.noted[number]];
        variable.latest = Some(number as u64);
        mail_to(
            &mut variable.subscriptions,
            &mut variable.recipients,
            clients,
            number as u64,
            stamp,
            source,
        );
    }

    // Through the registration the client is to hear each variable that it matches: that variable's number, and who hears it. There is
    // room for so many of the client there.
    pub fn subscriptions_through(
        &mut self,
        alloc: Global,
        client: u32,
        live: &Arc<Registration>,
        room: usize,
    ) -> Result<Vec<(usize, Subscription)>, NoMemory>
        ensures through { IfOk result (λ subscriptions. subscriptions.items ≡ heard_through client live.now.value 0 (variable_names self.old.all)) }
        ensures roomier { AreRoomier self.old self.new }
        ensures room { OnOk result (HasRoomThrough room live.now.value.reg.var self.new.all) }
    {
        subscriptions_among(alloc, &mut self.all, client, live, room)
    }

    // These hear from now on, each the variable with its number. There is room for them.
    pub fn add_subscriptions(&mut self, subscriptions: Vec<(usize, Subscription)>)
        requires within { All (λ one. one.0 < length self.old.all) subscriptions.items }
        requires room { HaveRoomFor subscriptions.items self.old.all }
        ensures added { AreEachAt (IsAddedTo subscriptions.items) self.old.all self.new.all }
        ensures numbers { self.new.numbers ≡ self.old.numbers }
        ensures noted { self.new.noted ≡ self.old.noted }
    {
        add_among(&mut self.all, subscriptions);
    }

    // The client hears no more through its registration with these patterns.
    pub fn withdraw(&mut self, client: u32, var: &Pattern, source: &Pattern)
        ensures { AreWithdrawn client var.now source.now self.old self.new }
    {
        withdraw_from_all(&mut self.all, client, var, source);
    }

    // The number of the latest post of the variable with this number, if there is one.
    pub fn latest(&self, number: usize) -> Option<u64>
        ensures { result ≡ latest_at self.now.all number }
    {
        self.all.get(number)?.latest
    }

    // Whether the post with this number, which is the latest of its variable, was mailed to the client.
    pub fn was_mailed(&self, client: u32, number: u64) -> bool
        requires { number < length self.now.noted }
        ensures { (place : ℕ) (variable : VariableState) → slice_get self.now.noted number ≡ Some place → slice_get self.now.all place ≡ Some variable →
            result ≡ is_recipient variable.recipients client }
    {
        let place = self.noted[number as usize];
        self.all[place].recipients.has(client)
    }

    // The post with this number, the latest of its variable, of this stamp and from the client with this name, comes through the
    // registrations that the client made at this entry and that select it. Tells whether there is one, which makes the client one of
    // the post's recipients.
    pub fn catch_up(
        &mut self,
        client: u32,
        made: u64,
        number: u64,
        stamp: u64,
        source: &[u8],
    ) -> bool
        requires { number < length self.old.noted }
        ensures { (place : ℕ) → slice_get self.old.noted number ≡ Some place → IsCaught client made stamp source.now place result self.old self.new }
    {
        let place = self.noted[number as usize];
        self.all[place].catch_up(client, made, stamp, source)
    }

    // The same name as that of the post with this number, which all posts of the variable share, so that it is at hand in a
    // processor's cache.
    pub fn name(&self, post: u64) -> &Name
        requires { post < length self.now.noted }
        ensures { (vars : List (List ℕ)) → AreNoted vars self.now → slice_get vars post ≡ Some result.now }
    {
        &self.all[self.noted[post as usize]].name
    }
}
