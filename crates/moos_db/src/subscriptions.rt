// Those who hear a variable.
ghost use Rattle.std.specs.Prelude.{◌≡◌, ◌<◌, ◌≤◌, ◌^◌, ◌++◌, ℕ, false, true, length, map, slice_get, IfOk, OnOk, Some};
ghost use Rattle.std.specs.List.{All, list_any};
ghost use Rattle.moos_db.specs.Subscriptions.{AreMailed, AreRecipients, caught_at, fresh_subscriptions, HasRoom, IsMailedTo, after_hearing, is_new_at, is_recipient, lives_at, of_client};
ghost use Rattle.moos_db.specs.Clients.{ClientState};

use crate::client::Client;
use crate::recipients::Recipients;
use crate::registration::Registration;
use crate::subscription::Subscription;
use moos_post::{Name, NoMemory};
use std::alloc::Global;
use std::sync::Arc;

// Adds the client with this number as one who hears the variable through each of these registrations that matches it.
fn add_client(
    subscriptions: &mut Vec<Subscription>,
    client: u32,
    lives: &[Arc<Registration>],
    var: &Name,
) -> Result<(), NoMemory>
    ensures { OnOk result (subscriptions.new.items ≡ subscriptions.old.items ++ fresh_subscriptions client var.now (map (λ live. live.value) lives.now)) }
{
    for live in lives {
        if live.hears(var) {
            subscriptions.push(Subscription::new(client, live.clone()?))?;
        }
    }
    Ok(())
}

// Who hears the variable, before any post of it came through.
pub(crate) fn first_subscriptions(
    alloc: Global,
    clients: &[Client],
    var: &Name,
) -> Result<Vec<Subscription>, NoMemory>
    requires few { length clients.now < 2 ^ 32 }
    ensures each { IfOk result (λ subscriptions. (client : ℕ) → client < length clients.now →
        of_client client subscriptions.items ≡ fresh_subscriptions client var.now (lives_at clients.now client)) }
    ensures within { IfOk result (λ subscriptions. All (λ subscription. subscription.client < length clients.now) subscriptions.items) }
{
    let mut subscriptions = Vec::new(alloc);
    for number in 0..clients.len() {
        add_client(
            &mut subscriptions,
            number as u32,
            clients[number].lives(),
            var,
        )?;
    }
    Ok(subscriptions)
}

// The post with this number, of this stamp and from the client with this name, comes through each of these at which it is due, and is
// mailed once to each client that has one. These alone are its recipients.
pub(crate) fn mail_to(
    subscriptions: &mut Vec<Subscription>,
    recipients: &mut Recipients,
    clients: &mut Vec<Client>,
    number: u64,
    stamp: u64,
    source: &[u8],
)
    requires below { All (λ subscription. subscription.client < length clients.old.items) subscriptions.old.items }
    requires room { All (HasRoom clients.old.items 1) subscriptions.old.items }
    requires marks { length recipients.old ≡ length clients.old.items }
    ensures heard { subscriptions.new.items ≡ map (after_hearing stamp source.now) subscriptions.old.items }
    ensures mailed { AreMailed number stamp source.now subscriptions.old.items clients.old.items clients.new.items }
    ensures marked { AreRecipients stamp source.now subscriptions.old.items (length clients.old.items) recipients.new }
{
    recipients.clear();
    for k in 0..subscriptions.len() {
        if subscriptions[k].hear(stamp, source) {
            mail_once(recipients, clients, subscriptions[k].client(), number);
        }
    }
}

// Mails the post with this number to the client, if that isn't one of its recipients yet, and makes it one.
fn mail_once(recipients: &mut Recipients, clients: &mut Vec<Client>, client: u32, number: u64)
    requires within { client < length clients.old.items }
    requires room { is_recipient recipients.old client ≡ false → (one : ClientState) → slice_get clients.old.items client ≡ Some one → 1 ≤ one.spare }
    ensures again { is_recipient recipients.old client ≡ true → (recipients.new ≡ recipients.old) × (clients.new.items ≡ clients.old.items) }
    ensures first { is_recipient recipients.old client ≡ false → IsMailedTo client number recipients.old recipients.new clients.old.items clients.new.items }
{
    if recipients.has(client) {
        return;
    }
    recipients.add(client);
    clients[client as usize].mail(number);
}

// A post of this stamp that catches up comes through those of these that the client made at this entry and that select it. Tells
// whether there is one.
pub(crate) fn catch_all(
    subscriptions: &mut Vec<Subscription>,
    client: u32,
    made: u64,
    stamp: u64,
    source: &[u8],
) -> bool
    ensures catches { result ≡ list_any (is_new_at client made source.now) subscriptions.old.items }
    ensures caught { subscriptions.new.items ≡ map (caught_at client made stamp source.now) subscriptions.old.items }
{
    let mut catches = false;
    for k in 0..subscriptions.len() {
        catches |= subscriptions[k].catch_up(client, made, stamp, source);
    }
    catches
}
