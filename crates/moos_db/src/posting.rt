// A post: who hears its variables gets it at once.
ghost use Rattle.std.specs.Prelude.{◌≡◌, ◌<◌, ◌^◌, ◌∷◌, ◌++◌, [], ℕ, List, length, map, true, OnErr, OnOk};
ghost use Rattle.moos_post.specs.declared.value.Post.{Post};
ghost use Rattle.moos_post.specs.Delivery.{Inbox};
ghost use Rattle.moos_post.specs.History.{name_of, posts_of, posts_of_entry};
ghost use Rattle.moos_db.specs.Subscriptions.{HearBelow, AreNoted, AreReady, HaveLetterRoom};
ghost use Rattle.moos_db.specs.Places.{AreKept, makes_posts};

use crate::client::Client;
use crate::log::Log;
use crate::variables::Variables;
use moos_post::{Call, Entry, Names, NoMemory, Pair};
use std::alloc::Global;

// The name of the client with this number.
pub(crate) fn source_of(names: &Names, client: u32) -> &[u8]
    ensures { result.now ≡ name_of names.now client }
{
    match names.all().get(client as usize) {
        Some(name) => name.bytes(),
        None => &[],
    }
}

// Takes all memory that these posts need beside their entry: their variables have numbers, and who hears them has room.
fn prepare(
    alloc: Global,
    variables: &mut Variables,
    clients: &mut Vec<Client>,
    first: usize,
    pairs: &[Pair],
) -> Result<(), NoMemory>
    requires few { length clients.old.items < 2 ^ 32 }
    requires below { HearBelow (length clients.old.items) variables.old.all }
    ensures each { length clients.new.items ≡ length clients.old.items }
    ensures ready { (inboxes : ℕ → Inbox) (posts : List Post) → AreReady inboxes posts variables.old clients.old.items → AreReady inboxes posts variables.new clients.new.items }
    ensures noted { (vars : List (List ℕ)) → AreNoted vars variables.old → OnOk result (AreNoted (vars ++ map (λ pair. pair.var) pairs.now) variables.new) }
    ensures room { OnOk result (HaveLetterRoom clients.new.items variables.new first (length pairs.now)) }
{
    for pair in pairs {
        variables.note(alloc, clients.as_slice(), &pair.var)?;
    }
    variables.make_room(clients, first, pairs.len())
}

// Takes all memory that the posts of this entry need beside it.
fn prepare_entry(
    alloc: Global,
    variables: &mut Variables,
    clients: &mut Vec<Client>,
    first: usize,
    entry: &Entry,
) -> Result<(), NoMemory>
    requires few { length clients.old.items < 2 ^ 32 }
    requires below { HearBelow (length clients.old.items) variables.old.all }
    ensures each { length clients.new.items ≡ length clients.old.items }
    ensures ready { (inboxes : ℕ → Inbox) (posts : List Post) → AreReady inboxes posts variables.old clients.old.items → AreReady inboxes posts variables.new clients.new.items }
    ensures noted { (vars : List (List ℕ)) → AreNoted vars variables.old → OnOk result (AreNoted (vars ++ map (λ post. post.var) (posts_of_entry entry.now)) variables.new) }
    ensures room { OnOk result (HaveLetterRoom clients.new.items variables.new first (length (posts_of_entry entry.now))) }
{
    match &entry.call {
        Call::Post(batch) => prepare(alloc, variables, clients, first, batch.all()),
        _ => Ok(()),
    }
}

// Adds the entry, for whose posts all is prepared.
fn add_entry(
    alloc: Global,
    log: &mut Log,
    variables: &mut Variables,
    clients: &mut Vec<Client>,
    entry: Entry,
) -> Result<(), NoMemory>
    requires few { length clients.old.items < 2 ^ 32 }
    requires below { HearBelow (length clients.old.items) variables.old.all }
    ensures ok { OnOk result (log.new ≡ record {
      entries = log.old.entries ++ entry ∷ [];
      letters = log.old.letters ++ [] ∷ [];
    }) }
    ensures same { OnErr result (log.new ≡ log.old) }
    ensures each { length clients.new.items ≡ length clients.old.items }
    ensures ready { (inboxes : ℕ → Inbox) (posts : List Post) → AreReady inboxes posts variables.old clients.old.items → AreReady inboxes posts variables.new clients.new.items }
    ensures noted { (vars : List (List ℕ)) → AreNoted vars variables.old → OnOk result (AreNoted (vars ++ map (λ post. post.var) (posts_of_entry entry)) variables.new) }
    ensures room { OnOk result (HaveLetterRoom clients.new.items variables.new (length (posts_of log.old.entries)) (length (posts_of_entry entry))) }
{
    prepare_entry(alloc, variables, clients, log.posts(), &entry)?;
    log.append(alloc, entry)
}

// Adds a call that posts, and mails its posts in their order. Without memory nothing changes, but that a variable may have a number
// already.
pub(crate) fn post(
    alloc: Global,
    names: &Names,
    log: &mut Log,
    variables: &mut Variables,
    clients: &mut Vec<Client>,
    entry: Entry,
) -> Result<(), NoMemory>
    requires posts { makes_posts entry.call ≡ true }
    requires kept { AreKept names.now log.old.entries variables.old clients.old.items }
    ensures ok { OnOk result (log.new ≡ record {
      entries = log.old.entries ++ entry ∷ [];
      letters = log.old.letters ++ [] ∷ [];
    }) }
    ensures same { OnErr result (log.new ≡ log.old) }
    ensures kept { AreKept names.now log.new.entries variables.new clients.new.items }
{
    let first = log.posts();
    if let Err(no_memory) = add_entry(alloc, log, variables, clients, entry) {
        variables.forget(first);
        return Err(no_memory);
    }
    for number in first..log.posts() {
        let origin = log.origin(number);
        let source = source_of(names, origin.client);
        variables.mail(clients, number, origin.stamp, source);
    }
    Ok(())
}
