// Calls that register and withdraw.
ghost use Rattle.std.specs.Prelude.{◌≡◌, ◌<◌, ◌≤◌, ◌+◌, ◌∷◌, ◌++◌, [], fold, length, map, slice_get, ℕ, List, IfOk, OnErr, OnOk, Some};
ghost use Rattle.std.specs.List.{All, Contains};
ghost use Rattle.std.specs.List.Sorted.{IsStrictlyIncreasing};
ghost use Rattle.moos_post.specs.declared.value.Post.{Post};
ghost use Rattle.moos_post.specs.Delivery.{Inbox, without_patterns};
ghost use Rattle.moos_post.specs.History.{posts_of};
ghost use Rattle.moos_db.specs.Clients.{ClientState};
ghost use Rattle.moos_db.specs.Subscriptions.{AreKeptAs, AreNoted, with_inbox, with_lives};
ghost use Rattle.moos_db.specs.Places.{AreKept};
ghost use Rattle.moos_db.specs.Registering.{AreRoomier, AreStill, HasRoomThrough, IsLatestPost, IsPrepared, catch_number, latest_heard, latest_prepared, variable_names, prepared_of, StandsAt, with_prepared};

use crate::client::Client;
use crate::log::Log;
use crate::posting::source_of;
use crate::registration::Registration;
use crate::subscription::Subscription;
use crate::variables::Variables;
use moos_post::{Call, Copied, Entry, Names, NoMemory, Pattern, Reg, Regs};
use std::alloc::Global;
use std::marker::Model;
use std::sync::Arc;

// A registration that is to be made, and through it those who are to hear a variable, each with the variable's number.
#[derive(Drop)]
struct Prepared {
    live: Arc<Registration>,
    subscriptions: Vec<(usize, Subscription)>,
}

impl Model for Prepared {
    ghost use Rattle.moos_db.specs.Registering.{PreparedState};

    ghost Value = { PreparedState };

    ghost view = { λ one. record { live = one.live.value; subscriptions = one.subscriptions.items } };
}

// Takes all memory for this registration of the client, which this entry is to make, and leaves `room` with each variable.
fn prepare(
    alloc: Global,
    variables: &mut Variables,
    client: u32,
    made: u64,
    reg: &Reg,
    room: usize,
) -> Result<Prepared, NoMemory>
    ensures one { IfOk result (λ one. one ≡ prepared_of client made (variable_names variables.old.all) reg.now) }
    ensures roomier { AreRoomier variables.old variables.new }
    ensures room { OnOk result (HasRoomThrough room reg.now.var variables.new.all) }
{
    let reg = reg.copy(alloc)?;
    let live = Arc::new(alloc, Registration { reg, made })?;
    let subscriptions = variables.subscriptions_through(alloc, client, &live, room)?;
    Ok(Prepared {
        live,
        subscriptions,
    })
}

// Takes all memory for these registrations of the client, which this entry is to make.
fn prepare_all(
    alloc: Global,
    variables: &mut Variables,
    client: u32,
    made: u64,
    regs: &[Reg],
) -> Result<Vec<Prepared>, NoMemory>
    ensures each { IfOk result (λ all. all.items ≡ map (prepared_of client made (variable_names variables.old.all)) regs.now) }
    ensures roomier { AreRoomier variables.old variables.new }
    ensures room { OnOk result (All (λ reg. HasRoomThrough (length regs.now) reg.var variables.new.all) regs.now) }
{
    let mut all = Vec::new(alloc);
    for reg in regs {
        let one = prepare(alloc, variables, client, made, reg, regs.len())?;
        all.push(one)?;
    }
    Ok(all)
}

// Adds the numbers of the latest posts of the variables that these are to hear.
fn add_latest(
    numbers: &mut Vec<u64>,
    variables: &Variables,
    subscriptions: &[(usize, Subscription)],
) -> Result<(), NoMemory>
    ensures { OnOk result (numbers.new.items ≡ numbers.old.items ++ latest_heard variables.now.all subscriptions.now) }
{
    for (variable, _) in subscriptions {
        if let Some(number) = variables.latest(*variable) {
            numbers.push(number)?;
        }
    }
    Ok(())
}

// The numbers of the latest posts of the variables that are to be heard through these.
fn all_latest(
    alloc: Global,
    variables: &Variables,
    prepared: &[Prepared],
) -> Result<Vec<u64>, NoMemory>
    ensures { IfOk result (λ numbers. numbers.items ≡ latest_prepared variables.now.all prepared.now) }
{
    let mut numbers = Vec::new(alloc);
    for one in prepared {
        add_latest(&mut numbers, variables, one.subscriptions.as_slice())?;
    }
    Ok(numbers)
}

// The same in rising order, each once.
fn latest_of(
    alloc: Global,
    variables: &Variables,
    prepared: &[Prepared],
) -> Result<Vec<u64>, NoMemory>
    ensures rising { IfOk result (λ latest. IsStrictlyIncreasing latest.items) }
    ensures only { IfOk result (λ latest. (number : ℕ) → Contains latest.items number → Contains (latest_prepared variables.now.all prepared.now) number) }
    ensures each { IfOk result (λ latest. (number : ℕ) → Contains (latest_prepared variables.now.all prepared.now) number → Contains latest.items number) }
{
    let mut numbers = all_latest(alloc, variables, prepared)?;
    numbers.sort_unstable();
    numbers.dedup();
    Ok(numbers)
}

// Takes the client's memory for `regs` registrations and `letters` letters more.
fn make_room(kept: &mut Client, regs: usize, letters: usize) -> Result<(), NoMemory>
    ensures same { kept.new ≡ record kept.old { spare = kept.new.spare; room = kept.new.room } }
    ensures regs { OnOk result (regs ≤ kept.new.room) }
    ensures letters { OnOk result (letters ≤ kept.new.spare) }
{
    kept.reserve(regs)?;
    kept.make_room(letters)
}

// Withdraws the client's registration with these patterns, if it has one.
pub(crate) fn withdraw(
    variables: &mut Variables,
    clients: &mut Vec<Client>,
    client: u32,
    var: &Pattern,
    source: &Pattern,
)
    requires { client < length clients.old.items }
    ensures kept { (inboxes : ℕ → Inbox) (posts : List Post) → AreKeptAs inboxes posts variables.old clients.old.items →
        AreKeptAs (with_lives client (without_patterns var.now source.now) inboxes) posts variables.new clients.new.items }
    ensures noted { variables.new.noted ≡ variables.old.noted }
    ensures still { AreStill 0 variables.old variables.new clients.old.items clients.new.items }
{
    let kept = &mut clients[client as usize];
    if kept.has(var, source) {
        kept.withdraw(var, source);
        variables.withdraw(client, var, source);
    }
}

// The client makes the registration that is prepared.
fn make(variables: &mut Variables, clients: &mut Vec<Client>, client: u32, one: Prepared)
    requires within { client < length clients.old.items }
    requires ready { IsPrepared client 1 variables.old.all one }
    requires room { (kept : ClientState) → slice_get clients.old.items client ≡ Some kept → 1 ≤ kept.room }
    ensures kept { (inboxes : ℕ → Inbox) (posts : List Post) → AreKeptAs inboxes posts variables.old clients.old.items →
        AreKeptAs (with_lives client (λ lives. with_prepared lives one) inboxes) posts variables.new clients.new.items }
    ensures still { AreStill 1 variables.old variables.new clients.old.items clients.new.items }
    ensures noted { variables.new.noted ≡ variables.old.noted }
{
    let Prepared {
        live,
        subscriptions,
    } = one;
    withdraw(variables, clients, client, &live.reg.var, &live.reg.source);
    variables.add_subscriptions(subscriptions);
    clients[client as usize].add(live);
}

// The client makes these registrations, one after the other.
fn make_all(variables: &mut Variables, clients: &mut Vec<Client>, client: u32, all: Vec<Prepared>)
    requires within { client < length clients.old.items }
    requires ready { All (IsPrepared client (length all.items) variables.old.all) all.items }
    requires room { (kept : ClientState) → slice_get clients.old.items client ≡ Some kept → length all.items ≤ kept.room }
    ensures kept { (inboxes : ℕ → Inbox) (posts : List Post) → AreKeptAs inboxes posts variables.old clients.old.items →
        AreKeptAs (with_lives client (λ lives. fold with_prepared lives all.items) inboxes) posts variables.new clients.new.items }
    ensures still { AreStill (length all.items) variables.old variables.new clients.old.items clients.new.items }
    ensures noted { variables.new.noted ≡ variables.old.noted }
{
    for one in all {
        make(variables, clients, client, one);
    }
}

// The post with this number, which is the latest of its variable, catches up if it may: if the client made a registration at this
// entry that selects it, and it was never mailed to the client.
fn catch_one(
    names: &Names,
    log: &Log,
    variables: &mut Variables,
    clients: &mut Vec<Client>,
    client: u32,
    made: u64,
    number: u64,
)
    requires within { client < length clients.old.items }
    requires below { number < length (posts_of log.now.entries) }
    requires latest { IsLatestPost (posts_of log.now.entries) number }
    requires noted { AreNoted (map (λ post. post.var) (posts_of log.now.entries)) variables.old }
    requires room { (kept : ClientState) → slice_get clients.old.items client ≡ Some kept → 1 ≤ kept.spare }
    ensures kept { (inboxes : ℕ → Inbox) → StandsAt made (inboxes client) → AreKeptAs inboxes (posts_of log.now.entries) variables.old clients.old.items →
        AreKeptAs (with_inbox client (λ one. catch_number names.now (posts_of log.now.entries) one number) inboxes) (posts_of log.now.entries) variables.new clients.new.items }
    ensures noted { AreNoted (map (λ post. post.var) (posts_of log.now.entries)) variables.new }
    ensures each { length clients.new.items ≡ length clients.old.items }
    ensures room { (one other : ClientState) → slice_get clients.old.items client ≡ Some one → slice_get clients.new.items client ≡ Some other → one.spare ≤ other.spare + 1 }
{
    if variables.was_mailed(client, number) {
        return;
    }
    let origin = log.origin(number as usize);
    let source = source_of(names, origin.client);
    if variables.catch_up(client, made, number, origin.stamp, source) {
        clients[client as usize].mail(number);
    }
}

// The latest posts with these numbers catch up if they may, one after the other.
fn catch_up(
    names: &Names,
    log: &Log,
    variables: &mut Variables,
    clients: &mut Vec<Client>,
    client: u32,
    made: u64,
    latest: &[u64],
)
    requires within { client < length clients.old.items }
    requires below { All (λ number. number < length (posts_of log.now.entries)) latest.now }
    requires latest { All (IsLatestPost (posts_of log.now.entries)) latest.now }
    requires noted { AreNoted (map (λ post. post.var) (posts_of log.now.entries)) variables.old }
    requires room { (kept : ClientState) → slice_get clients.old.items client ≡ Some kept → length latest.now ≤ kept.spare }
    ensures kept { (inboxes : ℕ → Inbox) → StandsAt made (inboxes client) → AreKeptAs inboxes (posts_of log.now.entries) variables.old clients.old.items →
        AreKeptAs (with_inbox client (λ one. fold (catch_number names.now (posts_of log.now.entries)) one latest.now) inboxes) (posts_of log.now.entries) variables.new clients.new.items }
    ensures noted { AreNoted (map (λ post. post.var) (posts_of log.now.entries)) variables.new }
    ensures each { length clients.new.items ≡ length clients.old.items }
{
    for &number in latest {
        catch_one(names, log, variables, clients, client, made, number);
    }
}

// Adds a call that registers. Without memory nothing changes.
pub(crate) fn register(
    alloc: Global,
    names: &Names,
    log: &mut Log,
    variables: &mut Variables,
    clients: &mut Vec<Client>,
    client: u32,
    stamp: u64,
    regs: Regs,
) -> Result<(), NoMemory>
    requires within { client < length names.now }
    requires kept { AreKept names.now log.old.entries variables.old clients.old.items }
    ensures ok { OnOk result (log.new ≡ record {
      entries = log.old.entries ++ record { stamp = stamp; client = client; call = Call.Register regs } ∷ [];
      letters = log.old.letters ++ [] ∷ [];
    }) }
    ensures same { OnErr result (log.new ≡ log.old) }
    ensures kept { AreKept names.now log.new.entries variables.new clients.new.items }
{
    let made = log.len() as u64;
    let all = prepare_all(alloc, variables, client, made, regs.all())?;
    let latest = latest_of(alloc, variables, all.as_slice())?;
    make_room(&mut clients[client as usize], all.len(), latest.len())?;
    let call = Call::Register(regs);
    log.append(
        alloc,
        Entry {
            stamp,
            client,
            call,
        },
    )?;
    make_all(variables, clients, client, all);
    catch_up(
        names,
        log,
        variables,
        clients,
        client,
        made,
        latest.as_slice(),
    );
    Ok(())
}

// Adds a call that withdraws. Without memory nothing changes.
pub(crate) fn unregister(
    alloc: Global,
    log: &mut Log,
    variables: &mut Variables,
    clients: &mut Vec<Client>,
    client: u32,
    stamp: u64,
    var: &Pattern,
    source: &Pattern,
) -> Result<(), NoMemory>
    requires within { client < length clients.old.items }
    ensures ok { OnOk result (log.new ≡ record {
      entries = log.old.entries ++ record { stamp = stamp; client = client; call = Call.Unregister var.now source.now } ∷ [];
      letters = log.old.letters ++ [] ∷ [];
    }) }
    ensures same { OnErr result (log.new ≡ log.old) }
    ensures kept { (names : List (List ℕ)) → AreKept names log.old.entries variables.old clients.old.items →
        AreKept names log.new.entries variables.new clients.new.items }
{
    log.append(
        alloc,
        Entry {
            stamp,
            client,
            call: Call::Unregister(var.copy(alloc)?, source.copy(alloc)?),
        },
    )?;
    withdraw(variables, clients, client, var, source);
    Ok(())
}
