// A fetch that gives the names of the clients too. They are at hand before it is made, so that no letter is without its names.
ghost use Rattle.std.specs.Prelude.{◌≡◌, ◌↔◌, ◌<◌, length, IfOk, IsTrue, OnOk, OnErr};
ghost use Rattle.moos_client.specs.Calls.{entries_of, entry_of, IsFetched, IsUncalled, MayCall};
ghost use Rattle.moos_db.specs.Database.{after_entry, AreLetters};
ghost use Rattle.moos_post.specs.declared.entry.Call.TheVariants.{Fetch};
ghost use Rattle.moos_post.specs.Delivery.{mail_after};
ghost use Rattle.moos_post.specs.History.{posts_of};

use moos_client::{Lock, Seat};
use moos_db::{Db, Mail};
use moos_post::{Copied, List, Names, NoMemory};
use std::alloc::Global;
use std::sync::Wait;

/// Letters, and the names of the clients where they were fetched. A letter has the number of its source, and the pattern of
/// sources wants its name.
#[derive(Debug, Drop)]
pub struct Fetched {
    /// The names of the clients, by number.
    pub names: Names,
    /// The letters, in the order in which they were mailed.
    pub mail: Mail,
}

impl Fetched {
    /// The names, once the letters are posted.
    pub(crate) fn into_names(self) -> Names {
        let Fetched { names, mail: _ } = self;
        names
    }
}

/// The client fetches its mail at this stamp, in milliseconds, and is given the names of all clients too: those that a fetch
/// before gave, if they still are the clients', and else a copy. It waits for the client's turn.
pub(crate) fn fetch_named<R: Wait>(
    rt: &R,
    alloc: Global,
    lock: &Lock,
    seat: &mut Seat,
    before: Option<Names>,
    stamp: u64,
) -> Result<Fetched, NoMemory>
    requires { MayCall lock.now seat.old }
    ensures names { IfOk result (λ fetched. fetched.names ≡ lock.now.base) }
    ensures fetched { IfOk result (λ fetched. IsFetched seat.old seat.new lock.now.base stamp fetched.mail) }
    ensures uncalled { OnErr result (IsUncalled seat.old seat.new) }
    ensures own { OnErr result (entries_of seat.old.number seat.new.seen ≡ seat.old.mine) }
{
    let client = seat.number();
    let mut held = lock.take(rt, seat);
    let answer = names_and_mail(alloc, held.value_mut(), before, client, stamp);
    match &answer {
        Ok(_) => lock.give(seat, held),
        Err(_) => lock.give_back(seat, held),
    }
    answer
}

// The names of the clients, and then the client's mail.
fn names_and_mail(
    alloc: Global,
    db: &mut Db,
    before: Option<Names>,
    client: u32,
    stamp: u64,
) -> Result<Fetched, NoMemory>
    requires { client < length db.old.names }
    ensures names { IfOk result (λ fetched. fetched.names ≡ db.old.names) }
    ensures mail { let numbers = mail_after db.old.names client db.old.history
        in IfOk result (λ fetched. AreLetters (posts_of db.old.history) numbers fetched.mail) }
    ensures ok { OnOk result (db.new ≡ after_entry db.old (entry_of client stamp Fetch)) }
    ensures same { OnErr result (db.new ≡ db.old) }
{
    let names = names_now(alloc, db, before)?;
    let mail = db.fetch(alloc, client, stamp)?;
    Ok(Fetched { names, mail })
}

// The names of the clients: those of before, if these are the same.
fn names_now(alloc: Global, db: &Db, before: Option<Names>) -> Result<Names, NoMemory>
    ensures { IfOk result (λ names. names ≡ db.now.names) }
{
    if let Some(names) = before {
        if are_names(db, &names) {
            return Ok(names);
        }
    }
    names_of(alloc, db)
}

// Whether these are the names of the clients.
fn are_names(db: &Db, names: &Names) -> bool
    ensures { IsTrue result ↔ (names.now ≡ db.now.names) }
{
    if names.len() != db.clients() as usize {
        return false;
    }
    for client in 0..db.clients() {
        if names.get(client as usize).bytes() != db.name(client).bytes() {
            return false;
        }
    }
    true
}

// The names of the clients.
#[tactic(auto, using(crate::proofs::Names::name_next))]
fn names_of(alloc: Global, db: &Db) -> Result<Names, NoMemory>
    ensures { IfOk result (λ names. names ≡ db.now.names) }
{
    let mut names = List::new(alloc);
    for client in 0..db.clients() {
        names.add(db.name(client).copy(alloc)?)?;
    }
    Ok(names)
}
