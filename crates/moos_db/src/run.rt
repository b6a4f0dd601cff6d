// Calls made one after another, and the mails that they give.
ghost use Rattle.std.specs.Prelude.{◌≡◌, ◌^◌, ◌<◌, [], length, All, IfOk, OnOk, Some};
ghost use Rattle.moos_post.specs.Delivery.{mail_of_entry};
ghost use Rattle.moos_post.specs.History.{posts_of};
ghost use Rattle.moos_db.specs.Database.{after_entry, AreLetters, AreMails};

use crate::db::Db;
use crate::mail::Mail;
use moos_post::{Call, Entry, Names, NoMemory};
use std::alloc::Global;

// The mail that this entry gives, the next of the database.
fn mail_of(alloc: Global, db: &mut Db, entry: Entry) -> Result<Mail, NoMemory>
    requires { entry.client < length db.old.names }
    ensures ok { OnOk result (db.new ≡ after_entry db.old entry) }
    ensures mail { let numbers = mail_of_entry db.old.names db.old.history (Some entry)
        in IfOk result (AreLetters (posts_of db.old.history) numbers) }
{
    let Entry {
        stamp,
        client,
        call,
    } = entry;
    let made = match call {
        Call::Register(regs) => db.register(alloc, client, stamp, regs),
        Call::Unregister(var, source) => db.unregister(alloc, client, stamp, var, source),
        Call::Post(batch) => db.post(alloc, client, stamp, batch),
        Call::Fetch => return db.fetch(alloc, client, stamp),
    };
    made?;
    Ok(Mail::new(alloc))
}

/// The mail of each of these calls, made one after another of a database of clients with these names: of a fetch what
/// it gives, and of any other call nothing.
pub fn mails_of(alloc: Global, names: Names, calls: Vec<Entry>) -> Result<Vec<Mail>, NoMemory>
    requires few { length names < 2 ^ 32 }
    requires clients { All (λ call. call.client < length names) calls.items }
    ensures { IfOk result (λ mails. AreMails names calls.items mails.items) }
{
    let mut db = Db::make(alloc, names)?;
    mails_by(alloc, &mut db, calls)
}

// The mail of each of these calls, made of this database, to which none was made yet.
fn mails_by(alloc: Global, db: &mut Db, calls: Vec<Entry>) -> Result<Vec<Mail>, NoMemory>
    requires new { db.old.history ≡ [] }
    requires clients { All (λ call. call.client < length db.old.names) calls.items }
    ensures { IfOk result (λ mails. AreMails db.old.names calls.items mails.items) }
{
    let mut mails = Vec::with_capacity(alloc, calls.len())?;
    for call in calls {
        let mail = mail_of(alloc, db, call)?;
        mails.push(mail)?;
    }
    Ok(mails)
}
