// What a fetch gives.
ghost use Rattle.std.specs.Prelude.{◌≡◌, ◌<◌, [], ◌∷◌, ◌++◌, length, map, All, IfOk, OnOk, OnErr, Some};
ghost use Rattle.moos_post.specs.History.{posts_of};
ghost use Rattle.moos_db.specs.Database.{letter_at, AreLetters};
ghost use Rattle.moos_db.specs.Subscriptions.{AreNoted};

use crate::client::Client;
use crate::log::Log;
use crate::mail::{Letter, Mail};
use crate::variables::Variables;
use moos_post::{Call, Copied, Entry, NoMemory, Post};
use std::alloc::Global;

// The letter with the post that has this number.
fn letter_at(
    alloc: Global,
    log: &Log,
    variables: &Variables,
    number: u64,
) -> Result<Letter, NoMemory>
    requires within { number < length (posts_of log.now.entries) }
    requires noted { AreNoted (map (λ post. post.var) (posts_of log.now.entries)) variables.now }
    ensures { IfOk result (λ letter. letter_at (posts_of log.now.entries) number ≡ Some letter) }
{
    let (pair, origin) = log.post(number as usize);
    let var = variables.name(number).copy(alloc)?;
    let value = pair.value.copy(alloc)?;
    let post = Post {
        stamp: origin.stamp,
        source: origin.client,
        var,
        value,
    };
    Ok(Letter { number, post })
}

// The letters with the posts that have these numbers.
fn letters_of(
    alloc: Global,
    log: &Log,
    variables: &Variables,
    numbers: &[u64],
) -> Result<Mail, NoMemory>
    requires within { All (λ number. number < length (posts_of log.now.entries)) numbers.now }
    requires noted { AreNoted (map (λ post. post.var) (posts_of log.now.entries)) variables.now }
    ensures { IfOk result (AreLetters (posts_of log.now.entries) numbers.now) }
{
    let mut letters = Vec::with_capacity(alloc, numbers.len())?;
    for &number in numbers {
        letters.push(letter_at(alloc, log, variables, number)?)?;
    }
    Ok(Mail::of(letters))
}

// The client fetches, which is the next entry.
pub(crate) fn fetch(
    alloc: Global,
    log: &mut Log,
    variables: &Variables,
    client: &mut Client,
    number: u32,
    stamp: u64,
) -> Result<Mail, NoMemory>
    requires within { All (λ number. number < length (posts_of log.old.entries)) client.old.waits }
    requires noted { AreNoted (map (λ post. post.var) (posts_of log.old.entries)) variables.now }
    ensures mail { IfOk result (AreLetters (posts_of log.old.entries) client.old.waits) }
    ensures ok { OnOk result (log.new ≡ record {
      entries = log.old.entries ++ record { stamp = stamp; client = number; call = Call.Fetch } ∷ [];
      letters = log.old.letters ++ client.old.waits ∷ [];
    }) }
    ensures given { OnOk result (client.new ≡ record client.old { waits = []; spare = client.new.spare }) }
    ensures same { OnErr result (log.new ≡ log.old) }
    ensures waiting { OnErr result (client.new ≡ record client.old { spare = client.new.spare }) }
{
    let mail = letters_of(alloc, log, variables, client.waiting())?;
    fetch_unread(alloc, log, client, number, stamp)?;
    Ok(mail)
}

// The client fetches, which is the next entry, and no letters are made of what it is given.
pub(crate) fn fetch_unread(
    alloc: Global,
    log: &mut Log,
    client: &mut Client,
    number: u32,
    stamp: u64,
) -> Result<(), NoMemory>
    ensures ok { OnOk result (log.new ≡ record {
      entries = log.old.entries ++ record { stamp = stamp; client = number; call = Call.Fetch } ∷ [];
      letters = log.old.letters ++ client.old.waits ∷ [];
    }) }
    ensures given { OnOk result (client.new ≡ record client.old { waits = []; spare = client.new.spare }) }
    ensures same { OnErr result (log.new ≡ log.old) }
    ensures waiting { OnErr result (client.new ≡ record client.old { spare = client.new.spare }) }
{
    let entry = Entry {
        stamp,
        client: number,
        call: Call::Fetch,
    };
    client.fetch(alloc, log, entry)
}
