// What a database tells of its parts, and the mail of a list of calls.
ghost use Rattle.std.specs.Prelude.{◌<◌, length};

use crate::database::played;
use crate::made::{batch, names, regs};
use moos_db::{Db, Letter, Mail, mails_of};
use moos_post::{Call, Entry, Value};
use std::alloc::Global;
use std::process::Abort;

// A call that asks for nothing is an entry too.
#[test]
fn empty_lists_are_entries(rt: HostRuntime) {
    let db = played(&rt, rt.alloc(), "a", "0 0 post\n0 0 register");
    assert!(rt; db.entries() == 2 && db.posts() == 0);
}

// Appends each number from the first to before the last, with what is before it and behind it.
fn append_each(
    rt: &impl Abort,
    alloc: Global,
    text: &mut String,
    before: &str,
    first: u32,
    last: u32,
    behind: &str,
) {
    for number in first..last {
        let piece = format!(in alloc; "{before}{number}{behind}").expect(rt, "memory");
        text.push_str(piece.as_str()).expect(rt, "memory");
    }
}

// The first client registers for 256 variables by two calls, and the second posts 1,001 variables, each by a call, ten times over.
fn many_calls(rt: &impl Abort, alloc: Global) -> String {
    let mut text = String::new(alloc);
    for (first, last) in [(0, 128), (128, 256)] {
        text.push_str("0 0 register").expect(rt, "memory");
        append_each(rt, alloc, &mut text, " V", first, last, " 0 *");
        text.push_str("\n").expect(rt, "memory");
    }
    for _ in 0..10 {
        append_each(rt, alloc, &mut text, "1 1 post V", 0, 1_001, "\n");
    }
    text
}

// Ten letters of each of the 256 variables wait, and the last one is in the tenth time, behind nine whole ones.
fn many_letters_wait(rt: &impl Abort, alloc: Global, db: &mut Db)
    requires { 0 < length db.old.names }
{
    let mail = db.fetch(alloc, 0, 2).expect(rt, "memory");
    assert!(rt; mail.len() == 2_560);
    assert!(rt; mail.get(2_559).number == 9_264);
}

// There may be that many calls, registrations and letters of a client, and variables.
#[test]
fn many_of_each(rt: HostRuntime) {
    let calls = many_calls(&rt, rt.alloc());
    let mut db = played(&rt, rt.alloc(), "a b", calls.as_str());
    assert!(rt; db.entries() == 10_012 && db.posts() == 10_010);
    assert!(rt; db.clients() == 2);
    many_letters_wait(&rt, rt.alloc(), &mut db);
}

// A registration of the second client, a batch of the first, and a post of the second.
const BUSY: &str = "0 1 register X 0 *
1000 0 post Y X
2000 1 post X";

// The letter is that of post 1, which has the value 0.005.
fn is_second(rt: &impl Abort, letter: &Letter) {
    assert!(rt; letter.number == 1 && letter.post.stamp == 1000 && letter.post.source == 0);
    assert!(rt; letter.post.var.bytes() == b"X".as_slice());
    assert!(rt; matches!(&letter.post.value, Value::Num(number) if number.get() == 5));
}

// The numbers that a fetch gave are those of posts before it.
fn tells_letters(rt: &impl Abort, alloc: Global, db: &mut Db)
    requires { 1 < length db.old.names }
{
    let mail = db.fetch(alloc, 1, 3000).expect(rt, "memory");
    db.letters_law(3);
    assert!(rt; db.letters(1).is_empty() && db.letters(3) == [1, 2].as_slice());
    assert!(rt; mail.len() == 2);
    is_second(rt, mail.get(0));
}

#[test]
fn tells_its_letters(rt: HostRuntime) {
    let mut db = played(&rt, rt.alloc(), "pA pB", BUSY);
    assert!(rt; db.clients() == 2);
    tells_letters(&rt, rt.alloc(), &mut db);
}

fn add(rt: &impl Abort, calls: &mut Vec<Entry>, call: Call) {
    let entry = Entry {
        stamp: 1000,
        client: 0,
        call,
    };
    calls.push(entry).expect(rt, "memory");
}

// A registration, a post, and two fetches.
fn calls(rt: &impl Abort, alloc: Global) -> Vec<Entry> {
    let mut calls = Vec::new(alloc);
    let registrations = regs(rt, alloc, &["X", "0", "*"]);
    add(rt, &mut calls, Call::Register(registrations));
    add(rt, &mut calls, Call::Post(batch(rt, alloc, &["X"])));
    add(rt, &mut calls, Call::Fetch);
    add(rt, &mut calls, Call::Fetch);
    calls
}

// Only the call at this place has a letter.
fn are_mails(rt: &impl Abort, mails: &[Mail], place: usize) {
    assert!(rt; mails.len() == 4);
    for (k, mail) in mails.iter().enumerate() {
        assert!(rt; mail.len() == if k == place { 1 } else { 0 });
    }
}

// Each call has its mail in its own place.
#[test]
fn mails_of_a_list_of_calls(rt: HostRuntime) {
    let names = names(&rt, rt.alloc(), "pA");
    let calls = calls(&rt, rt.alloc());
    assert!(rt; names.len() == 1);
    assert!(rt; calls.iter().all(|call| call.client == 0));
    let mails = mails_of(rt.alloc(), names, calls).expect(&rt, "memory");
    are_mails(&rt, mails.as_slice(), 2);
}
