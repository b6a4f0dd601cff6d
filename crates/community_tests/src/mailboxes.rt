// What each call answers with ample memory.
use moos_mail::{Mailbox, delivery_law};
use std::alloc::Global;
use std::process::Abort;

// These numbers wait, and are taken.
fn takes(rt: &impl Abort, alloc: Global, mailbox: &mut Mailbox, numbers: &[u64]) {
    assert!(rt; mailbox.waiting() == numbers);
    assert!(rt; mailbox.take_all(alloc).all() == numbers);
    assert!(rt; mailbox.waiting().is_empty());
}

// Numbers wait until they are taken, in the order of mailing.
#[test]
fn numbers_wait_until_taken(rt: HostRuntime) {
    let mut mailbox = Mailbox::make(rt.alloc());
    mailbox.reserve(2).expect(&rt, "memory");
    mailbox.append(7);
    mailbox.append(3);
    takes(&rt, rt.alloc(), &mut mailbox, &[7, 3]);
    mailbox.reserve(1).expect(&rt, "memory");
    mailbox.append(u64::MAX);
    takes(&rt, rt.alloc(), &mut mailbox, &[u64::MAX]);
}

// A law is an empty function: its callers get its contract as a fact.
#[test]
fn law_holds(_rt: HostRuntime) {
    delivery_law();
}
