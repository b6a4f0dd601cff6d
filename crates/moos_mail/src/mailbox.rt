// A mailbox: the places of the posts that wait in it.
ghost use Rattle.std.specs.Prelude.{◌≡◌, ◌≤◌, ◌+◌, ◌++◌, ◌∷◌, [], OnOk, OnErr};

use crate::Numbers;
use moos_post::NoMemory;
use std::alloc::Global;
use std::marker::Model;
use std::mem;

/// What is mailed to one client and waits for its next fetch.
///
/// Contracts see the numbers that wait, in the order of mailing, and the spare room: how many more can be mailed without
/// memory.
#[derive(Drop)]
pub struct Mailbox {
    waiting: Vec<u64>,
}

impl Model for Mailbox {
    ghost use Rattle.std.specs.Prelude.{◌-◌, vec_len, vec_capacity};
    ghost use Rattle.moos_mail.specs.Mailboxes.{MailboxState};

    ghost Value = { MailboxState };

    ghost view = { λ mailbox. record {
      waiting = mailbox.waiting.items;
      spare = vec_capacity mailbox.waiting - vec_len mailbox.waiting;
    } };
}

impl Mailbox {
    /// A mailbox in which nothing waits. It takes no memory.
    pub fn make(alloc: Global) -> Mailbox
        ensures waiting { result.waiting ≡ [] }
        ensures spare { result.spare ≡ 0 }
    {
        Mailbox {
            waiting: Vec::new(alloc),
        }
    }

    /// Makes room for as many numbers more. After either answer the numbers are what they were, and without memory there
    /// is no less room than before.
    pub fn reserve(&mut self, more: usize) -> Result<(), NoMemory>
        ensures room { OnOk result (more ≤ self.new.spare) }
        ensures kept { OnErr result (self.old.spare ≤ self.new.spare) }
        ensures waiting { self.new.waiting ≡ self.old.waiting }
    {
        self.waiting.reserve(more)?;
        Ok(())
    }

    /// Mails the post with this number. It takes no memory, and at most one place of the room.
    pub fn append(&mut self, number: u64)
        requires { 1 ≤ self.old.spare }
        ensures waiting { self.new.waiting ≡ self.old.waiting ++ number ∷ [] }
        ensures spare { self.old.spare ≤ self.new.spare + 1 }
    {
        self.waiting.push_reserved(number);
    }

    /// The numbers that wait for the next fetch. It takes no memory.
    pub fn waiting(&self) -> &[u64]
        ensures { result.now ≡ self.now.waiting }
    {
        self.waiting.as_slice()
    }

    /// The numbers that waited; from then on none does. It takes no memory, and leaves no room.
    pub fn take_all(&mut self, alloc: Global) -> Numbers
        ensures given { result ≡ self.old.waiting }
        ensures waiting { self.new.waiting ≡ [] }
        ensures spare { self.new.spare ≡ 0 }
    {
        Numbers::of(mem::replace(&mut self.waiting, Vec::new(alloc)))
    }
}
