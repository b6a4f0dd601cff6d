// The posts, in the order in which they came.
ghost use Rattle.std.specs.Prelude.{◌≡◌, ◌<◌, ◌≤◌, ◌+◌, ◌^◌, ◌-◌, ◌++◌, ◌∷◌, [], map, length, OnOk, OnErr, is_ok, if◌then◌else◌, Some, option_map, slice_get, vec_len, vec_capacity};
ghost use Rattle.std.specs.List.{range_with_len};
ghost use Rattle.moos_post.specs.History.{posts_of, posts_of_call, posts_of_entry};
ghost use Rattle.moos_db.specs.Places.{place_at};
ghost use Rattle.moos_db.specs.Database.{pair_posted, origin_of};

use crate::mail::Origin;
use moos_mail::{Mailbox, Numbers};
use moos_post::{Call, Entry, NoMemory, Pair};
use std::alloc::Global;
use std::marker::Model;

// Where a post is: the number of its entry, and its place in that entry's batch.
#[derive(Clone, Copy)]
pub(crate) struct PostPlace {
    pub entry: usize,
    pub pair: usize,
}

// The history: its entries in order, the numbers that each of them gave, and for each post where it is.
#[derive(Drop)]
pub(crate) struct Log {
    entries: Vec<Entry>,
    letters: Vec<Numbers>,
    places: Vec<PostPlace>,
}

impl Model for Log {
    ghost use Rattle.moos_db.specs.Places.{LogState, IsLog};

    ghost Value = { LogState };

    ghost view = { λ log. record { entries = log.entries.items; letters = log.letters.items } };

    ghost invariant = { λ log. IsLog log.entries.items log.letters.items log.places.items };
}

// How many posts the call makes.
fn posts_in(call: &Call) -> usize
    ensures { result ≡ length (posts_of_call 0 0 call.now) }
{
    match call {
        Call::Post(batch) => batch.len(),
        _ => 0,
    }
}

// The pair at this place of an entry's batch.
fn pair_in(entry: &Entry, place: usize) -> &Pair
    requires { place < length (posts_of_entry entry.now) }
    ensures { option_map pair_posted (slice_get (posts_of_entry entry.now) place) ≡ Some result.now }
{
    match &entry.call {
        Call::Post(batch) => batch.get(place),
        _ => unreachable!(),
    }
}

// Adds the places of an entry's posts, for which there is room.
fn push_places(places: &mut Vec<PostPlace>, entry: usize, posts: usize)
    requires { vec_len places.old + posts ≤ vec_capacity places.old }
    ensures { places.new.items ≡ places.old.items ++ map (place_at entry) (range_with_len 0 posts) }
{
    for pair in 0..posts {
        places.push_reserved(PostPlace { entry, pair });
    }
}

// Takes the memory for one entry, what it gives, and the places of `posts` posts.
fn make_room(
    entries: &mut Vec<Entry>,
    letters: &mut Vec<Numbers>,
    places: &mut Vec<PostPlace>,
    posts: usize,
) -> Result<(), NoMemory>
    ensures entries { entries.new.items ≡ entries.old.items }
    ensures letters { letters.new.items ≡ letters.old.items }
    ensures places { places.new.items ≡ places.old.items }
    ensures entry { OnOk result (vec_len entries.new < vec_capacity entries.new) }
    ensures letter { OnOk result (vec_len letters.new < vec_capacity letters.new) }
    ensures room { OnOk result (vec_len places.new + posts ≤ vec_capacity places.new) }
{
    entries.reserve(1)?;
    letters.reserve(1)?;
    places.reserve(posts)
}

// Adds an entry and the places of its posts, and leaves room for what it gives. All memory is taken before anything changes.
fn push_entry(
    entries: &mut Vec<Entry>,
    letters: &mut Vec<Numbers>,
    places: &mut Vec<PostPlace>,
    entry: Entry,
) -> Result<(), NoMemory>
    ensures letters { letters.new.items ≡ letters.old.items }
    ensures room { OnOk result (vec_len letters.new < vec_capacity letters.new) }
    ensures entries { entries.new.items ≡ (if is_ok result then entries.old.items ++ entry ∷ [] else entries.old.items) }
    ensures places { places.new.items ≡ (if is_ok result then places.old.items ++ map (place_at (vec_len entries.old)) (range_with_len 0 (length (posts_of_call 0 0 entry.call))) else places.old.items) }
{
    let posts = posts_in(&entry.call);
    make_room(entries, letters, places, posts)?;
    push_places(places, entries.len(), posts);
    entries.push_reserved(entry);
    Ok(())
}

impl Log {
    // The empty history.
    pub fn new(alloc: Global) -> Log
        ensures { result ≡ record { entries = []; letters = [] } }
    {
        Log {
            entries: Vec::new(alloc),
            letters: Vec::new(alloc),
            places: Vec::new(alloc),
        }
    }

    // How many entries there are.
    pub fn len(&self) -> usize
        ensures value { result ≡ length self.now.entries }
        ensures few { length self.now.entries < 2 ^ 64 - 1 }
    {
        self.entries.len()
    }

    // The entry with this number.
    pub fn entry(&self, number: usize) -> &Entry
        requires { number < length self.now.entries }
        ensures value { slice_get self.now.entries number ≡ Some result.now }
        ensures few { length (posts_of self.now.entries) < 2 ^ 64 }
    {
        &self.entries[number]
    }

    // The numbers that the entry gave.
    pub fn letters(&self, number: usize) -> &[u64]
        requires { number < length self.now.entries }
        ensures { slice_get self.now.letters number ≡ Some result.now }
    {
        self.letters[number].all()
    }

    // How many posts there are.
    pub fn posts(&self) -> usize
        ensures { result ≡ length (posts_of self.now.entries) }
    {
        self.places.len()
    }

    // What the post with this number says, and when it was made and by which client.
    pub fn post(&self, number: usize) -> (&Pair, Origin)
        requires { number < length (posts_of self.now.entries) }
        ensures pair { option_map pair_posted (slice_get (posts_of self.now.entries) number) ≡ Some result.0.now }
        ensures origin { option_map origin_of (slice_get (posts_of self.now.entries) number) ≡ Some result.1 }
    {
        let place = self.places[number];
        let entry = &self.entries[place.entry];
        let origin = Origin {
            stamp: entry.stamp,
            client: entry.client,
        };
        (pair_in(entry, place.pair), origin)
    }

    // What the post with this number says.
    pub fn pair(&self, number: usize) -> &Pair
        requires { number < length (posts_of self.now.entries) }
        ensures { option_map pair_posted (slice_get (posts_of self.now.entries) number) ≡ Some result.now }
    {
        self.post(number).0
    }

    // When the post with this number was made, and by which client.
    pub fn origin(&self, number: usize) -> Origin
        requires { number < length (posts_of self.now.entries) }
        ensures { option_map origin_of (slice_get (posts_of self.now.entries) number) ≡ Some result }
    {
        self.post(number).1
    }

    // Adds an entry that gives what waits in the mailbox. All memory is taken before anything changes.
    pub fn append_mail(
        &mut self,
        alloc: Global,
        entry: Entry,
        mailbox: &mut Mailbox,
    ) -> Result<(), NoMemory>
        ensures ok { OnOk result (self.new ≡ record {
          entries = self.old.entries ++ entry ∷ [];
          letters = self.old.letters ++ mailbox.old.waiting ∷ [];
        }) }
        ensures same { OnErr result (self.new ≡ self.old) }
        ensures waiting { mailbox.new.waiting ≡ (if is_ok result then [] else mailbox.old.waiting) }
    {
        push_entry(
            &mut self.entries,
            &mut self.letters,
            &mut self.places,
            entry,
        )?;
        self.letters.push_reserved(mailbox.take_all(alloc));
        Ok(())
    }

    // Adds an entry that gives nothing. All memory is taken before anything changes.
    pub fn append(&mut self, alloc: Global, entry: Entry) -> Result<(), NoMemory>
        ensures ok { OnOk result (self.new ≡ record {
          entries = self.old.entries ++ entry ∷ [];
          letters = self.old.letters ++ [] ∷ [];
        }) }
        ensures same { OnErr result (self.new ≡ self.old) }
    {
        push_entry(
            &mut self.entries,
            &mut self.letters,
            &mut self.places,
            entry,
        )?;
        self.letters.push_reserved(Numbers::new(alloc));
        Ok(())
    }
}
