// All that the manager knows: the own position and the contacts.
ghost use Rattle.std.specs.Prelude.{◌≡◌, IfOk, IfSome, IsTrue, OnOk, bytes_eq, if◌then◌else◌, map, Some};
ghost use Rattle.std.specs.List.{flat_map};
ghost use Rattle.helm_geo.specs.Plane.{is_spot};
ghost use Rattle.contact_avoid.specs.Contacts.{known_number, reported, own_spot};
ghost use Rattle.contact_avoid.specs.Kept.{heard, heard_all, nothing_known, posts_from, settled, with_reported};
ghost use Rattle.contact_avoid.specs.Standing.{pairs_said};

use crate::contact::Contact;
use crate::contacts::{copies, learn};
use crate::posts::add_posts;
use crate::ranges::Ranges;
use crate::report::{Report, read_report};
use helm_geo::Spot;
use moos_db::Letter;
use moos_post::{Batch, Copied, Milli, Name, NoMemory, Value};
use std::alloc::Global;
use std::marker::Model;

// What the manager knows: the coordinates of the own position, if they are known, and the contacts.
#[derive(Drop)]
pub(crate) struct KnownContacts {
    x: Option<Milli>,
    y: Option<Milli>,
    contacts: Vec<Contact>,
}

impl Model for KnownContacts {
    ghost use Rattle.contact_avoid.specs.Kept.{KnownContactsState};

    ghost Value = { KnownContactsState };

    ghost view = { λ known. record { x = known.x; y = known.y; contacts = known.contacts.items } };
}

impl KnownContacts {
    // Nothing is known.
    pub fn new(alloc: Global) -> KnownContacts
        ensures { result ≡ nothing_known }
    {
        KnownContacts {
            x: None,
            y: None,
            contacts: Vec::new(alloc),
        }
    }

    // Hears letters, one after another.
    pub fn hear_all(&mut self, alloc: Global, letters: &[Letter]) -> Result<(), NoMemory>
        ensures { OnOk result (self.new ≡ heard_all self.old (pairs_said letters.now)) }
    {
        for letter in letters {
            self.hear(alloc, &letter.post.var, &letter.post.value)?;
        }
        Ok(())
    }

    // Hears a pair.
    fn hear(&mut self, alloc: Global, var: &Name, value: &Value) -> Result<(), NoMemory>
        ensures { OnOk result (self.new ≡ heard self.old (record { var = var.now; value = value.now })) }
    {
        self.x = newer(b"NAV_X", var, value, self.x);
        self.y = newer(b"NAV_Y", var, value, self.y);
        hear_report(alloc, &mut self.contacts, var, value)
    }

    // The own position, if it is known.
    pub fn own(&self) -> Option<Spot>
        ensures value { result ≡ own_spot self.now.x self.now.y }
        ensures spot { IfSome result (λ spot. IsTrue (is_spot spot)) }
    {
        let x = self.x?;
        let y = self.y?;
        Some(Spot {
            x: x.get(),
            y: y.get(),
        })
    }

    // What a turn posts, seen from here.
    pub fn batch(&self, alloc: Global, ranges: Ranges, own: Option<Spot>) -> Result<Batch, NoMemory>
        requires { IfSome own (λ spot. IsTrue (is_spot spot)) }
        ensures { IfOk result (λ batch. batch ≡ flat_map (posts_from ranges own) self.now.contacts) }
    {
        batch_of(alloc, self.contacts.as_slice(), ranges, own)
    }

    // Keeps which contacts are inside after the turn.
    pub fn settle(&mut self, ranges: Ranges, own: Option<Spot>)
        requires { IfSome own (λ spot. IsTrue (is_spot spot)) }
        ensures x { self.new.x ≡ self.old.x }
        ensures y { self.new.y ≡ self.old.y }
        ensures contacts { self.new.contacts ≡ map (settled ranges own) self.old.contacts }
    {
        settle_all(&mut self.contacts, ranges, own);
    }
}

impl Copied for KnownContacts {
    fn copy(&self, alloc: Global) -> Result<KnownContacts, NoMemory> {
        let contacts = copies(alloc, self.contacts.as_slice())?;
        Ok(KnownContacts {
            x: self.x,
            y: self.y,
            contacts,
        })
    }
}

fn batch_of(
    alloc: Global,
    contacts: &[Contact],
    ranges: Ranges,
    own: Option<Spot>,
) -> Result<Batch, NoMemory>
    requires { IfSome own (λ spot. IsTrue (is_spot spot)) }
    ensures { IfOk result (λ batch. batch ≡ flat_map (posts_from ranges own) contacts.now) }
{
    let mut batch = Batch::new(alloc);
    for contact in contacts {
        let inside = contact.is_inside(ranges, own);
        add_posts(alloc, &mut batch, &contact.report, contact.inside, inside)?;
    }
    Ok(batch)
}

fn settle_all(contacts: &mut Vec<Contact>, ranges: Ranges, own: Option<Spot>)
    requires { IfSome own (λ spot. IsTrue (is_spot spot)) }
    ensures { contacts.new.items ≡ map (settled ranges own) contacts.old.items }
{
    for k in 0..contacts.len() {
        contacts[k].settle(ranges, own);
    }
}

// The number of this name, if it was another one before this pair was heard.
fn newer(name: &[u8], var: &Name, value: &Value, before: Option<Milli>) -> Option<Milli>
    ensures { result ≡ (if bytes_eq name.now var.now then known_number (Some value.now) else before) }
{
    if name == var.bytes() {
        known_number(value)
    } else {
        before
    }
}

fn known_number(value: &Value) -> Option<Milli>
    ensures { result ≡ known_number (Some value.now) }
{
    match value {
        Value::Num(number) => Some(*number),
        Value::Text(_) => None,
    }
}

// Learns the report of a pair, if it is a good one.
fn hear_report(
    alloc: Global,
    contacts: &mut Vec<Contact>,
    var: &Name,
    value: &Value,
) -> Result<(), NoMemory>
    ensures { OnOk result (contacts.new.items ≡ with_reported (reported (record { var = var.now; value = value.now })) contacts.old.items) }
{
    match reported(alloc, var, value)? {
        Some(report) => learn(contacts, report),
        None => Ok(()),
    }
}

// The report of a pair.
fn reported(alloc: Global, var: &Name, value: &Value) -> Result<Option<Report>, NoMemory>
    ensures { IfOk result (λ report. report ≡ reported (record { var = var.now; value = value.now })) }
{
    if b"NODE_REPORT".as_slice() != var.bytes() {
        return Ok(None);
    }
    match value {
        Value::Num(_) => Ok(None),
        Value::Text(text) => read_report(alloc, text.bytes()),
    }
}
