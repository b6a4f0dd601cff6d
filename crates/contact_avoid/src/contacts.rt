// The contacts that are known, in the order of their first reports.
ghost use Rattle.std.specs.Prelude.{◌≡◌, ◌<◌, IfOk, OnOk, OnErr, length, position};
ghost use Rattle.contact_avoid.specs.Kept.{is_named_as, learnt, renewed, with_new};

use crate::contact::Contact;
use crate::report::Report;
use moos_post::{Copied, NoMemory};
use std::alloc::Global;

/// How many contacts may be known.
const MOST: usize = 32;

// Learns a report. If no memory is left all contacts stay as they were.
pub(crate) fn learn(known: &mut Vec<Contact>, report: Report) -> Result<(), NoMemory>
    ensures ok { OnOk result (known.new.items ≡ learnt report known.old.items) }
    ensures same { OnErr result (known.new.items ≡ known.old.items) }
{
    match place_of(known.as_slice(), report.name.bytes()) {
        Some(place) => {
            renew(known, place, report);
            Ok(())
        }
        None => add(known, report),
    }
}

// Where the contact of this name is.
fn place_of(known: &[Contact], name: &[u8]) -> Option<usize>
    ensures { result ≡ position (is_named_as name.now) known.now }
{
    known
        .iter()
        .position(|contact| contact.report.name.bytes() == name)
}

// Puts a report in the place of the one of a known contact.
fn renew(known: &mut Vec<Contact>, place: usize, report: Report)
    requires { place < length known.old.items }
    ensures { known.new.items ≡ renewed report known.old.items place }
{
    known[place].report = report;
}

// Adds a contact, while more may be known.
fn add(known: &mut Vec<Contact>, report: Report) -> Result<(), NoMemory>
    ensures ok { OnOk result (known.new.items ≡ with_new report known.old.items) }
    ensures same { OnErr result (known.new.items ≡ known.old.items) }
{
    if known.len() >= MOST {
        return Ok(());
    }
    known.push(Contact {
        report,
        inside: false,
    })?;
    Ok(())
}

// Equal contacts.
pub(crate) fn copies(alloc: Global, contacts: &[Contact]) -> Result<Vec<Contact>, NoMemory>
    ensures { IfOk result (λ copied. copied.items ≡ contacts.now) }
{
    let mut copied = Vec::with_capacity(alloc, contacts.len())?;
    for contact in contacts {
        copied.push(contact.copy(alloc)?)?;
    }
    Ok(copied)
}
