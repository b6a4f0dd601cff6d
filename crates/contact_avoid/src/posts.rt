// What a turn posts of a contact.
ghost use Rattle.std.specs.Prelude.{◌≡◌, ◌++◌, ◌∷◌, [], IfOk, IsTrue, OnOk, codes};
ghost use Rattle.moos_post.specs.Words.{is_name, is_text, IsMilli};
ghost use Rattle.moos_text.specs.Numbers.{milli_text};
ghost use Rattle.contact_avoid.specs.Contacts.{behavior_name, contact_posts, inside_text, outside_text, pair_saying};

use crate::report::Report;
use moos_post::{Batch, Milli, Name, NoMemory, Pair, Txt, Value};
use moos_text::print_milli;
use std::alloc::{AllocError, Global};

// Adds what is posted of the contact of this report, which was inside before or not, and is inside now or not.
pub(crate) fn add_posts(
    alloc: Global,
    batch: &mut Batch,
    report: &Report,
    before: bool,
    inside: bool,
) -> Result<(), NoMemory>
    ensures { OnOk result (batch.new ≡ batch.old ++ contact_posts before inside report.now) }
{
    match (before, inside) {
        (false, false) => Ok(()),
        (false, true) => add_alert(alloc, batch, report),
        (true, true) => add_inside(alloc, batch, report),
        (true, false) => add_resolution(alloc, batch, report),
    }
}

#[tactic(auto, using(crate::proofs::Worded::name_text))]
fn add_alert(alloc: Global, batch: &mut Batch, report: &Report) -> Result<(), NoMemory>
    ensures { OnOk result (batch.new ≡ batch.old ++ pair_saying (codes "CONTACT_ALERT") report.now.name ∷ pair_saying (codes "CONTACT_INFO") (inside_text report.now) ∷ []) }
{
    add_text(alloc, batch, b"CONTACT_ALERT", report.name.bytes())?;
    add_inside(alloc, batch, report)?;
    Ok(())
}

fn add_inside(alloc: Global, batch: &mut Batch, report: &Report) -> Result<(), NoMemory>
    ensures { OnOk result (batch.new ≡ batch.old ++ pair_saying (codes "CONTACT_INFO") (inside_text report.now) ∷ []) }
{
    let text = inside_text(alloc, report)?;
    add_text(alloc, batch, b"CONTACT_INFO", text.as_slice())?;
    Ok(())
}

#[tactic(auto, using(crate::proofs::Worded::name_text))]
fn add_resolution(alloc: Global, batch: &mut Batch, report: &Report) -> Result<(), NoMemory>
    ensures { OnOk result (batch.new ≡ batch.old ++ pair_saying (codes "CONTACT_RESOLVED") report.now.name ∷ pair_saying (codes "CONTACT_INFO") (outside_text report.now) ∷ []) }
{
    add_text(alloc, batch, b"CONTACT_RESOLVED", report.name.bytes())?;
    let text = outside_text(alloc, report)?;
    add_text(alloc, batch, b"CONTACT_INFO", text.as_slice())?;
    Ok(())
}

// Adds a pair. Its variable is a name and its text is one, so nothing but memory is ever missing.
fn add_text(alloc: Global, batch: &mut Batch, var: &[u8], text: &[u8]) -> Result<(), NoMemory>
    requires var { IsTrue (is_name var.now) }
    requires text { IsTrue (is_text text.now) }
    ensures { OnOk result (batch.new ≡ batch.old ++ pair_saying var.now text.now ∷ []) }
{
    let Ok(var) = Name::new(alloc, var) else {
        return Err(AllocError);
    };
    let Ok(text) = Txt::new(alloc, text) else {
        return Err(AllocError);
    };
    batch.add(Pair {
        var,
        value: Value::Text(text),
    })
}

// What the behaviour of an inside contact is told.
fn inside_text(alloc: Global, report: &Report) -> Result<Vec<u8>, NoMemory>
    ensures value { IfOk result (λ text. text.items ≡ inside_text report.now) }
    ensures text { OnOk result (IsTrue (is_text (inside_text report.now))) }
{
    let mut text = behavior_name(alloc, report)?;
    append(&mut text, b" # contact=", report.name.bytes())?;
    append_number(&mut text, b" # contact_x=", report.x)?;
    append_number(&mut text, b" # contact_y=", report.y)?;
    append_number(&mut text, b" # contact_speed=", report.speed)?;
    append_number(&mut text, b" # contact_heading=", report.heading)?;
    Ok(text)
}

// What it is told once its contact is outside.
#[tactic(auto, using(crate::proofs::Worded::outside_is_text))]
fn outside_text(alloc: Global, report: &Report) -> Result<Vec<u8>, NoMemory>
    ensures value { IfOk result (λ text. text.items ≡ outside_text report.now) }
    ensures text { OnOk result (IsTrue (is_text (outside_text report.now))) }
{
    let mut text = behavior_name(alloc, report)?;
    append(&mut text, b" # resolved=", b"true")?;
    Ok(text)
}

// The name of the contact's behaviour, as an update gives it.
fn behavior_name(alloc: Global, report: &Report) -> Result<Vec<u8>, NoMemory>
    ensures value { IfOk result (λ text. text.items ≡ behavior_name report.now) }
    ensures name { IsTrue (is_name report.now.name) }
{
    let mut text = Vec::new(alloc);
    append(&mut text, b"name=avd_", report.name.bytes())?;
    Ok(text)
}

// Adds a key and a number as it prints. The number is asked for its bounds, on which the length of the text rests.
fn append_number(text: &mut Vec<u8>, key: &[u8], number: Milli) -> Result<(), NoMemory>
    ensures ok { OnOk result (text.new.items ≡ text.old.items ++ key.now ++ milli_text number) }
    ensures within { IsMilli number }
{
    let _thousandths = number.get();
    append(text, key, print_milli(number).bytes())
}

// Adds a key and a value at the end of a text.
fn append(text: &mut Vec<u8>, key: &[u8], value: &[u8]) -> Result<(), NoMemory>
    ensures { OnOk result (text.new.items ≡ text.old.items ++ key.now ++ value.now) }
{
    text.extend_from_slice(key)?;
    text.extend_from_slice(value)?;
    Ok(())
}
