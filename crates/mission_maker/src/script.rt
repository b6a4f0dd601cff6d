// The whole script.
ghost use Rattle.std.specs.Prelude.{◌≡◌, ◌<◌, ◌++◌, map, All, IsTrue, IfOk, OnOk};
ghost use Rattle.moos_post.specs.Words.{is_name};
ghost use Rattle.mission_maker.specs.Generated.{generated_script, registrations, seconds, talked_of, turns};
ghost use Rattle.mission_maker.specs.Stamps.{rise_within};
ghost use Rattle.script_reader.specs.Validity.{IsValid};

use crate::lines::{add_fetch, name_of, position, registration, start, talk};
use moos_post::{Names, NoMemory};
use script_reader::{Lines, Script};
use std::alloc::Global;

/// The script of the mission with this number: eight clients talk to each other for ten minutes, each of which registers for all
/// that the others say, and one tells where the vehicle is.
pub fn make_script(alloc: Global, number: u64) -> Result<Script, NoMemory>
    ensures script { IfOk result (λ script. script ≡ generated_script number) }
    ensures valid { IfOk result IsValid }
    // No two of its lines have one stamp.
    ensures rises { IfOk result (λ script. IsTrue (rise_within 0 600000 script.lines)) }
{
    let names = names_of(
        alloc,
        &[
            b"c0", b"c1", b"c2", b"c3", b"c4", b"c5", b"c6", b"c7", b"nav",
        ],
    )?;
    let mut lines = registrations(alloc, number)?;
    lines.add(start(alloc)?)?;
    add_seconds(alloc, number, &mut lines)?;
    lines.shrink_to_fit();
    Ok(Script {
        names,
        lines,
        stop: 600_000,
    })
}

#[tactic(auto, using(crate::proofs::Drawing::registrations_more, crate::proofs::Drawing::registrations_none))]
fn registrations(alloc: Global, number: u64) -> Result<Lines, NoMemory>
    ensures { IfOk result (λ lines. lines ≡ registrations number 8) }
{
    let mut lines = Lines::new(alloc);
    for k in 0..8 {
        lines.add(registration(alloc, number, k)?)?;
    }
    Ok(lines)
}

#[tactic(auto, using(crate::proofs::Drawing::seconds_more, crate::proofs::Drawing::seconds_none))]
fn add_seconds(alloc: Global, number: u64, lines: &mut Lines) -> Result<(), NoMemory>
    ensures { OnOk result (lines.new ≡ lines.old ++ seconds number 600) }
{
    let variables = talked_of(alloc)?;
    for second in 0..600 {
        add_turns(alloc, number, second, &variables, lines)?;
        lines.add(position(alloc, number, second)?)?;
    }
    Ok(())
}

// The turns of a second, in each of which one of these variables is posted.
#[tactic(auto, using(crate::proofs::Drawing::turns_more, crate::proofs::Drawing::turns_none))]
fn add_turns(
    alloc: Global,
    number: u64,
    second: u64,
    variables: &Names,
    lines: &mut Lines,
) -> Result<(), NoMemory>
    requires second { second < 600 }
    requires variables { variables.now ≡ talked_of }
    ensures { OnOk result (lines.new ≡ lines.old ++ turns number second 8) }
{
    for k in 0..8 {
        lines.add(talk(alloc, number, second, k, variables)?)?;
        add_fetch(lines, number, second, k)?;
    }
    Ok(())
}

fn talked_of(alloc: Global) -> Result<Names, NoMemory>
    ensures { IfOk result (λ names. names ≡ talked_of) }
{
    names_of(
        alloc,
        &[
            b"V0", b"V1", b"V2", b"V3", b"V4", b"V5", b"V6", b"V7", b"V8", b"V9", b"V10", b"V11",
            b"V12", b"V13", b"V14", b"V15",
        ],
    )
}

// The names that are spelled so.
fn names_of(alloc: Global, spelled: &[&[u8]]) -> Result<Names, NoMemory>
    requires { All (λ bytes. IsTrue (is_name bytes.now)) spelled.now }
    ensures { IfOk result (λ names. names ≡ map (λ bytes. bytes.now) spelled.now) }
{
    let mut names = Names::new(alloc);
    for bytes in spelled {
        names.add(name_of(alloc, bytes)?)?;
    }
    Ok(names)
}
