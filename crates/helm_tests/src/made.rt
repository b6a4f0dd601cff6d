// What tests make of words and files, if memory is left, and what the rows of their tables say.
ghost use Rattle.std.specs.Prelude.{◌≡◌, [], length, IsTrue};
ghost use Rattle.bhv_file.specs.Validity.{IsValidFile, serves};
ghost use Rattle.helm_core.specs.Helms.{StandsFor, clock_of};
ghost use Rattle.mission_reader.specs.Validity.{IsValidMission};

use bhv_reader::{BhvFile, read_behaviors};
use helm_core::Helm;
use ivp_domain::Domain;
use mission_reader::{Mission, read_mission};
use moos_post::{Batch, Milli, Name, Names, Pair, Pattern, Reg, Regs, Txt, Value};
use std::alloc::Global;
use std::process::Abort;

/// What is said of a row is so.
pub(crate) fn holds(rt: &impl Abort, row: &str, is_so: bool) {
    assert!(rt; is_so, "{row}");
}

/// The word at a place of a row, which is empty behind the last one.
pub(crate) fn word_at(row: &str, place: usize) -> &str {
    row.split_whitespace().nth(place).unwrap_or("")
}

/// The number that stands there, if one does.
pub(crate) fn number_at(row: &str, place: usize) -> Option<i64> {
    word_at(row, place).parse::<i64>().ok()
}

/// The count that stands there.
pub(crate) fn count_at(rt: &impl Abort, row: &str, place: usize) -> u64 {
    let count = word_at(row, place).parse::<u64>().ok();
    count.expect(rt, "a count")
}

pub(crate) fn name(rt: &impl Abort, alloc: Global, word: &str) -> Name {
    Name::new(alloc, word.as_bytes()).expect(rt, "a name")
}

pub(crate) fn text(rt: &impl Abort, alloc: Global, said: &str) -> Txt {
    Txt::new(alloc, said.as_bytes()).expect(rt, "a text")
}

pub(crate) fn number(rt: &impl Abort, thousandths: i64) -> Value {
    Value::Num(Milli::new(thousandths).expect(rt, "a number"))
}

/// A list of one name.
pub(crate) fn names(rt: &impl Abort, alloc: Global, word: &str) -> Names
    ensures { length result ≡ 1 }
{
    let mut names = Names::new(alloc);
    match names.add(name(rt, alloc, word)) {
        Ok(()) => names,
        Err(_) => panic!(rt; "memory"),
    }
}

/// To hear one variable from everybody.
pub(crate) fn regs(rt: &impl Abort, alloc: Global, var: &str) -> Regs {
    let var = Pattern::read(alloc, var.as_bytes()).expect(rt, "a pattern");
    let source = Pattern::read(alloc, b"*").expect(rt, "a pattern");
    let mut regs = Regs::new(alloc);
    let reg = Reg {
        var,
        source,
        interval: 0,
    };
    regs.add(reg).expect(rt, "memory");
    regs
}

/// To say something of one variable.
pub(crate) fn batch(rt: &impl Abort, alloc: Global, var: &str, value: Value) -> Batch {
    let var = name(rt, alloc, var);
    let mut batch = Batch::new(alloc);
    batch.add(Pair { var, value }).expect(rt, "memory");
    batch
}

const MISSION: &[u8] =
    b"ProcessConfig = pHelmIvP\n{\n  AppTick = 4\n  behaviors = a.bhv\n  domain = course:0:359:360\n  domain = speed:0:4:41\n}\n";

fn mission_of(rt: &impl Abort, alloc: Global, text: &[u8]) -> Mission
    ensures { IsValidMission result }
{
    assert!(rt; text.len() < 4_000_000_000);
    match read_mission(alloc, text) {
        Ok(mission) => mission,
        Err(_) => panic!(rt; "no mission"),
    }
}

fn file_of(rt: &impl Abort, alloc: Global, text: &[u8], domain: &Domain) -> BhvFile
    ensures valid { IsValidFile result }
    ensures served { IsTrue (serves domain.now result.blocks) }
{
    assert!(rt; text.len() < 4_000_000_000);
    match read_behaviors(alloc, text, domain) {
        Ok(file) => file,
        Err(_) => panic!(rt; "no behaviour file"),
    }
}

/// The helm of this behaviour file, which has heard nothing yet.
pub(crate) fn helm_of(rt: &impl Abort, alloc: Global, text: &[u8]) -> Helm
    ensures clock { clock_of result ≡ 0 }
    ensures stands { StandsFor result [] }
{
    let mission = mission_of(rt, alloc, MISSION);
    let file = file_of(rt, alloc, text, &mission.domain);
    match Helm::make(alloc, &mission, file) {
        Ok(helm) => helm,
        Err(_) => panic!(rt; "memory"),
    }
}
