// The lines of a generated script.
ghost use Rattle.std.specs.Prelude.{◌≡◌, ◌<◌, ◌++◌, pos, neg_ℤ, ◌≤ℤ◌, IsTrue, IfOk, OnOk};
ghost use Rattle.moos_post.specs.Words.{is_name, is_pattern, is_text};
ghost use Rattle.moos_post.specs.declared.value.Value.TheVariants.{Text};
ghost use Rattle.mission_maker.specs.Generated.{draws_before, fetch_behind, position_told, registration, saying, start, talk, talked_of, turn_stamp, whole_number};

use crate::draws::draw;
use moos_post::{
    Batch, Call, Copied, Entry, Milli, Name, NameFault, Names, NoMemory, Pair, Pattern,
    PatternFault, Reg, Regs, Txt, TxtFault, Value,
};
use script_reader::Lines;
use std::alloc::{AllocError, Global};

// The number of the client that tells where the vehicle is.
const NAV: u32 = 8;

/// The line with which client `k` registers.
pub fn registration(alloc: Global, number: u64, k: u32) -> Result<Entry, NoMemory>
    ensures { IfOk result (λ line. line ≡ registration number k) }
{
    let reg = Reg {
        var: pattern_of(alloc, b"V*")?,
        source: pattern_of(alloc, b"*")?,
        interval: 500 * u64::from(draw(number, u64::from(k), 3)),
    };
    Ok(Entry {
        stamp: u64::from(k),
        client: k,
        call: Call::Register(Regs::of(vec![in alloc; reg]?)),
    })
}

/// The line that has the vehicle start.
pub fn start(alloc: Global) -> Result<Entry, NoMemory>
    ensures { IfOk result (λ line. line ≡ start) }
{
    let deploy = says_text(alloc, b"DEPLOY", b"true")?;
    let by_hand = says_text(alloc, b"MOOS_MANUAL_OVERRIDE", b"false")?;
    Ok(Entry {
        stamp: 50,
        client: NAV,
        call: Call::Post(Batch::of(vec![in alloc; deploy, by_hand]?)),
    })
}

/// The line with which client `k` posts in its turn, one of these variables.
pub fn talk(
    alloc: Global,
    number: u64,
    second: u64,
    k: u32,
    variables: &Names,
) -> Result<Entry, NoMemory>
    requires turn { (second < 600) × (k < 8) }
    requires variables { variables.now ≡ talked_of }
    ensures { IfOk result (λ line. line ≡ talk number second k) }
{
    let before = draws_before(second, k);
    let place = draw(number, before, 16) as usize;
    let said = draw(number, before + 1, 1000);
    let pair = Pair {
        var: variables.get(place).copy(alloc)?,
        value: whole_number(i64::from(said)),
    };
    Ok(Entry {
        stamp: turn_stamp(second, k),
        client: k,
        call: Call::Post(Batch::of(vec![in alloc; pair]?)),
    })
}

/// Adds the line with which client `k` fetches behind its turn, if it does.
pub fn add_fetch(lines: &mut Lines, number: u64, second: u64, k: u32) -> Result<(), NoMemory>
    requires { (second < 600) × (k < 8) }
    ensures { OnOk result (lines.new ≡ lines.old ++ fetch_behind number second k) }
{
    if draw(number, draws_before(second, k) + 2, 4) != 0 {
        return Ok(());
    }
    let line = Entry {
        stamp: turn_stamp(second, k) + 1,
        client: k,
        call: Call::Fetch,
    };
    lines.add(line)
}

/// The line that tells where the vehicle is, behind the turns of a second.
pub fn position(alloc: Global, number: u64, second: u64) -> Result<Entry, NoMemory>
    requires { second < 600 }
    ensures { IfOk result (λ line. line ≡ position_told number second) }
{
    let before = draws_before(second, 8);
    let x = i64::from(draw(number, before, 200));
    let y = i64::from(draw(number, before + 1, 200)) - 200;
    let pairs = vec![in alloc;
        says(alloc, b"NAV_X", whole_number(x))?,
        says(alloc, b"NAV_Y", whole_number(y))?,
    ]?;
    Ok(Entry {
        stamp: 1000 * second + 950,
        client: NAV,
        call: Call::Post(Batch::of(pairs)),
    })
}

// Each is the definition of its name.
fn draws_before(second: u64, k: u32) -> u64
    requires { (second < 600) × (k < 9) }
    ensures { result ≡ draws_before second k }
{
    8 + 26 * second + 3 * u64::from(k)
}

fn turn_stamp(second: u64, k: u32) -> u64
    requires { (second < 600) × (k < 8) }
    ensures { result ≡ turn_stamp second k }
{
    1000 * second + 100 * u64::from(k) + 100
}

fn whole_number(n: i64) -> Value
    requires { (neg_ℤ (pos 1000) ≤ℤ n) × (n ≤ℤ pos 1000) }
    ensures { result ≡ whole_number n }
{
    match Milli::new(n * 1000) {
        Some(number) => Value::Num(number),
        None => unreachable!(),
    }
}

// A variable of this name is said to be so.
fn says(alloc: Global, var: &[u8], value: Value) -> Result<Pair, NoMemory>
    requires { IsTrue (is_name var.now) }
    ensures { IfOk result (λ pair. pair ≡ saying var.now value) }
{
    let var = name_of(alloc, var)?;
    Ok(Pair { var, value })
}

fn says_text(alloc: Global, var: &[u8], text: &[u8]) -> Result<Pair, NoMemory>
    requires name { IsTrue (is_name var.now) }
    requires text { IsTrue (is_text text.now) }
    ensures { IfOk result (λ pair. pair ≡ saying var.now (Text text.now)) }
{
    let text = text_of(alloc, text)?;
    says(alloc, var, Value::Text(text))
}

/// The name that is spelled so.
pub fn name_of(alloc: Global, bytes: &[u8]) -> Result<Name, NoMemory>
    requires { IsTrue (is_name bytes.now) }
    ensures { IfOk result (λ name. name ≡ bytes.now) }
{
    match Name::new(alloc, bytes) {
        Ok(name) => Ok(name),
        Err(NameFault::BadName) => unreachable!(),
        Err(NameFault::NoMemory) => Err(AllocError),
    }
}

fn pattern_of(alloc: Global, bytes: &[u8]) -> Result<Pattern, NoMemory>
    requires { IsTrue (is_pattern bytes.now) }
    ensures { IfOk result (λ pattern. pattern ≡ bytes.now) }
{
    match Pattern::read(alloc, bytes) {
        Ok(pattern) => Ok(pattern),
        Err(PatternFault::BadPattern) => unreachable!(),
        Err(PatternFault::NoMemory) => Err(AllocError),
    }
}

fn text_of(alloc: Global, bytes: &[u8]) -> Result<Txt, NoMemory>
    requires { IsTrue (is_text bytes.now) }
    ensures { IfOk result (λ text. text ≡ bytes.now) }
{
    match Txt::new(alloc, bytes) {
        Ok(text) => Ok(text),
        Err(TxtFault::TooLong(_)) => unreachable!(),
        Err(TxtFault::BadByte(_)) => unreachable!(),
        Err(TxtFault::NoMemory) => Err(AllocError),
    }
}
