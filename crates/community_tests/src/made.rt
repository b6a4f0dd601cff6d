// What tests make of words, if memory is left, and how a row of a table is judged.
use helm_cond::Info;
use moos_db::Letter;
use moos_post::{Batch, Milli, Name, Names, Pair, Pattern, Post, Reg, Regs, Txt, Value};
use moos_text::print_milli;
use std::alloc::Global;
use std::process::Abort;

/// What is told of a row is as the row says.
pub(crate) fn check(rt: &impl Abort, told: bool, wanted: bool, row: &str) {
    assert!(rt; told == wanted, "{row}");
}

pub(crate) fn name(rt: &impl Abort, alloc: Global, word: &str) -> Name {
    Name::new(alloc, word.as_bytes()).expect(rt, "a name")
}

pub(crate) fn pattern(rt: &impl Abort, alloc: Global, word: &str) -> Pattern {
    Pattern::read(alloc, word.as_bytes()).expect(rt, "a pattern")
}

pub(crate) fn text(rt: &impl Abort, alloc: Global, said: &str) -> Value {
    Value::Text(Txt::new(alloc, said.as_bytes()).expect(rt, "a text"))
}

pub(crate) fn number(rt: &impl Abort, thousandths: i64) -> Value {
    Value::Num(Milli::new(thousandths).expect(rt, "a number"))
}

pub(crate) fn count(rt: &impl Abort, word: &str) -> u64 {
    word.parse::<u64>().ok().expect(rt, "a count")
}

pub(crate) fn words<'a>(rt: &impl Abort, alloc: Global, line: &'a str) -> Vec<&'a str> {
    let mut words = Vec::new(alloc);
    for word in line.split_whitespace() {
        words.push(word).expect(rt, "memory");
    }
    words
}

pub(crate) fn names(rt: &impl Abort, alloc: Global, line: &str) -> Names {
    let mut names = Names::new(alloc);
    for word in line.split_whitespace() {
        names.push(name(rt, alloc, word)).expect(rt, "memory");
    }
    names
}

pub(crate) fn reg(rt: &impl Abort, alloc: Global, var: &str, interval: u64, source: &str) -> Reg {
    let var = pattern(rt, alloc, var);
    let source = pattern(rt, alloc, source);
    Reg {
        var,
        source,
        interval,
    }
}

/// The registrations that the words name: of each a pattern for the variable, an interval, and a pattern for the source.
pub(crate) fn regs(rt: &impl Abort, alloc: Global, words: &[&str]) -> Regs {
    let mut regs = Regs::new(alloc);
    for three in words.chunks_exact(3) {
        let reg = reg(rt, alloc, three[0], count(rt, three[1]), three[2]);
        regs.push(reg).expect(rt, "memory");
    }
    regs
}

/// A batch of posts of these variables, each with the value 0.005.
pub(crate) fn batch(rt: &impl Abort, alloc: Global, vars: &[&str]) -> Batch {
    let mut batch = Batch::new(alloc);
    for var in vars {
        let (var, value) = (name(rt, alloc, var), number(rt, 5));
        batch.push(Pair { var, value }).expect(rt, "memory");
    }
    batch
}

/// A letter that says this of a variable.
pub(crate) fn letter(rt: &impl Abort, alloc: Global, var: &str, value: Value) -> Letter {
    let var = name(rt, alloc, var);
    let post = Post {
        stamp: 0,
        source: 0,
        var,
        value,
    };
    Letter { number: 0, post }
}

/// Appends these pieces.
pub(crate) fn append(rt: &impl Abort, text: &mut Vec<u8>, pieces: &[&[u8]]) {
    for piece in pieces {
        text.extend_from_slice(*piece).expect(rt, "memory");
    }
}

// A batch as text: each pair as VAR="text" or VAR=number, and a blank behind it.
fn shown(rt: &impl Abort, alloc: Global, batch: &Batch) -> Vec<u8> {
    let mut text = Vec::new(alloc);
    for pair in batch.all() {
        append(rt, &mut text, &[pair.var.bytes(), b"="]);
        match &pair.value {
            Value::Num(number) => append(rt, &mut text, &[print_milli(*number).bytes(), b" "]),
            Value::Text(said) => append(rt, &mut text, &[b"\"", said.bytes(), b"\" "]),
        }
    }
    text
}

/// The batch has this text.
pub(crate) fn is_shown(rt: &impl Abort, alloc: Global, batch: &Batch, wanted: &[u8]) {
    assert_eq!(rt; shown(rt, alloc, batch).as_slice(), wanted);
}

/// The value is what is known of the variable.
pub(crate) fn learn(rt: &impl Abort, alloc: Global, info: &mut Info, var: &str, value: &Value) {
    let var = name(rt, alloc, var);
    info.learn(alloc, &var, value).expect(rt, "memory");
}
