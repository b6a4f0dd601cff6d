// What each call gives if memory is left.
use crate::made::{is_shown, name, names, number, regs, text};
use moos_post::{
    Batch, Copied, Milli, Name, NameFault, Pair, Pattern, PatternFault, Regs, Txt, TxtFault, Value,
};
use std::alloc::Global;
use std::process::Abort;

const GREATEST: i64 = 1_000_000_000_000;

// Thousandths, and whether there is a number of so many.
const NUMBERS: [(i64, bool); 6] = [
    (0, true),
    (-1, true),
    (GREATEST, true),
    (GREATEST + 1, false),
    (-GREATEST, true),
    (-GREATEST - 1, false),
];

#[test]
fn numbers(rt: HostRuntime) {
    for (thousandths, good) in &NUMBERS {
        match Milli::new(*thousandths) {
            Some(number) => assert!(rt; *good && number.get() == *thousandths, "{thousandths}"),
            None => assert!(rt; !*good, "{thousandths}"),
        }
    }
}

// Why the bytes are no name. If they are one, a copy of it has these bytes too.
fn name_fault(rt: &impl Abort, alloc: Global, bytes: &[u8]) -> Option<NameFault> {
    match Name::new(alloc, bytes) {
        Ok(name) => {
            let copied = name.copy(alloc).expect(rt, "memory");
            assert!(rt; name.bytes() == bytes && copied.bytes() == bytes);
            None
        }
        Err(fault) => Some(fault),
    }
}

const NO_NAME: Option<NameFault> = Some(NameFault::BadName);

// Bytes, and why they are no name.
const NAMES: &[(&[u8], Option<NameFault>)] = &[
    (b"NAV_X", None),
    (b"_b.c-9", None),
    (b"z", None),
    (&[b'a'; 64], None),
    (&[b'a'; 65], NO_NAME),
    (b"", NO_NAME),
    (b"9a", NO_NAME),
    (b"-a", NO_NAME),
    (b"a b", NO_NAME),
    (b"a*", NO_NAME),
    (b"a\xc3\xa9", NO_NAME),
];

#[test]
fn bytes_of_names(rt: HostRuntime) {
    for (bytes, fault) in NAMES {
        assert!(rt; name_fault(&rt, rt.alloc(), *bytes) == *fault, "{bytes:?}");
    }
}

// Two names, and whether they are equal: not to a longer one, nor to the same with another case.
const EQUALS: [(&str, &str, bool); 3] = [
    ("NAV_X", "NAV_X", true),
    ("NAV_X", "NAV_XY", false),
    ("NAV_X", "nav_x", false),
];

#[test]
fn equal_names(rt: HostRuntime) {
    for (one, other, equal) in &EQUALS {
        let (one, other) = (name(&rt, rt.alloc(), *one), name(&rt, rt.alloc(), *other));
        assert!(rt; (one == other) == *equal);
    }
}

// Why the bytes are no text. If they are one, a copy of it has these bytes too.
fn text_fault(rt: &impl Abort, alloc: Global, bytes: &[u8]) -> Option<TxtFault> {
    match Txt::new(alloc, bytes) {
        Ok(text) => {
            let copied = text.copy(alloc).expect(rt, "memory");
            assert!(rt; text.bytes() == bytes && copied.bytes() == bytes);
            None
        }
        Err(fault) => Some(fault),
    }
}

// Bytes, and why they are no text.
const TEXTS: &[(&[u8], Option<TxtFault>)] = &[
    (b"", None),
    (b"a\tb # \"c\" \xff", None),
    (&[b' '; 4096], None),
    (&[1; 4097], Some(TxtFault::TooLong(4097))),
    (b"a\x1f\x7f", Some(TxtFault::BadByte(1))),
    (b"ab\x7f", Some(TxtFault::BadByte(2))),
    (b"\r\n", Some(TxtFault::BadByte(0))),
];

#[test]
fn bytes_of_texts(rt: HostRuntime) {
    for (bytes, fault) in TEXTS {
        assert_eq!(rt; text_fault(&rt, rt.alloc(), *bytes), *fault);
    }
}

// Why the bytes are no pattern. If they are one, a copy of it has these bytes too.
fn pattern_fault(rt: &impl Abort, alloc: Global, bytes: &[u8]) -> Option<PatternFault> {
    match Pattern::read(alloc, bytes) {
        Ok(pattern) => {
            let copied = pattern.copy(alloc).expect(rt, "memory");
            assert!(rt; pattern.bytes() == bytes && copied.bytes() == bytes);
            None
        }
        Err(fault) => Some(fault),
    }
}

const NO_PATTERN: Option<PatternFault> = Some(PatternFault::BadPattern);

// Bytes, and why they are no pattern.
const PATTERNS: &[(&[u8], Option<PatternFault>)] = &[
    (b"NAV_*", None),
    (b"9?.-", None),
    (b"*", None),
    (&[b'?'; 64], None),
    (&[b'?'; 65], NO_PATTERN),
    (b"", NO_PATTERN),
    (b"a#", NO_PATTERN),
];

#[test]
fn bytes_of_patterns(rt: HostRuntime) {
    for (bytes, fault) in PATTERNS {
        assert_eq!(rt; pattern_fault(&rt, rt.alloc(), *bytes), *fault);
    }
}

fn add(rt: &impl Abort, alloc: Global, batch: &mut Batch, var: &str, value: Value) {
    let var = name(rt, alloc, var);
    batch.push(Pair { var, value }).expect(rt, "memory");
}

fn batch_of(rt: &impl Abort, alloc: Global) -> Batch {
    let mut batch = Batch::new(alloc);
    add(rt, alloc, &mut batch, "A", text(rt, alloc, "one"));
    add(rt, alloc, &mut batch, "B", text(rt, alloc, ""));
    add(rt, alloc, &mut batch, "A", number(rt, -1500));
    batch
}

// Its pairs are a copy's too, in their order.
#[test]
fn batches(rt: HostRuntime) {
    let batch = batch_of(&rt, rt.alloc());
    let mut copied = batch.copy(rt.alloc()).expect(&rt, "memory");
    copied.shrink_to_fit();
    assert!(rt; copied.len() == 3 && copied.get(2).var.bytes() == b"A".as_slice());
    is_shown(&rt, rt.alloc(), &copied, b"A=\"one\" B=\"\" A=-1.5 ");
}

fn are_both(rt: &impl Abort, regs: &Regs) {
    assert!(rt; regs.len() == 2 && regs.all().len() == 2);
    assert!(rt; regs.get(0).var.bytes() == b"A*".as_slice());
    assert!(rt; regs.get(1).source.bytes() == b"p?".as_slice());
    assert!(rt; regs.get(1).interval == 2500);
}

#[test]
fn registrations(rt: HostRuntime) {
    let words = ["A*", "0", "*", "B", "2500", "p?"];
    let regs = regs(&rt, rt.alloc(), &words);
    let copied = regs.copy(rt.alloc()).expect(&rt, "memory");
    are_both(&rt, &copied);
}

#[test]
fn lists_of_names(rt: HostRuntime) {
    let names = names(&rt, rt.alloc(), "pHelmIvP log");
    assert!(rt; names.len() == 2 && names.all().len() == 2);
    assert!(rt; names.get(0).bytes() == b"pHelmIvP".as_slice());
    assert!(rt; names.all()[1].bytes() == b"log".as_slice());
}
