// Numbers, lines, words, parts and causes, on values worked by hand.
use crate::files::check;
use moos_post::Milli;
use moos_text::{
    Cause, Limit, Line, LineFault, Part, ReadFault, next_line, next_part, next_whole_line,
    next_word, print_milli, print_unsigned, read_milli, trimmed,
};
use std::process::Abort;

// Texts, and the thousandths of the number that each is, if it is one.
const NUMBERS: &[(&str, Option<i64>)] = &[
    ("2.5", Some(2_500)),
    ("-0.0009", Some(0)),
    ("-0.001", Some(-1)),
    ("-1.0589", Some(-1_058)),
    ("+.5", Some(500)),
    ("5.", Some(5_000)),
    (
        "0000000000000000000000000000007.00000000000000000000000000000001",
        Some(7_000),
    ),
    ("1000000000", Some(1_000_000_000_000)),
    ("1000000000.0009", Some(1_000_000_000_000)),
    ("-1000000000.000", Some(-1_000_000_000_000)),
    ("1000000000.001", None),
    ("-1000000001", None),
    ("340282366920938463463374607431768211457", None),
    ("1e3", None),
    ("1.2.3", None),
    ("1.2x", None),
    ("1-", None),
    ("+-1", None),
    (" 1", None),
    ("-", None),
    ("+", None),
    (".", None),
    ("-.", None),
    ("", None),
];

fn thousandths(text: &[u8]) -> Option<i64> {
    Some(read_milli(text)?.get())
}

#[test]
fn numbers(rt: HostRuntime) {
    for (text, wanted) in NUMBERS {
        check(&rt, thousandths(text.as_bytes()) == *wanted, *text);
    }
}

// Thousandths, and how each number is printed.
const PRINTED: &[(i64, &str)] = &[
    (0, "0"),
    (7, "0.007"),
    (-50, "-0.05"),
    (500, "0.5"),
    (40_000, "40"),
    (-1_050, "-1.05"),
    (123_456, "123.456"),
    (1_000_000_000_000, "1000000000"),
    (-999_999_999_999, "-999999999.999"),
];

// Thousandths without a sign, and how each is printed.
const UNSIGNED: &[(u64, &str)] = &[
    (0, "0"),
    (500, "0.5"),
    (1_000_000_000, "1000000"),
    (u64::MAX, "18446744073709551.615"),
];

#[test]
fn printed(rt: HostRuntime) {
    for (thousandths, text) in PRINTED {
        let number = Milli::new(*thousandths).expect(&rt, "a number");
        check(&rt, print_milli(number).bytes() == text.as_bytes(), *text);
    }
    for (thousandths, text) in UNSIGNED {
        check(
            &rt,
            print_unsigned(*thousandths).bytes() == text.as_bytes(),
            *text,
        );
    }
}

// Six lines: where each ends and whether a quote is open there, and where the next one begins.
const LINES: &[u8] = b"a b\r\n\n// c\nx \"//\" // d\r\ny \"z // e\n/ \r f\r";

const ENDS: &[(&str, usize, bool, usize)] = &[
    ("line 1", 3, false, 5),
    ("line 2", 5, false, 6),
    ("line 3", 6, false, 11),
    ("line 4", 18, false, 24),
    ("line 5", 33, true, 34),
    ("line 6", 39, false, 40),
];

#[test]
fn lines(rt: HostRuntime) {
    let mut from = 0;
    for (row, to, unclosed, next) in ENDS {
        assert!(rt; from <= LINES.len());
        let line = next_line(LINES, from);
        let wanted = Line {
            from,
            to: *to,
            unclosed: *unclosed,
            next: *next,
        };
        check(&rt, line == wanted, *row);
        from = line.next;
    }
    check(&rt, from == LINES.len(), "the end");
    // At the end of a file is an empty line.
    let past = Line {
        from: 0,
        to: 0,
        unclosed: false,
        next: 0,
    };
    check(&rt, next_line(b"", 0) == past, "no line");
}

fn is_told(rt: &impl Abort, cause: Cause, text: &str) {
    check(rt, cause.text() == text, text);
}

#[test]
fn causes(rt: HostRuntime) {
    is_told(&rt, Cause::S8(Limit::Batch), "S8 Batch");
    is_told(&rt, Cause::M4, "M4 DomainTooLarge");
    is_told(&rt, Cause::P10, "P10 BadPoint");
}

#[test]
fn faults_of_lines(rt: HostRuntime) {
    let refused = ReadFault::At {
        line: 7,
        cause: Cause::S2,
    };
    let told = LineFault::Refused(Cause::S2).at(7);
    check(&rt, told == refused, "refused");
    let told = LineFault::NoMemory.at(7);
    check(&rt, told == ReadFault::NoMemory, "no memory");
}

// Five parts, the last of which is empty: where each begins and ends, and where the next one begins.
const PARTS: &[(&str, usize, usize, Option<usize>)] = &[
    ("part 1", 0, 3, Some(4)),
    ("part 2", 4, 9, Some(10)),
    ("part 3", 10, 10, Some(11)),
    ("part 4", 11, 12, None),
    ("part 5", 12, 12, None),
];

#[test]
fn parts(rt: HostRuntime) {
    let text = b"A=1#B=\"#\"##C".as_slice();
    for (row, from, to, next) in PARTS {
        assert!(rt; *from <= text.len());
        let wanted = Part {
            from: *from,
            to: *to,
            next: *next,
        };
        check(&rt, next_part(text, *from) == wanted, *row);
    }
}

const WHOLE_LINES: &[&str] = &["a // b", "", "c"];

#[test]
fn whole_lines(rt: HostRuntime) {
    let mut left = b" a // b\t\r\n\nc".as_slice();
    for wanted in WHOLE_LINES {
        let (line, rest) = next_whole_line(left).expect(&rt, "a line");
        check(&rt, trimmed(line) == wanted.as_bytes(), *wanted);
        left = rest;
    }
    check(&rt, next_whole_line(left).is_none(), "the end");
}

// Texts, and of each its first word and what follows it; no word if it has none.
const WORDS: &[(&str, &str, &str)] = &[
    (" \t0  pA\tfetch ", "0", "  pA\tfetch "),
    ("\tpA \t", "pA", " \t"),
    ("X=5", "X=5", ""),
    ("a\rb\n c", "a\rb\n", " c"),
    (" \t ", "", ""),
    ("", "", ""),
];

#[test]
fn words(rt: HostRuntime) {
    for (text, word, rest) in WORDS {
        let none = (b"".as_slice(), b"".as_slice());
        let (found, behind) = next_word(text.as_bytes()).unwrap_or(none);
        check(&rt, found == word.as_bytes(), *text);
        check(&rt, behind == rest.as_bytes(), *text);
    }
}
