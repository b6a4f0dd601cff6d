// Scripts and refusals worked by hand, and how much a made script has.
use crate::files::{
    Kind, append, append_milli, append_number, append_unsigned, are_judged, bytes_of, check,
    is_shown,
};
use mission_maker::make_script;
use moos_post::{Call, Entry, Pair, Reg, Value};
use script_reader::{Script, read_script};
use std::alloc::Global;
use std::process::Abort;

/// Shows a pair: a number as it prints, and a text between `<` and `>`.
pub(crate) fn show_pair(rt: &impl Abort, text: &mut Vec<u8>, pair: &Pair) {
    append(rt, text, &[pair.var.bytes(), b"="]);
    match &pair.value {
        Value::Num(number) => append_milli(rt, text, b"", *number),
        Value::Text(bytes) => append(rt, text, &[b"<", bytes.bytes(), b">"]),
    }
}

/// Shows a registration by its patterns and its interval.
pub(crate) fn show_reg(rt: &impl Abort, text: &mut Vec<u8>, reg: &Reg) {
    append(rt, text, &[reg.var.bytes(), b" ", reg.source.bytes()]);
    append_unsigned(rt, text, b" ", reg.interval);
}

fn show_call(rt: &impl Abort, text: &mut Vec<u8>, call: &Call) {
    match call {
        Call::Register(regs) => for reg in regs.all() {
            append(rt, text, &[b" register "]);
            show_reg(rt, text, reg);
        },
        Call::Unregister(var, source) => append(
            rt,
            text,
            &[b" unregister ", var.bytes(), b" ", source.bytes()],
        ),
        Call::Post(batch) => for pair in batch.all() {
            append(rt, text, &[b" "]);
            show_pair(rt, text, pair);
        },
        Call::Fetch => append(rt, text, &[b" fetch"]),
    }
}

fn show_entry(rt: &impl Abort, text: &mut Vec<u8>, entry: &Entry) {
    append_unsigned(rt, text, b"| ", entry.stamp);
    append_number(rt, text, b" ", entry.client, b"");
    show_call(rt, text, &entry.call);
    append(rt, text, &[b" "]);
}

// The names, then each line by its stamp, its client's number and its call, and the last stamp.
fn shown(rt: &impl Abort, alloc: Global, script: &Script) -> Vec<u8> {
    let mut text = Vec::new(alloc);
    for name in script.names.all() {
        append(rt, &mut text, &[name.bytes(), b" "]);
    }
    for line in script.lines.all() {
        show_entry(rt, &mut text, line);
    }
    append_unsigned(rt, &mut text, b"| ", script.stop);
    text
}

// Scripts and what is shown of them.
const GOOD: &[(&str, &str)] = &[
    ("", "| 0"),
    ("\n \t // nobody\n", "| 0"),
    (
        "0 pA register X\n1 pA post X=5\n2 pA fetch\n3 pA fetch\n",
        "pA | 0 0 register X * 0 | 1 0 X=5 | 2 0 fetch | 3 0 fetch | 3",
    ),
    (
        "0 log register NAV_* 0 p*\n0.5 two register NAV_?\n1 p post NAV_=1 # NAV_X=2 # NAV_XY=3\n2 two fetch\n",
        "log two p | 0 0 register NAV_* p* 0 | 0.5 1 register NAV_? * 0 | 1 2 NAV_=1 NAV_X=2 NAV_XY=3 | 2 1 fetch | 2",
    ),
    (
        "0 b register X 1000000 ?\n1 b unregister X ?\n2 b unregister X\n3 b register * .0019\n",
        "b | 0 0 register X ? 1000000 | 1 0 unregister X ? | 2 0 unregister X * | 3 0 register * * 0.001 | 3",
    ),
    // Carriage returns, tabs, comments, and a last line without an end.
    (
        "// two\r\n\r\n+.5 b  fetch // first\r\n0.5009\ta\tpost\tX_1.y=-1.25\t\r\n 1000000. b fetch\r",
        "b a | 0.5 0 fetch | 0.5 1 X_1.y=-1.25 | 1000000 0 fetch | 1000000",
    ),
    // Quotes: a text keeps its blanks, `#` and `//`, and `:=` makes a text of a number.
    (
        "0 a post T = \"a  # // b\" # U:=1 2 # V=c  d // e\n0 a post W:=-7#E=\"\"#F=\"7\"",
        "a | 0 0 T=<a  # // b> U=<1 2> V=<c  d> | 0 0 W=<-7> E=<> F=<7> | 0",
    ),
    // `until` only carries its stamp, and the words of operations may be names.
    (
        "1 until\n1 post fetch\n2.5 until // the end\n",
        "post | 1 0 fetch | 2.5",
    ),
    ("7 until", "| 7"),
];

// Scripts, and before each the line and the cause of its refusal. An open quote is told before all words, and not in a comment.
const REFUSED: &str = "1 S1 x a fetch
1 S1 -0.001 a fetch
1 S1 1000000.001 a fetch
3 S1 |// nobody|1e3 until
2 S2 1 a fetch|0 a fetch|
3 S2 1 a post X=1||0.5 pHelmIvP fetch|
2 S2 2 until|1.999 until|
1 S3 0 a
1 S3 0 a jump
1 S3 0 a Fetch
1 S3 0 a fetch now
1 S3 0 until x
1 S3 0 Until
1 S3 0 a register X 0 * more
1 S3 0 a unregister X * more
1 S4 0
1 S4 0 9a fetch
1 S4 0 a post 9X=1
1 S4 0 a post A=1 # =2
1 S5 x a post X=\"open
2 S5 0 a fetch // \"|0 a fetch \"
1 S5 0 a post X=\"open // |
1 S5 0 a post
1 S5 0 a post X
1 S5 0 a post X=//1|
1 S5 0 a post X=1 #
1 S5 0 a post X=\"1\" 2
1 S5 0 a post X=\x01
1 S6 0 a register
1 S6 0 a register N#
1 S6 0 a register X 0 p,
1 S6 0 a unregister
1 S6 0 a unregister X p,
1 S7 0 a register X -1
1 S7 0 a register X 1000000.001 p,
1 S9 0 pHelmIvP fetch
1 S9 0 pHelmIvP jump";

#[test]
fn scripts(rt: HostRuntime) {
    let alloc = rt.alloc();
    for (text, wanted) in GOOD {
        let script = read_script(alloc, bytes_of(&rt, *text)).expect(&rt, *text);
        is_shown(&rt, &shown(&rt, alloc, &script), *wanted, *text);
    }
    are_judged(&rt, alloc, Kind::Script, b"", REFUSED);
}

// Numbers of made scripts, and how many lines each has.
const MADE: &[(&str, u64, usize)] = &[
    ("0", 0, 6595),
    ("7", 7, 6658),
    ("999999999", 999_999_999, 6592),
];

#[test]
fn made_scripts(rt: HostRuntime) {
    for (row, number, lines) in MADE {
        let script = make_script(rt.alloc(), *number).expect(&rt, "memory");
        check(&rt, script.names.len() == 9, *row);
        check(&rt, script.lines.len() == *lines, *row);
    }
}
