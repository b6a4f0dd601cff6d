// Files of problems: what they give, and what is refused.
use crate::decisions::heaviest;
use crate::rows::{is_refused, text_of};
use ivp_cert::read_problem;
use ivp_domain::{Axis, BoxN};
use ivp_func::{Func, Piece};
use ivp_problem::Problem;
use moos_text::ReadFault;
use std::alloc::Global;
use std::process::Abort;

fn read(rt: &impl Abort, alloc: Global, text: &[u8]) -> Result<Problem, ReadFault> {
    assert!(rt; text.len() < 4_000_000_000);
    read_problem(alloc, text)
}

fn is_axis(axis: &Axis, name: &[u8], low: i64, high: i64, points: u32) -> bool {
    axis.name.bytes() == name && axis.low == low && axis.high == high && axis.points == points
}

// A piece on the first axes, over all of the others: low and high on the first one, high on the other two, base and the
// first two slopes.
fn piece(low: u32, high: u32, others: u32, base: i64, slopes: [i64; 2]) -> Piece {
    Piece {
        area: BoxN {
            low: [low, 0, 0, 0],
            high: [high, others, others, 0],
        },
        base,
        slope: [slopes[0], slopes[1], 0, 0],
    }
}

fn are_pieces(func: &Func, pieces: &[Piece]) -> bool {
    for (place, piece) in pieces.iter().enumerate() {
        if place >= func.len() as usize || func.piece(place as u32) != *piece {
            return false;
        }
    }
    func.len() as usize == pieces.len()
}

// The function with this number has this weight and these pieces.
fn is_term(problem: &Problem, number: u32, weight: u32, pieces: &[Piece]) -> bool {
    number < problem.len()
        && problem.weight(number) == weight
        && are_pieces(problem.func(number), pieces)
}

#[test]
fn one_function(rt: HostRuntime) {
    let text = b"ivp 1\ndomain course:0:359:360\nfunction 100\npiece 0 359 7 0\nend\n";
    let problem = read(&rt, rt.alloc(), text).expect(&rt, "a problem");
    let domain = problem.domain();
    assert!(rt; domain.axes() == 1);
    assert!(rt; 0 < domain.axes());
    assert!(rt; is_axis(&domain.axis(0), b"course", 0, 359_000, 360));
    assert!(rt; problem.len() == 1);
    assert!(rt; is_term(&problem, 0, 100_000, &[piece(0, 359, 0, 7, [0, 0])]));
}

#[test]
fn two_functions(rt: HostRuntime) {
    let text =
        b"ivp 1\ndomain a:0:2:3\ndomain b:0:1:2\ndomain d:0:1:2\nfunction 2\npiece 0 2 0 1 0 1 0 10 0 0\nfunction 3\npiece 0 0 0 1 0 1 20 0 5 0\npiece 1 2 0 1 0 1 0 0 5 0\nend\n";
    let problem = read(&rt, rt.alloc(), text).expect(&rt, "a problem");
    assert!(rt; problem.domain().axes() == 3);
    assert!(rt; problem.len() == 2);
    assert!(rt; is_term(&problem, 0, 2_000, &[piece(0, 2, 1, 0, [10, 0])]));
    let split = [piece(0, 0, 1, 20, [0, 5]), piece(1, 2, 1, 0, [0, 5])];
    assert!(rt; is_term(&problem, 1, 3_000, &split));
}

#[test]
fn written_otherwise(rt: HostRuntime) {
    let text =
        b"\r\n %% ivp  1 \r\n%% \tdomain\tx:-0.5:+0:2.0\n\n  \t\nfunction +1.0009\n piece 0 01 00007 -7\n%%  end";
    let problem = read(&rt, rt.alloc(), text).expect(&rt, "a problem");
    let domain = problem.domain();
    assert!(rt; 0 < domain.axes());
    assert!(rt; is_axis(&domain.axis(0), b"x", -500, 0, 2));
    assert!(rt; is_term(&problem, 0, 1_000, &[piece(0, 1, 0, 7, [-7, 0])]));
}

// Files that are no problem, and before each the line and the cause of its refusal: a line outside the form or the order (P1), an
// axis (P2), a box (P3), pieces that are no partition, before a value out of range and before all else of the line (P4), a value
// out of range (P5), a weight (P6), no function (P8) and no end (P9).
const REFUSED: &str = "2 P1 |domain a:0:1:2|
1 P1 ivp 2|
1 P1 ivp 1 1|
1 P1 ivp 1 // one|
1 P1 %%|ivp 1|
1 P1 %% %% ivp 1|
2 P1 ivp 1|end|
2 P1 ivp 1|function 1|
2 P1 ivp 1|domain a:0:1:2 b:0:1:2|
3 P1 ivp 1|domain a:0:1:2|piece 0 1 0 0|
3 P1 ivp 1|domain a:0:1:2|function|
3 P1 ivp 1|domain a:0:1:2|end now|
4 P1 ivp 1|domain a:0:1:2|function 1|domain b:0:1:2|
4 P1 ivp 1|domain a:0:1:2|function 1|piece 0 1 0|
4 P1 ivp 1|domain a:0:1:2|function 1|piece 0 1 0 1 0 0 0|
4 P1 ivp 1|domain a:0:1:2|function 1|piece -0 1 0 0|
4 P1 ivp 1|domain a:0:1:2|function 1|piece 0 1 - 0|
4 P1 ivp 1|domain a:0:1:2|function 1|piece 0 1 +1 0|
4 P1 ivp 1|domain a:0:1:2|function 1|piece 0 4294967296 0 0|
4 P1 ivp 1|domain a:0:1:2|function 1|piece 0 1 -100000000000001 0|
4 P1 ivp 1|domain a:0:1:2|function 1|piece 0 1 0 100001|
7 P1 ivp 1|domain a:0:1:2|function 1|piece 0 1 0 0|end||end|
2 P2 ivp 1|domain a:0:1|
2 P2 ivp 1|domain a:0:1:2:3|
2 P2 ivp 1|domain a,0,1,2|
2 P2 ivp 1|domain 1a:0:1:2|
2 P2 ivp 1|domain a:0:1:1|
2 P2 ivp 1|domain a:0:1:2.5|
2 P2 ivp 1|domain a:1:1:2|
4 P2 ivp 1|domain a:0:1:2|domain A:0:1:2|domain a:0:1:2|
6 P2 ivp 1|domain a:0:1:2|domain b:0:1:2|domain c:0:1:2|domain d:0:1:2|domain e:0:1:2|
3 P2 ivp 1|domain a:0:1:16384|domain b:0:1:16385|
2 P2 ivp 1|domain a:0:268435456:268435457|
4 P3 ivp 1|domain course:0:359:360|function 100|piece 0 360 7 0|end|
4 P3 ivp 1|domain a:0:1:2|function 1|piece 1 0 0 0|
5 P3 ivp 1|domain a:0:1:2|domain b:0:1:2|function 1|piece 0 1 0 2 0 0 0|
3 P4 ivp 1|domain a:0:1:2|function 1||function|
3 P4 ivp 1|domain a:0:1:2|function 1|piece 0 1 -1 0|piece 1 1 0 0|end now|
5 P4 ivp 1|domain a:0:1:2|function 1|piece 0 1 0 0|function 1|piece 0 0 0 0|end|
3 P5 ivp 1|domain course:0:359:360|function 100|piece 0 359 7 300|end|
3 P5 ivp 1|domain a:0:1:2|function 1|piece 0 1 6 -7|function 0|
3 P6 ivp 1|domain a:0:1:2|function 0|
3 P6 ivp 1|domain a:0:1:2|function 0.0009|
3 P6 ivp 1|domain a:0:1:2|function -1|
3 P6 ivp 1|domain a:0:1:2|function 10000.001|
3 P6 ivp 1|domain a:0:1:2|function one|
3 P8 ivp 1|domain course:0:359:360|end|
5 P8 ivp 1||domain a:0:1:2||end|end|
1 P9
1 P9 |
5 P9 ivp 1|domain a:0:1:2|function 1|||";

#[test]
fn refusals(rt: HostRuntime) {
    for row in REFUSED.lines() {
        let text = text_of(&rt, rt.alloc(), b"", row, 2);
        is_refused(&rt, read(&rt, rt.alloc(), &text).err(), row);
    }
}

// Behind 64 functions, which may be, one more is refused before its weight is read.
#[test]
fn most_functions(rt: HostRuntime) {
    let domain = b"domain a:0:1:2\n";
    let piece = b"piece 0 1 100000 0\n";
    let text = heaviest(&rt, rt.alloc(), domain, piece, b"end\n");
    let problem = read(&rt, rt.alloc(), &text).expect(&rt, "a problem");
    assert!(rt; problem.len() == 64);
    let text = heaviest(&rt, rt.alloc(), domain, piece, b"function 0\n");
    is_refused(&rt, read(&rt, rt.alloc(), &text).err(), "131 P7");
}

// A function of `count` pieces, each of one point, over 4,096 points.
fn pieces(rt: &impl Abort, alloc: Global, count: u32) -> Vec<u8> {
    let mut text = Vec::new(alloc);
    text.extend_from_slice(b"ivp 1\ndomain a:0:1:4096\nfunction 1\n")
        .expect(rt, "memory");
    for place in 0..count {
        let line = format!(in alloc; "piece {place} {place} 0 0\n").expect(rt, "memory");
        text.extend_from_slice(line.as_bytes()).expect(rt, "memory");
    }
    text
}

#[test]
fn most_pieces(rt: HostRuntime) {
    let alloc = rt.alloc();
    let mut text = pieces(&rt, alloc, 4096);
    text.extend_from_slice(b"end\n").expect(&rt, "memory");
    let problem = read(&rt, alloc, &text).expect(&rt, "a problem");
    assert!(rt; 0 < problem.len());
    assert!(rt; problem.func(0).len() == 4096);
    let text = pieces(&rt, alloc, 4097);
    is_refused(&rt, read(&rt, alloc, &text).err(), "4100 P7");
}
