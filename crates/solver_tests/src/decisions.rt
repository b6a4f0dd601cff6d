// Decisions with their certificates: solved, printed and read.
use crate::made::greatest_key;
use ivp_cert::{
    Cert, Claim, Decision, accepted_law, accepts, certificate_law, cut, cut_by_workers,
    print_decision, print_decision_by_workers, printed_law, read_decision, read_problem,
};
use ivp_domain::Point;
use ivp_problem::sum_of;
use moos_io::MemSink;
use moos_text::ReadFault;
use std::alloc::Global;
use std::process::Abort;

/// One function of one piece.
pub(crate) const LEVEL: &[u8] =
    b"ivp 1\ndomain course:0:359:360\nfunction 100\npiece 0 359 7 0\nend\n";

/// Three axes and two functions.
pub(crate) const TWO: &[u8] =
    b"ivp 1\ndomain a:0:2:3\ndomain b:0:1:2\ndomain d:0:1:2\nfunction 2\npiece 0 2 0 1 0 1 0 10 0 0\nfunction 3\npiece 0 0 0 1 0 1 20 0 5 0\npiece 1 2 0 1 0 1 0 0 5 0\nend\n";

/// Three functions over four points, whose sums are 15, 15, 0 and 0.
pub(crate) const THREE: &[u8] =
    b"ivp 1\ndomain x:0:3:4\nfunction 1\npiece 0 1 10 0\npiece 2 3 0 0\nfunction 1\npiece 0 0 5 0\npiece 1 3 0 0\nfunction 1\npiece 0 1 0 5\npiece 2 3 0 0\nend\n";

/// Ends and numbers below zero.
const HALVES: &[u8] =
    b"ivp 1\ndomain x:-0.5:2.25:2\nfunction 1\npiece 0 0 7 -7\npiece 1 1 -7 10\nend\n";

/// A weight below one, and the least weight of all.
const HALF: &[u8] = b"ivp 1\ndomain a:0:2:3\nfunction 0.5\npiece 0 2 0 10\nend\n";

const LEAST: &[u8] = b"ivp 1\ndomain a:0:2:3\nfunction 0.001\npiece 0 2 7 0\nend\n";

/// A text, and another one behind it.
pub(crate) fn joined(rt: &impl Abort, alloc: Global, front: &[u8], rest: &[u8]) -> Vec<u8> {
    let mut text = Vec::from_slice(alloc, front).expect(rt, "memory");
    text.extend_from_slice(rest).expect(rt, "memory");
    text
}

/// What is read of a text.
pub(crate) fn read(rt: &impl Abort, alloc: Global, text: &[u8]) -> Result<Decision, ReadFault> {
    assert!(rt; text.len() < 4_000_000_000);
    read_decision(alloc, text)
}

/// The text of the decision of a problem, whose best point has these places.
fn solved(rt: &impl Abort, alloc: Global, text: &[u8], at: [u32; 4], prefix: &[u8]) -> MemSink {
    assert!(rt; text.len() < 4_000_000_000);
    let problem = read_problem(alloc, text).expect(rt, "a problem");
    certificate_law();
    let key = greatest_key(&problem);
    let cert = cut(alloc, &problem, key).expect(rt, "memory");
    let claim = Claim {
        point: Point { at },
        sum: sum_of(key),
    };
    let decision = Decision {
        problem,
        claim,
        cert,
    };
    let mut sink = MemSink::make(alloc, 100_000, 100_000).expect(rt, "memory");
    print_decision(&decision, prefix, &mut sink).expect(rt, "room");
    sink
}

/// Whether a decision is accepted, if the text is one. What the decision prints stands for it.
pub(crate) fn is_accepted(rt: &impl Abort, alloc: Global, text: &[u8]) -> Option<bool> {
    assert!(rt; text.len() < 4_000_000_000);
    match read_decision(alloc, text) {
        Ok(decision) => {
            accepted_law();
            printed_law(&decision, b"");
            printed_law(&decision, b"%% ");
            Some(accepts(&decision.problem, &decision.claim, &decision.cert))
        }
        Err(_) => None,
    }
}

// Problems, the places of their best points, and the lines of their decisions.
const SOLVED: &[(&[u8], [u32; 4], &[u8])] = &[
    (LEVEL, [0; 4], b"decision 0 700\ncut : 700 0\ndone\n"),
    (
        TWO,
        [0, 1, 0, 0],
        b"decision 0 1 0 75\ncut 0 0 : 75 2\ncut 0 1 : 55 10\ndone\n",
    ),
    (
        THREE,
        [0; 4],
        b"decision 0 15\ncut 0 0 0 : 15 0\ncut 0 1 : 15 1\ncut 1 : 10 2\ndone\n",
    ),
    (HALVES, [0; 4], b"decision 0 7\ncut : 7 0\ndone\n"),
    (HALF, [2, 0, 0, 0], b"decision 2 10\ncut 0 : 10 2\ndone\n"),
    (LEAST, [0; 4], b"decision 0 0.007\ncut : 0.007 0\ndone\n"),
];

/// The problem of a text is decided at this point and by these lines, and the certificate is accepted.
fn is_decided(rt: &impl Abort, alloc: Global, problem: &[u8], at: [u32; 4], lines: &[u8]) {
    let expected = joined(rt, alloc, problem, lines);
    assert!(rt; solved(rt, alloc, problem, at, b"").bytes() == expected.as_slice());
    assert!(rt; is_accepted(rt, alloc, &expected) == Some(true));
}

#[test]
fn decisions_with_certificates(rt: HostRuntime) {
    for (problem, at, lines) in SOLVED {
        is_decided(&rt, rt.alloc(), *problem, *at, *lines);
    }
}

/// Whether both have the same lines.
fn are_same(one: &Cert, other: &Cert) -> bool {
    for (a, b) in one.all().iter().zip(other.all()) {
        if a.path.all() != b.path.all() || a.sum != b.sum || a.index != b.index {
            return false;
        }
    }
    one.len() == other.len()
}

#[test]
fn certificates_by_several_workers(rt: HostRuntime) {
    let alloc = rt.alloc();
    for (text, _, _) in SOLVED {
        assert!(rt; text.len() < 4_000_000_000);
        let problem = read_problem(alloc, *text).expect(&rt, "a problem");
        let key = greatest_key(&problem);
        let alone = cut(alloc, &problem, key).expect(&rt, "memory");
        for workers in 1..=16 {
            let cert = cut_by_workers(&rt, alloc, &problem, key, workers).expect(&rt, "memory");
            assert!(rt; are_same(&alone, &cert), "{workers}");
        }
    }
}

// Lines of a certificate. A worker's chunk is no whole number of times these, so that no two chunks of one round are equal.
const LINES: &[u8] = b"cut : 0.007 0\ncut : 0.007 1\ncut : 0.007 2\ncut : 0.007 3\ncut : 0.007 4\n";

// How often these lines are in a long certificate: together they are some chunks of several workers, and no whole number of
// chunks.
const TIMES: usize = 24_000;

/// A decision with a long certificate, which isn't that of its problem.
fn long_text(rt: &impl Abort, alloc: Global) -> Vec<u8> {
    let mut text = joined(rt, alloc, LEVEL, b"decision 0 700\n");
    for _ in 0..TIMES {
        text.extend_from_slice(LINES).expect(rt, "memory");
    }
    text.extend_from_slice(b"done\n").expect(rt, "memory");
    text
}

#[test]
fn long_certificates_printed_by_several_workers(rt: HostRuntime) {
    let alloc = rt.alloc();
    let text = long_text(&rt, alloc);
    let decision = read(&rt, alloc, &text).expect(&rt, "a decision");
    for workers in 1..=4 {
        let mut sink = MemSink::make(alloc, 2_000_000, 2_000_000).expect(&rt, "memory");
        print_decision_by_workers(&rt, alloc, &decision, b"", workers, &mut sink).expect(
            &rt, "room",
        );
        assert!(rt; sink.bytes() == text.as_slice(), "{workers}");
    }
}

#[test]
fn prefix_stands_before_each_line(rt: HostRuntime) {
    let sink = solved(&rt, rt.alloc(), LEVEL, [0; 4], b"%% ");
    let expected =
        b"%% ivp 1\n%% domain course:0:359:360\n%% function 100\n%% piece 0 359 7 0\n%% end\n%% decision 0 700\n%% cut : 700 0\n%% done\n".as_slice();
    assert!(rt; sink.bytes() == expected);
    assert!(rt; is_accepted(&rt, rt.alloc(), expected) == Some(true));
}

/// As many functions as there may be over a domain, each of the greatest weight and of this piece, and a last line.
pub(crate) fn heaviest(
    rt: &impl Abort,
    alloc: Global,
    domain: &[u8],
    piece: &[u8],
    last: &[u8],
) -> Vec<u8> {
    let mut text = joined(rt, alloc, b"ivp 1\n", domain);
    for _ in 0..64 {
        text.extend_from_slice(b"function 10000\n")
            .expect(rt, "memory");
        text.extend_from_slice(piece).expect(rt, "memory");
    }
    text.extend_from_slice(last).expect(rt, "memory");
    text
}

/// The greatest sum; and the most points, which take no more time and memory than few: nothing lists them.
#[test]
fn greatest_problems(rt: HostRuntime) {
    let alloc = rt.alloc();
    let domain = b"domain course:0:359:360\n";
    let text = heaviest(&rt, alloc, domain, b"piece 0 359 100000 0\n", b"end\n");
    let lines = b"decision 0 64000000000\ncut : 64000000000 0\ndone\n";
    is_decided(&rt, alloc, &text, [0; 4], lines);
    let domain = b"domain a:0:268435455:268435456\n";
    let text = heaviest(&rt, alloc, domain, b"piece 0 268435455 0 0\n", b"end\n");
    let lines = b"decision 0 0\ncut : 0 0\ndone\n";
    is_decided(&rt, alloc, &text, [0; 4], lines);
}
