// The builders that may be asked for too many pieces: with ample memory each tells so, and at one piece less it doesn't.
ghost use Rattle.std.specs.Prelude.{◌≡◌, ◌<◌, ◌≤ℤ◌, pos, IsTrue};
ghost use Rattle.ivp_build.specs.Sums.{is_level_on};

use crate::made::{line_of, piece};
use ivp_build::{BuildFault, couple, room_law, uniform};
use ivp_domain::{Domain, Point};
use ivp_func::{Func, Piece, are_pieces_of};
use std::alloc::Global;
use std::process::Abort;

fn nothing(_: &Point) -> i64
    ensures low { pos 0 ≤ℤ result }
    ensures high { result ≤ℤ pos 100000 }
{
    0
}

// A sample has one piece on each box.
#[test]
fn most_boxes(rt: HostRuntime) {
    for (points, fault) in [(4096, None), (4097, Some(BuildFault::TooMany))] {
        let domain = line_of(&rt, points);
        let made = uniform(rt.alloc(), &domain, 1, &|point: &Point| nothing(point));
        assert!(rt; made.err() == fault);
    }
}

// None of the pieces has a slope on this axis.
fn is_level_on(pieces: &[Piece], axis: usize) -> bool
    requires { axis < 4 }
    ensures { result ≡ is_level_on axis pieces.now }
{
    pieces.iter().all(|piece| piece.slope[axis] == 0)
}

// The function of these pieces, of which none has a slope.
fn level(rt: &impl Abort, alloc: Global, domain: &Domain, pieces: Vec<Piece>) -> Func
    ensures axes { result.axes ≡ domain.now }
    ensures first { IsTrue (is_level_on 0 result.pieces) }
    ensures second { IsTrue (is_level_on 1 result.pieces) }
    ensures third { IsTrue (is_level_on 2 result.pieces) }
    ensures fourth { IsTrue (is_level_on 3 result.pieces) }
{
    assert!(rt; are_pieces_of(domain, &pieces), "pieces that fit");
    assert!(rt; is_level_on(&pieces, 0) && is_level_on(&pieces, 1));
    assert!(rt; is_level_on(&pieces, 2) && is_level_on(&pieces, 3));
    Func::make(alloc, domain, pieces).expect(rt, "a function")
}

// A function of value 0 in `count` pieces of this size, the last of which may be shorter.
fn runs(rt: &impl Abort, alloc: Global, domain: &Domain, count: u32, size: u32) -> Func
    ensures axes { result.axes ≡ domain.now }
    ensures first { IsTrue (is_level_on 0 result.pieces) }
    ensures second { IsTrue (is_level_on 1 result.pieces) }
    ensures third { IsTrue (is_level_on 2 result.pieces) }
    ensures fourth { IsTrue (is_level_on 3 result.pieces) }
{
    let last = domain.points().saturating_sub(1);
    let mut pieces = Vec::new(alloc);
    for number in 0..count {
        let low = number.saturating_mul(size);
        let high = low.saturating_add(size).saturating_sub(1).min(last);
        pieces.push(piece(low, high, 0, 0)).expect(rt, "memory");
    }
    level(rt, alloc, domain, pieces)
}

// The sum of two functions over a line, in pieces of two and of three places.
fn summed(
    rt: &impl Abort,
    alloc: Global,
    points: u32,
    twos: u32,
    threes: u32,
) -> Option<BuildFault> {
    let domain = line_of(rt, points);
    let one = runs(rt, alloc, &domain, twos, 2);
    let other = runs(rt, alloc, &domain, threes, 3);
    assert!(rt; one.top() <= 50_000);
    assert!(rt; other.top() <= 50_000);
    room_law();
    couple(alloc, &one, &other).err()
}

// A sum has one piece for each pair that meets: of six places four.
#[test]
fn most_meets(rt: HostRuntime) {
    let refused = Some(BuildFault::TooMany);
    assert!(rt; summed(&rt, rt.alloc(), 6144, 3072, 2048).is_none());
    assert!(rt; summed(&rt, rt.alloc(), 6145, 3073, 2049) == refused);
}
