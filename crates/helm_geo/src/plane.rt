// Lengths, sides and distances in the plane.
ghost use Rattle.std.specs.Prelude.{◌≡◌, ◌+◌, ◌*◌, ◌^◌, ◌<◌, ◌≤◌, pos, neg_ℤ, ◌≤ℤ◌, ◌-ℤ◌, ◌*ℤ◌, nat_abs, IsTrue};
ghost use Rattle.helm_geo.specs.Plane.{distance_squared, is_left_of, is_spot, isqrt, square, within};

use crate::spot::Spot;

/// How far east of `a` a spot lies, in thousandths; below 0 if it lies west.
pub fn east_of(a: &Spot, p: &Spot) -> i64
    requires a { IsTrue (is_spot a.now) }
    requires p { IsTrue (is_spot p.now) }
    ensures value { result ≡ p.now.x -ℤ a.now.x }
    ensures low { neg_ℤ (pos (2 * 10 ^ 12)) ≤ℤ result }
    ensures high { result ≤ℤ pos (2 * 10 ^ 12) }
{
    p.x - a.x
}

/// How far north of `a` a spot lies, in thousandths; below 0 if it lies south.
pub fn north_of(a: &Spot, p: &Spot) -> i64
    requires a { IsTrue (is_spot a.now) }
    requires p { IsTrue (is_spot p.now) }
    ensures value { result ≡ p.now.y -ℤ a.now.y }
    ensures low { neg_ℤ (pos (2 * 10 ^ 12)) ≤ℤ result }
    ensures high { result ≤ℤ pos (2 * 10 ^ 12) }
{
    p.y - a.y
}

/// The product of two differences of coordinates.
fn product(a: i64, b: i64) -> i128
    requires low_a { neg_ℤ (pos (2 * 10 ^ 12)) ≤ℤ a }
    requires high_a { a ≤ℤ pos (2 * 10 ^ 12) }
    requires low_b { neg_ℤ (pos (2 * 10 ^ 12)) ≤ℤ b }
    requires high_b { b ≤ℤ pos (2 * 10 ^ 12) }
    ensures { result ≡ a *ℤ b }
{
    a as i128 * b as i128
}

/// Whether a spot lies strictly left of the line from `a` to `b`.
pub fn is_left_of(a: &Spot, b: &Spot, p: &Spot) -> bool
    requires a { IsTrue (is_spot a.now) }
    requires b { IsTrue (is_spot b.now) }
    requires p { IsTrue (is_spot p.now) }
    ensures { result ≡ is_left_of a.now b.now p.now }
{
    let rise = product(north_of(a, b), east_of(a, p));
    let run = product(east_of(a, b), north_of(a, p));
    rise < run
}

/// The square of the distance of two spots, in thousandths.
pub fn distance_squared(p: &Spot, q: &Spot) -> u128
    requires p { IsTrue (is_spot p.now) }
    requires q { IsTrue (is_spot q.now) }
    ensures { result ≡ distance_squared p.now q.now }
{
    let east = east_of(p, q).unsigned_abs() as u128;
    let north = north_of(p, q).unsigned_abs() as u128;
    east * east + north * north
}

/// Whether two spots are not farther apart than a radius in thousandths.
pub fn within(p: &Spot, q: &Spot, radius: i64) -> bool
    requires p { IsTrue (is_spot p.now) }
    requires q { IsTrue (is_spot q.now) }
    requires low { pos 0 ≤ℤ radius }
    requires high { radius ≤ℤ pos (10 ^ 12) }
    ensures { result ≡ within p.now q.now (nat_abs radius) }
{
    let radius = radius.unsigned_abs() as u128;
    distance_squared(p, q) <= radius * radius
}

/// The root of a number, rounded down: the greatest number whose square is at most it. Takes 64 steps.
#[tactic(auto, using(crate::proofs::Roots::isqrt_alone))]
pub fn isqrt(n: u128) -> u64
    ensures value { result ≡ isqrt n }
    ensures low { square result ≤ n }
    ensures high { n < square (result + 1) }
{
    n.isqrt() as u64
}
