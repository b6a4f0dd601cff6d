// The closest approach, in numbers below 2^127.
ghost use Rattle.std.specs.Prelude.{◌≡◌, ◌*◌, ◌^◌, ◌≤◌, nat_abs};
ghost use Rattle.contact_avoid.specs.Approach.{closest, cross, dot, length_squared};
ghost use Rattle.contact_avoid.specs.Bounds.{PartsLieWithin, LiesWithin};

use crate::sizes::{
    difference, part_size, part_square, product, square, square_sum, sum, wide_size,
};
use crate::vector::Vector;

// A number that isn't below 0, as a fraction.
#[derive(Clone, Copy)]
pub(crate) struct Fraction {
    pub over: u128,
    pub under: u128,
}

// The squared closest approach of a contact at `r`, no part of which is beyond 10^7, that moves by `w`, no part of which
// is beyond 2 * 10^9: a squared distance in thousandths, as a fraction.
pub(crate) fn closest(r: Vector, w: Vector) -> Fraction
    requires r { PartsLieWithin (10 ^ 7) r }
    requires w { PartsLieWithin (2 * 10 ^ 9) w }
    ensures value { result ≡ closest r w }
    ensures over { result.over ≤ 16 * 10 ^ 32 }
    ensures under { result.under ≤ 8 * 10 ^ 18 }
{
    if dot(r, w) >= 0 {
        Fraction {
            over: length_squared(r),
            under: 1,
        }
    } else {
        Fraction {
            over: wide_square(cross(r, w)),
            under: length_squared(w),
        }
    }
}

// Above 0 if the contact goes away, and below 0 if it comes nearer.
fn dot(r: Vector, w: Vector) -> i128
    requires r { PartsLieWithin (10 ^ 7) r }
    requires w { PartsLieWithin (2 * 10 ^ 9) w }
    ensures { result ≡ dot r w }
{
    sum(product(r.x, w.x), product(r.y, w.y))
}

fn cross(r: Vector, w: Vector) -> i128
    requires r { PartsLieWithin (10 ^ 7) r }
    requires w { PartsLieWithin (2 * 10 ^ 9) w }
    ensures value { result ≡ cross r w }
    ensures within { LiesWithin (4 * 10 ^ 16) result }
{
    difference(product(r.x, w.y), product(r.y, w.x))
}

// The square of a cross product.
fn wide_square(number: i128) -> u128
    requires { LiesWithin (4 * 10 ^ 16) number }
    ensures value { result ≡ nat_abs number * nat_abs number }
    ensures within { result ≤ 16 * 10 ^ 32 }
{
    square(wide_size(number))
}

fn length_squared(v: Vector) -> u128
    requires { PartsLieWithin (2 * 10 ^ 9) v }
    ensures value { result ≡ length_squared v }
    ensures within { result ≤ 8 * 10 ^ 18 }
{
    square_sum(part_squared(v.x), part_squared(v.y))
}

// The square of a part of a vector.
fn part_squared(part: i64) -> u128
    requires { LiesWithin (2 * 10 ^ 9) part }
    ensures value { result ≡ nat_abs part * nat_abs part }
    ensures within { result ≤ 4 * 10 ^ 18 }
{
    part_square(part_size(part))
}
