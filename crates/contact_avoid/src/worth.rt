// The utility of a squared distance.
ghost use Rattle.std.specs.Prelude.{◌≡◌, pos, ◌-◌, ◌*◌, ◌/◌, ◌^◌, ◌≤◌, ◌<◌};
ghost use Rattle.contact_avoid.specs.Approach.{utility_between};

use crate::approach::Fraction;
use crate::sizes::{distance_square, excess, hundredfold, scaled};

// The share of a part in a greater whole, in thousandths of 0 to 100, rounded downward.
fn share(part: u128, whole: u128) -> i64
    requires part { part ≤ 8 * 10 ^ 32 }
    requires whole { part < whole }
    ensures { result ≡ pos (100000 * part / whole) }
{
    quotient(hundredfold(part), whole) as i64
}

// A quotient that fits.
fn quotient(number: u128, whole: u128) -> u128
    requires whole { 1 ≤ whole }
    requires number { number ≤ 100000 * whole }
    ensures value { result ≡ number / whole }
    ensures within { result ≤ 100000 }
{
    number / whole
}

// The utility of a squared distance, in thousandths of 0 to 100: 0 up to the near distance and 100,000 from the far one on.
pub(crate) fn utility_between(near: u64, far: u64, q: Fraction) -> i64
    requires near { near < far }
    requires far { far ≤ 10 ^ 7 }
    requires over { q.over ≤ 16 * 10 ^ 32 }
    requires under { q.under ≤ 8 * 10 ^ 18 }
    ensures { result ≡ pos (utility_between near far q) }
{
    let near = distance_square(near);
    let far = distance_square(far);
    let low = scaled(near, q.under);
    if q.over <= low {
        0
    } else if scaled(far, q.under) <= q.over {
        100_000
    } else {
        share(excess(q.over, low), scaled(excess(far, near), q.under))
    }
}
