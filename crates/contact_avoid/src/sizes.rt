// Products, sums and squares that fit, with how great they are.
ghost use Rattle.std.specs.Prelude.{◌≡◌, ◌*◌, ◌+◌, ◌-◌, ◌^◌, ◌≤◌, ◌*ℤ◌, ◌+ℤ◌, ◌-ℤ◌, nat_abs};
ghost use Rattle.contact_avoid.specs.Bounds.{LiesWithin};

// The product of a part of a position and one of a velocity.
fn wide_product(position: i64, velocity: i64) -> i128
    requires position { LiesWithin (10 ^ 7) position }
    requires velocity { LiesWithin (2 * 10 ^ 9) velocity }
    ensures { result ≡ position *ℤ velocity }
{
    position as i128 * velocity as i128
}

// The same with how great it is.
pub(crate) fn product(position: i64, velocity: i64) -> i128
    requires position { LiesWithin (10 ^ 7) position }
    requires velocity { LiesWithin (2 * 10 ^ 9) velocity }
    ensures value { result ≡ position *ℤ velocity }
    ensures within { LiesWithin (2 * 10 ^ 16) result }
{
    wide_product(position, velocity)
}

// The sum of two products.
pub(crate) fn sum(first: i128, second: i128) -> i128
    requires first { LiesWithin (2 * 10 ^ 16) first }
    requires second { LiesWithin (2 * 10 ^ 16) second }
    ensures value { result ≡ first +ℤ second }
{
    first + second
}

// The difference of two products.
pub(crate) fn difference(first: i128, second: i128) -> i128
    requires first { LiesWithin (2 * 10 ^ 16) first }
    requires second { LiesWithin (2 * 10 ^ 16) second }
    ensures value { result ≡ first -ℤ second }
    ensures within { LiesWithin (4 * 10 ^ 16) result }
{
    first - second
}

// How far a part of a velocity lies from 0.
pub(crate) fn part_size(number: i64) -> u128
    requires { LiesWithin (2 * 10 ^ 9) number }
    ensures value { result ≡ nat_abs number }
    ensures within { result ≤ 2 * 10 ^ 9 }
{
    number.unsigned_abs() as u128
}

// How far a difference of products lies from 0.
pub(crate) fn wide_size(number: i128) -> u128
    requires { LiesWithin (4 * 10 ^ 16) number }
    ensures value { result ≡ nat_abs number }
    ensures within { result ≤ 4 * 10 ^ 16 }
{
    number.unsigned_abs()
}

// The square of such a size.
pub(crate) fn square(number: u128) -> u128
    requires { number ≤ 4 * 10 ^ 16 }
    ensures value { result ≡ number * number }
    ensures within { result ≤ 16 * 10 ^ 32 }
{
    number * number
}

// The square of how far a part of a velocity lies from 0.
pub(crate) fn part_square(number: u128) -> u128
    requires { number ≤ 2 * 10 ^ 9 }
    ensures value { result ≡ number * number }
    ensures within { result ≤ 4 * 10 ^ 18 }
{
    number * number
}

// The sum of two such squares.
pub(crate) fn square_sum(first: u128, second: u128) -> u128
    requires first { first ≤ 4 * 10 ^ 18 }
    requires second { second ≤ 4 * 10 ^ 18 }
    ensures value { result ≡ first + second }
    ensures within { result ≤ 8 * 10 ^ 18 }
{
    first + second
}

// The square of a distance.
pub(crate) fn distance_square(number: u64) -> u128
    requires { number ≤ 10 ^ 7 }
    ensures value { result ≡ number * number }
    ensures within { result ≤ 10 ^ 14 }
{
    number as u128 * number as u128
}

// The product of the square of a distance and what a fraction is divided by.
pub(crate) fn scaled(square: u128, under: u128) -> u128
    requires square { square ≤ 10 ^ 14 }
    requires under { under ≤ 8 * 10 ^ 18 }
    ensures value { result ≡ square * under }
    ensures within { result ≤ 8 * 10 ^ 32 }
{
    square * under
}

// How much greater one number is than another.
pub(crate) fn excess(number: u128, low: u128) -> u128
    requires { low ≤ number }
    ensures { result ≡ number - low }
{
    number - low
}

// A share in thousandths of a hundred.
pub(crate) fn hundredfold(part: u128) -> u128
    requires { part ≤ 8 * 10 ^ 32 }
    ensures { result ≡ 100000 * part }
{
    100_000 * part
}
