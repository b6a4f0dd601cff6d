// Products and quotients of the controller and the vehicle, with how great they are, and numbers held within a limit.
ghost use Rattle.std.specs.Prelude.{◌≡◌, ◌≤◌, pos, neg_ℤ, ◌^◌, ◌*ℤ◌, int_div};
ghost use Rattle.sim_vehicle.specs.Motion.{most_change};
ghost use Rattle.sim_vehicle.specs.Steering.{Lies, limited};

/// A number held within a limit either way.
pub fn limited(number: i64, limit: i64) -> i64
    requires { Lies (pos 0) (pos (10 ^ 12)) limit }
    ensures value { result ≡ limited limit number }
    ensures within { Lies (neg_ℤ limit) limit result }
{
    number.clamp(-limit, limit)
}

/// The product of a number and a factor.
pub fn times(number: i64, factor: i64) -> i64
    requires number { Lies (neg_ℤ (pos (10 ^ 12))) (pos (10 ^ 12)) number }
    requires factor { Lies (neg_ℤ (pos (10 ^ 6))) (pos (10 ^ 6)) factor }
    ensures value { result ≡ number *ℤ factor }
    ensures within { Lies (neg_ℤ (pos (10 ^ 18))) (pos (10 ^ 18)) result }
{
    number * factor
}

/// A product of two numbers divided by a third, toward zero. It is as wide as the product, which no `i64` may hold.
pub fn mul_div(one: i64, other: i64, by: i64) -> i128
    requires one { Lies (neg_ℤ (pos (10 ^ 18))) (pos (10 ^ 18)) one }
    requires other { Lies (neg_ℤ (pos (10 ^ 18))) (pos (10 ^ 18)) other }
    requires by { Lies (pos 1) (pos (10 ^ 18)) by }
    ensures value { result ≡ int_div (one *ℤ other) by }
    ensures within { Lies (neg_ℤ (pos (10 ^ 36))) (pos (10 ^ 36)) result }
{
    one as i128 * other as i128 / by as i128
}

/// What a rate a second comes to in `dt` milliseconds, in millionths.
pub fn in_step(rate: i64, dt: u64) -> i64
    requires rate { Lies (pos 0) (pos 100000) rate }
    requires dt { dt ≤ 10 ^ 6 }
    ensures value { result ≡ rate *ℤ pos dt }
    ensures within { Lies (pos 0) (pos (10 ^ 11)) result }
{
    rate * dt as i64
}

/// The same in thousandths: how much a quantity may change that changes no faster than this.
pub fn most_change(rate: i64, dt: u64) -> i64
    requires rate { Lies (pos 0) (pos 100000) rate }
    requires dt { dt ≤ 10 ^ 6 }
    ensures value { result ≡ most_change rate dt }
    ensures within { Lies (pos 0) (pos (10 ^ 11)) result }
{
    in_step(rate, dt) / 1000
}
