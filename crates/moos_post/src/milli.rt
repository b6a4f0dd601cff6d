// Numbers in thousandths.
ghost use Rattle.std.specs.Prelude.{◌≡◌, ◌↔◌, IsSome, IfSome};
ghost use Rattle.moos_post.specs.Words.{IsMilli};

use std::marker::Model;

/// The greatest number of thousandths.
const GREATEST: i64 = 1_000_000_000_000;

/// A number in thousandths, from -10^12 to 10^12, so a quantity up to a thousand million either way.
///
/// Contracts see the whole number of thousandths.
#[derive(Clone, Copy, Debug)]
pub struct Milli {
    thousandths: i64,
}

impl Model for Milli {
    ghost use Rattle.std.specs.Prelude.{ℤ};
    ghost use Rattle.moos_post.specs.Words.{IsMilli};

    ghost Value = { ℤ };

    ghost view = { λ m. m.thousandths };

    ghost invariant = { λ m. IsMilli m.thousandths };

    ghost inverse = { λ n. record { thousandths = n } };
}

impl Milli {
    /// The number of this many thousandths, and None exactly if that is outside -10^12 to 10^12.
    pub fn new(n: i64) -> Option<Milli>
        ensures within { IsSome result ↔ IsMilli n }
        ensures value { IfSome result (λ milli. milli ≡ n) }
    {
        if (-GREATEST..=GREATEST).contains(&n) {
            Some(Milli { thousandths: n })
        } else {
            None
        }
    }

    /// The number of thousandths.
    pub fn get(&self) -> i64
        ensures value { result ≡ self.now }
        ensures within { IsMilli self.now }
    {
        self.thousandths
    }
}
