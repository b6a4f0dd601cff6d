// A number with its decimal digits: one that follows is counted up in place.
ghost use Rattle.std.specs.Prelude.{◌≡◌, ◌+◌, ◌^◌, ◌<◌, drop, slice_index, decimal, IsTrue};

use itoa::write_digits;
use std::marker::Model;

// How many digits a number has at most.
const MOST: usize = 20;

// A number and its digits. Contracts see the number.
#[derive(Drop)]
pub(crate) struct Numeral {
    number: u64,
    // They are filled from their end: the number's digits are from `start` on.
    digits: [u8; MOST],
    start: usize,
}

impl Model for Numeral {
    ghost use Rattle.std.specs.Prelude.{ℕ, ◌≡◌, ◌≤◌, drop, decimal};

    ghost Value = { ℕ };

    ghost view = { λ numeral. numeral.number };

    ghost invariant = { λ numeral. (numeral.start ≤ 20) × (drop numeral.start numeral.digits ≡ decimal numeral.number) };
}

impl Numeral {
    pub(crate) fn of(number: u64) -> Numeral
        ensures { result ≡ number }
    {
        let mut digits = [0; MOST];
        let start = write_digits(number, &mut digits, MOST);
        Numeral {
            number,
            digits,
            start,
        }
    }

    pub(crate) fn digits(&self) -> &[u8]
        ensures { result.now ≡ decimal self.now }
    {
        &self.digits[self.start..]
    }

    // Goes on to this number, in place if only the last digit changes, and that by one.
    #[inline]
    pub(crate) fn go_to(&mut self, number: u64)
        ensures { self.new ≡ number }
    {
        if is_one_up(self.number, self.digits[MOST - 1], number) {
            count_up(&mut self.digits, self.start, self.number);
            self.number = number;
            return;
        }
        *self = Numeral::of(number);
    }
}

// Whether a number follows another one whose last digit isn't a 9.
#[inline(always)]
fn is_one_up(before: u64, last: u8, number: u64) -> bool
    ensures { IsTrue result → (number ≡ before + 1) × (last < 57) }
{
    last < b'9' && before < number && number - before == 1
}

// Makes the digits from this place on, which are those of the number, those of the next one, if the last isn't a 9.
#[inline(always)]
fn count_up(digits: &mut [u8; MOST], start: usize, number: u64)
    requires digits { drop start digits.old ≡ decimal number }
    requires few { number + 1 < 2 ^ 64 }
    requires last { slice_index digits.old 19 < 57 }
    ensures { drop start digits.new ≡ decimal (number + 1) }
{
    digits[MOST - 1] += 1;
}
