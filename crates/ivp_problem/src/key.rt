// The key of a point: its sum, and of equal sums the lower index first.
ghost use Rattle.std.specs.Prelude.{◌≡◌, ◌↔◌, ◌*◌, ◌^◌, ◌<◌, ◌≤◌, IsTrue};
ghost use Rattle.ivp_problem.specs.Keys.{AtMost, greater_own, key_of, Reaches};

/// The sum and the index of a point. The greater sum has the greater key, and of equal sums the lesser
/// index.
#[derive(Clone, Copy, Debug, PartialEq, Eq)]
pub struct Key {
    pub sum: u64,
    pub index: u32,
}

/// The greatest sum of a problem, in thousandths: 64 functions of weight 10,000,000 and value 100,000.
pub const MOST_SUM: u64 = 64_000_000_000_000;

/// The key of a sum and an index.
pub fn key_of(sum: u64, index: u32) -> Key
    requires sum { sum ≤ 64 * 10 ^ 12 }
    requires index { index < 2 ^ 28 }
    ensures { result ≡ key_of sum index }
{
    Key { sum, index }
}

/// The sum of a key.
pub fn sum_of(key: Key) -> u64
    ensures { result ≡ key.sum }
{
    key.sum
}

/// The index of a key.
pub fn index_of_key(key: Key) -> u32
    ensures { result ≡ key.index }
{
    key.index
}

/// Whether a key is at most another.
pub fn at_most(one: Key, other: Key) -> bool
    ensures { IsTrue result ↔ AtMost one other }
{
    one.sum < other.sum || (one.sum == other.sum && other.index <= one.index)
}

/// Whether there is a key, and another one is at most it.
pub fn reaches(own: Option<Key>, key: Key) -> bool
    ensures { IsTrue result ↔ Reaches own key }
{
    match own {
        Some(one) => at_most(key, one),
        None => false,
    }
}

/// The greater of two keys that may be none.
pub fn greater_own(one: Option<Key>, other: Option<Key>) -> Option<Key>
    ensures { result ≡ greater_own one other }
{
    match other {
        Some(key) if !reaches(one, key) => other,
        _ => one,
    }
}
