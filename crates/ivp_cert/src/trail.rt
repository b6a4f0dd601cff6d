// The path of the node at which a walk over a tree is, in place.
ghost use Rattle.std.specs.Prelude.{◌≡◌, ◌<◌, ◌≤◌, ◌++◌, ◌-◌, ◌∷◌, [], length, take};

use ivp_problem::MOST_FUNCTIONS;
use std::marker::Model;

/// The path of the node at which a walk over a tree is. It takes no memory. Contracts see its numbers.
#[derive(Drop)]
pub struct Trail {
    numbers: [u32; MOST_FUNCTIONS],
    len: usize,
}

impl Model for Trail {
    ghost use Rattle.std.specs.Prelude.{List, ℕ, ◌≤◌, length, take};

    ghost Value = { List ℕ };

    ghost view = { λ trail. take trail.len trail.numbers };

    ghost invariant = { λ trail. trail.len ≤ length trail.numbers };
}

impl Trail {
    /// The root's.
    pub fn new() -> Trail
        ensures { result ≡ [] }
    {
        Trail {
            numbers: [0; MOST_FUNCTIONS],
            len: 0,
        }
    }

    /// Goes down by the piece of this number.
    pub fn push(&mut self, number: u32)
        requires { length self.old < 64 }
        ensures { self.new ≡ self.old ++ number ∷ [] }
    {
        self.numbers[self.len] = number;
        self.len += 1;
    }

    /// Goes up by one.
    pub fn pop(&mut self)
        requires { 0 < length self.old }
        ensures { self.new ≡ take (length self.old - 1) self.old }
    {
        self.len -= 1;
    }

    /// The numbers, in order.
    pub fn all(&self) -> &[u32]
        ensures all { result.now ≡ self.now }
        ensures few { length result.now ≤ 64 }
    {
        &self.numbers[..self.len]
    }

    /// The same path.
    pub fn copy(&self) -> Trail
        ensures { result ≡ self.now }
    {
        Trail {
            numbers: self.numbers,
            len: self.len,
        }
    }
}
