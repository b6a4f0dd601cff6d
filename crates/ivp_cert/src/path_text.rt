// The text of a path, kept from one line of a certificate to the next.
ghost use Rattle.std.specs.Prelude.{◌≡◌, ◌+◌, ◌<◌, ◌≤◌, ◌++◌, ◌∷◌, [], flat_map, length, take};
ghost use Rattle.ivp_cert.specs.Texts.{number_word};

use ivp_problem::MOST_FUNCTIONS;
use std::marker::Model;

// How many bytes a number takes at most, with the blank in front of it.
const WORD: usize = 11;

/// A path and its text. The paths of lines that follow each other begin alike, and what they begin with is formatted once.
/// Contracts see the path.
#[derive(Drop)]
pub(crate) struct PathText {
    numbers: [u32; MOST_FUNCTIONS],
    len: usize,
    // The text of the first numbers ends here, by how many they are.
    ends: [usize; MOST_FUNCTIONS + 1],
    bytes: [u8; WORD * MOST_FUNCTIONS],
}

impl Model for PathText {
    ghost use Rattle.std.specs.Prelude.{List, ℕ, take};
    ghost use Rattle.ivp_cert.specs.PathTexts.{IsPathText};

    ghost Value = { List ℕ };

    ghost view = { λ text. take text.len text.numbers };

    ghost invariant = { λ text. IsPathText text.numbers text.len text.ends text.bytes };
}

impl PathText {
    /// That of the root's path.
    pub(crate) fn new() -> PathText
        ensures { result ≡ [] }
    {
        PathText {
            numbers: [0; MOST_FUNCTIONS],
            len: 0,
            ends: [0; MOST_FUNCTIONS + 1],
            bytes: [0; WORD * MOST_FUNCTIONS],
        }
    }

    /// The text of a path: each number behind a blank.
    pub(crate) fn of(&mut self, path: &[u32]) -> &[u8]
        requires { length path.now ≤ 64 }
        ensures { result.now ≡ flat_map number_word path.now }
    {
        self.keep(path);
        for place in self.len..path.len() {
            self.add(path[place]);
        }
        self.all()
    }

    // Keeps the numbers with which the path begins too.
    fn keep(&mut self, path: &[u32])
        ensures { self.new ≡ take (length self.new) path.now }
    {
        self.len = alike(&self.numbers[..self.len], path);
    }

    // Adds a number.
    fn add(&mut self, number: u32)
        requires { length self.old < 64 }
        ensures { self.new ≡ self.old ++ number ∷ [] }
    {
        let mut digits = itoa::Buffer::new();
        let digits = digits.format(number).as_bytes();
        let blank = append(&mut self.bytes, self.ends[self.len], b" ");
        let end = append(&mut self.bytes, blank, digits);
        self.numbers[self.len] = number;
        self.len += 1;
        self.ends[self.len] = end;
    }

    // The text of all numbers.
    fn all(&self) -> &[u8]
        ensures { result.now ≡ flat_map number_word self.now }
    {
        &self.bytes[..self.ends[self.len]]
    }
}

// How many numbers both begin with.
#[tactic(auto, using(std::proofs::lemmas::List::take_more_same))]
fn alike(one: &[u32], other: &[u32]) -> usize
    ensures within { (result ≤ length one.now) × (result ≤ length other.now) }
    ensures same { take result one.now ≡ take result other.now }
{
    let mut count = 0;
    while count < one.len() && count < other.len() && one[count] == other[count] {
        count += 1;
    }
    count
}

// Writes the piece at this place, over what stood there, and tells where it ends.
#[inline(always)]
fn append(bytes: &mut [u8], place: usize, piece: &[u8]) -> usize
    requires { place + length piece.now ≤ length bytes.old }
    ensures end { result ≡ place + length piece.now }
    ensures written { take result bytes.new ≡ take place bytes.old ++ piece.now }
    ensures same { length bytes.new ≡ length bytes.old }
{
    let end = place + piece.len();
    bytes[place..end].copy_from_slice(piece);
    end
}
