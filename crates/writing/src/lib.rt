// Writes numbers, labels and line feeds as text: at the end of an `Output`, or at a place of any bytes. The bytes between
// words and between lines stand here, and so does the search for them.
#![tactic(auto)]

ghost use Rattle.std.specs.Prelude.{◌≡◌, [], ◌∷◌, ◌++◌, List, ℕ, map, ◌+◌, ◌*◌, ◌/◌, ◌%◌, ◌≤◌, ◌<◌, ◌==◌, leb, length, take, drop, position};
ghost use Rattle.basics.specs.Lists.{between, up_to};
ghost use Rattle.writing.specs.Digits.{digit, digits_of, signed_of};
ghost use Rattle.writing.specs.Words.{space, spaced};
ghost use Rattle.writing.specs.Answers.{line_feed, text_of, answer_of, labelled, no_call_of, end_of};

pub use places::{
    write_answer, write_bytes, write_end, write_further, write_labelled, write_no_call,
    write_number, write_numbers, write_signed, write_spaced,
};
use std::marker::Model;

mod places;

// The byte between two words.
pub const SPACE: u8 = b' ';

// The byte that ends a line.
pub const LINE_FEED: u8 = b'\n';

// The first place that holds this byte, if there is one.
fn first_of(byte: u8, bytes: &[u8]) -> Option<usize>
    ensures { result ≡ position (λ b. b == byte) bytes.now }
{
    bytes.iter().position(|b| *b == byte)
}

// The first place from one place up to another that holds this byte, or the other place if none does.
pub fn place_of(byte: u8, bytes: &[u8], from: usize, to: usize) -> usize
    requires { (from ≤ to) × (to ≤ length bytes.now) }
    ensures { result ≡ from + length (up_to byte (between from to bytes.now)) }
{
    match first_of(byte, &bytes[from..to]) {
        Some(before) => from + before,
        None => to,
    }
}

// The most digits of a number.
const MOST_DIGITS: usize = 20;

// Puts the two digits of a number below 100 ahead of a place, and answers the place of the first.
fn put_pair(places: &mut [u8; MOST_DIGITS], before: usize, n: u64) -> usize
    requires { (n < 100) × (2 ≤ before) × (before ≤ length places.old) }
    ensures place { result + 2 ≡ before }
    ensures stands { drop result places.new ≡ digit (n / 10) ∷ digit (n % 10) ∷ drop before places.old }
{
    places[before - 2] = b'0' + (n / 10) as u8;
    places[before - 1] = b'0' + (n % 10) as u8;
    before - 2
}

// Puts the digits of a number into the last of these places, and answers the place of the first: the last two digits,
// and ahead of them those of the number's hundredth part. The library's `write!` would print the same digits, but the
// faults in must-fail/ exchange and leave out digits, so they are computed here.
fn put_digits(places: &mut [u8; MOST_DIGITS], n: u64) -> usize
    ensures place { result ≤ 20 }
    ensures stands { drop result places.new ≡ digits_of n }
{
    let mut left = n;
    let mut first = MOST_DIGITS;
    while 100 <= left {
        first = put_pair(places, first, left % 100);
        left /= 100;
    }
    if 10 <= left {
        return put_pair(places, first, left);
    }
    places[first - 1] = b'0' + left as u8;
    first - 1
}

// The output: at most `N` bytes. Clauses see the bytes that were written so far.
#[derive(Drop)]
pub struct Output<const N: usize> {
    bytes: [u8; N],
    end: usize,
}

impl<const N: usize> Model for Output<N> {
    ghost Value = { List ℕ };

    ghost view = { λ o. take o.end o.bytes };

    ghost invariant = { λ o. o.end ≤ N };
}

impl<const N: usize> Output<N> {
    // Nothing is written yet.
    pub fn new() -> Self
        ensures { result ≡ [] }
    {
        Output {
            bytes: [0; N],
            end: 0,
        }
    }

    // The bytes that were written so far.
    pub fn written(&self) -> &[u8]
        ensures { result.now ≡ self.now }
    {
        &self.bytes[..self.end]
    }

    // Whether there is room for this many bytes more.
    pub fn has_room(&self, count: usize) -> bool
        ensures { result ≡ leb (length self.now + count) N }
    {
        count <= N - self.end
    }

    // Keeps what was written so far. By its clause callers know that it is within the room, which no other clause says.
    pub fn keep(&self)
        ensures { length self.now ≤ N }
    {
        let _ = &self.end;
    }

    // Forgets what was written so far.
    pub fn clear(&mut self)
        ensures { self.new ≡ [] }
    {
        self.end = 0;
    }

    // Writes a byte.
    pub fn byte(&mut self, b: u8)
        requires { length self.old < N }
        ensures { self.new ≡ self.old ++ b ∷ [] }
    {
        self.bytes[self.end] = b;
        self.end += 1;
    }

    // Writes bytes.
    pub fn bytes(&mut self, bytes: &[u8])
        requires { length self.old + length bytes.now ≤ N }
        ensures { self.new ≡ self.old ++ bytes.now }
    {
        let end = self.end + bytes.len();
        let all = &mut self.bytes[..];
        all[self.end..end].copy_from_slice(bytes);
        self.end = end;
    }

    // Writes the digits of a number.
    #[tactic(auto, using(crate::proofs::Digits::digits_most))]
    fn digits(&mut self, n: u64)
        requires { length self.old + length (digits_of n) ≤ N }
        ensures { self.new ≡ self.old ++ digits_of n }
    {
        let mut places = [0; MOST_DIGITS];
        let from = put_digits(&mut places, n);
        self.bytes(&places[from..]);
    }

    // Writes a number in at most 20 digits. Most numbers of an answer have one digit, and these are written at once,
    // since places for digits cost more than the digit.
    #[tactic(auto, using(crate::proofs::Digits::digits_most, crate::proofs::Digits::digits_one))]
    pub fn number(&mut self, n: u64)
        requires { length self.old + 20 ≤ N }
        ensures { self.new ≡ self.old ++ digits_of n }
    {
        if 10 <= n {
            self.digits(n);
            return;
        }
        self.byte(b'0' + n as u8);
    }

    // Writes a number with its sign. The size of a negative number is computed as 1 more than its distance from -1,
    // because the distance of the least number from 0 does not fit a signed number of 64 bits.
    pub fn signed(&mut self, z: i64)
        requires { length self.old + 20 ≤ N }
        ensures { self.new ≡ self.old ++ signed_of z }
    {
        if z < 0 {
            self.byte(b'-');
            let less = -1 - z;
            self.digits(less as u64 + 1);
            return;
        }
        self.digits(z as u64);
    }

    // Writes numbers, with a space in front of each. The place is counted in a local until all of them are written, since
    // a place that is counted in the output takes a third more time for each number.
    pub fn further(&mut self, numbers: &[u64])
        requires { length self.old + 21 * length numbers.now ≤ N }
        ensures { self.new ≡ self.old ++ spaced (map digits_of numbers.now) }
    {
        self.end = write_further(&mut self.bytes, self.end, numbers);
    }

    // Writes numbers, with one space between two.
    #[tactic(auto, using(crate::proofs::Digits::digits_most), unfolding(crate::specs::Answers::text_of, crate::specs::Words::joined))]
    pub fn numbers(&mut self, numbers: &[u64])
        requires { length self.old + 21 * length numbers.now ≤ N }
        ensures { self.new ≡ self.old ++ text_of numbers.now }
    {
        if let Some((first, others)) = numbers.split_first() {
            self.number(*first);
            self.further(others);
        }
    }

    // Writes a line feed.
    pub fn line_feed(&mut self)
        requires { length self.old < N }
        ensures { self.new ≡ self.old ++ line_feed ∷ [] }
    {
        self.byte(LINE_FEED);
    }

    // Writes an answer: its numbers, and a line feed.
    #[tactic(auto, using(crate::proofs::Writing::text_most), unfolding(crate::specs::Answers::answer_of))]
    pub fn answer(&mut self, numbers: &[u64])
        requires { length self.old + 21 * length numbers.now < N }
        ensures { self.new ≡ self.old ++ answer_of numbers.now }
    {
        self.numbers(numbers);
        self.line_feed();
    }

    // Writes a label, a number and a line feed.
    #[tactic(auto, using(crate::proofs::Digits::digits_most), unfolding(crate::specs::Answers::labelled))]
    pub fn labelled(&mut self, label: &[u8], n: u64)
        requires { length self.old + length label.now + 21 ≤ N }
        ensures { self.new ≡ self.old ++ labelled label.now n }
    {
        self.bytes(label);
        self.number(n);
        self.line_feed();
    }

    // Writes the answer to a line that is no call, given the line's number.
    #[tactic(auto, unfolding(crate::specs::Answers::no_call_of))]
    pub fn no_call(&mut self, line: u64)
        requires { length self.old + 28 ≤ N }
        ensures { self.new ≡ self.old ++ no_call_of line }
    {
        self.labelled(b"? line ", line);
    }

    // Writes the last line of the output, given the number of lines of the text.
    #[tactic(auto, unfolding(crate::specs::Answers::end_of))]
    pub fn end(&mut self, lines: u64)
        requires { length self.old + 25 ≤ N }
        ensures { self.new ≡ self.old ++ end_of lines }
    {
        self.labelled(b"end ", lines);
    }
}
