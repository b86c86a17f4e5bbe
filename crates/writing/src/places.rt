// Writes text at a place of any bytes, and leaves the bytes ahead of it and behind it as they are. Each function answers
// the place after what it wrote. An `Output` counts its places itself; these functions are for bytes that are no output.
ghost use Rattle.std.specs.Prelude.{[], ◌∷◌, map, ◌+◌, ◌*◌, ◌≤◌, ◌<◌, length};
ghost use Rattle.writing.specs.Digits.{digits_of, signed_of};
ghost use Rattle.writing.specs.Words.{space, spaced};
ghost use Rattle.writing.specs.Answers.{Wrote, text_of, answer_of, labelled, no_call_of, end_of};

use crate::{LINE_FEED, MOST_DIGITS, SPACE, put_digits};

// Writes bytes at a place.
pub fn write_bytes(out: &mut [u8], at: usize, bytes: &[u8]) -> usize
    requires { at + length bytes.now ≤ length out.old }
    ensures { Wrote bytes.now out.old at out.new result }
{
    let next = at + bytes.len();
    out[at..next].copy_from_slice(bytes);
    next
}

// Writes a byte at a place.
fn write_byte(out: &mut [u8], at: usize, b: u8) -> usize
    requires { at < length out.old }
    ensures { Wrote (b ∷ []) out.old at out.new result }
{
    out[at] = b;
    at + 1
}

// Writes the digits of a number at a place.
fn write_digits(out: &mut [u8], at: usize, n: u64) -> usize
    requires { at + length (digits_of n) ≤ length out.old }
    ensures { Wrote (digits_of n) out.old at out.new result }
{
    let mut places = [0; MOST_DIGITS];
    let from = put_digits(&mut places, n);
    write_bytes(out, at, &places[from..])
}

// Writes a number at a place, in at most 20 digits. Most numbers of an answer have one digit, and these are written at
// once, since places for digits cost more than the digit.
#[tactic(auto, using(crate::proofs::Digits::digits_most, crate::proofs::Digits::digits_one))]
pub fn write_number(out: &mut [u8], at: usize, n: u64) -> usize
    requires { at + 20 ≤ length out.old }
    ensures { Wrote (digits_of n) out.old at out.new result }
{
    if 10 <= n {
        return write_digits(out, at, n);
    }
    write_byte(out, at, b'0' + n as u8)
}

// Writes a number with its sign at a place. The size of a negative number is computed as 1 more than its distance from
// -1, because the distance of the least number from 0 does not fit a signed number of 64 bits.
pub fn write_signed(out: &mut [u8], at: usize, z: i64) -> usize
    requires { at + 20 ≤ length out.old }
    ensures { Wrote (signed_of z) out.old at out.new result }
{
    if z < 0 {
        let next = write_byte(out, at, b'-');
        let less = -1 - z;
        return write_digits(out, next, less as u64 + 1);
    }
    write_digits(out, at, z as u64)
}

// Writes a space and a number at a place.
pub fn write_spaced(out: &mut [u8], at: usize, n: u64) -> usize
    requires { at + 21 ≤ length out.old }
    ensures { Wrote (space ∷ digits_of n) out.old at out.new result }
{
    let next = write_byte(out, at, SPACE);
    write_number(out, next, n)
}

// Writes numbers at a place, with a space in front of each.
pub fn write_further(out: &mut [u8], at: usize, numbers: &[u64]) -> usize
    requires { at + 21 * length numbers.now ≤ length out.old }
    ensures { Wrote (spaced (map digits_of numbers.now)) out.old at out.new result }
{
    let mut next = at;
    for n in numbers {
        next = write_spaced(out, next, *n);
    }
    next
}

// Writes numbers at a place, with one space between two.
pub fn write_numbers(out: &mut [u8], at: usize, numbers: &[u64]) -> usize
    requires { at + 21 * length numbers.now ≤ length out.old }
    ensures { Wrote (text_of numbers.now) out.old at out.new result }
{
    match numbers.split_first() {
        Some((first, others)) => {
            let next = write_number(out, at, *first);
            write_further(out, next, others)
        }
        None => at,
    }
}

// Writes an answer at a place: its numbers, and a line feed.
pub fn write_answer(out: &mut [u8], at: usize, numbers: &[u64]) -> usize
    requires { at + 21 * length numbers.now < length out.old }
    ensures { Wrote (answer_of numbers.now) out.old at out.new result }
{
    let end = write_numbers(out, at, numbers);
    write_byte(out, end, LINE_FEED)
}

// Writes a label, a number and a line feed at a place.
pub fn write_labelled(out: &mut [u8], at: usize, label: &[u8], n: u64) -> usize
    requires { at + length label.now + 21 ≤ length out.old }
    ensures { Wrote (labelled label.now n) out.old at out.new result }
{
    let next = write_bytes(out, at, label);
    let end = write_number(out, next, n);
    write_byte(out, end, LINE_FEED)
}

// Writes the answer to a line that is no call, given the line's number.
#[tactic(auto, unfolding(crate::specs::Answers::no_call_of))]
pub fn write_no_call(out: &mut [u8], at: usize, line: u64) -> usize
    requires { at + 28 ≤ length out.old }
    ensures { Wrote (no_call_of line) out.old at out.new result }
{
    write_labelled(out, at, b"? line ", line)
}

// Writes the last line of the output, given the number of lines of the text.
#[tactic(auto, unfolding(crate::specs::Answers::end_of))]
pub fn write_end(out: &mut [u8], at: usize, lines: u64) -> usize
    requires { at + 25 ≤ length out.old }
    ensures { Wrote (end_of lines) out.old at out.new result }
{
    write_labelled(out, at, b"end ", lines)
}
