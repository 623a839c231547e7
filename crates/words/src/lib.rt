// What hardly ever changes: refusals, numbers in groups of seven bits, upward writes into a buffer, total reads.
#![tactic(auto)]

mod groups; // groups.rt: the bytes of one number
mod refusals; // refusals.rt: why an entry point refuses, and where

ghost use Rattle.std.specs.Prelude.{◌≡◌, length, get_or, set, replicate};
ghost use Rattle.words.specs.Buffer.{put};
ghost use Rattle.words.specs.Number.{number_at, number_of};
ghost use Rattle.words.specs.Refusals.{answer_of};

pub use refusals::{Reason, Refusal};

// A number read from bytes, and the position after it.
#[derive(Clone, Copy, PartialEq, Eq)]
pub struct Reading {
    pub value: u32,
    pub next: usize,
}

// The word at an index, 0 past the end.
pub fn word(words: &[u32], i: usize) -> u32
    ensures { result ≡ get_or words.now i 0 }
{
    words.get(i).copied().unwrap_or(0)
}

// Stores a value at an index; past the end it is lost.
pub fn store<T: Copy>(buffer: &mut [T], i: usize, value: T)
    ensures { buffer.new ≡ set buffer.old i value }
{
    if i < buffer.len() {
        buffer[i] = value;
    }
}

// So many words, all 0.
pub fn zeros<const N: usize>() -> [u32; N]
    ensures { result ≡ replicate N 0 }
{
    [0; N]
}

// The number that begins at a position: at most five bytes.
pub fn number_at(bytes: &[u8], at: usize) -> Result<Reading, Refusal>
    ensures { answer_of result ≡ number_at bytes.now at }
{
    groups::group(bytes, at, 4, at)
}

// Writes a number at a place and upward, and answers how many bytes it takes; what would lie past the end is lost. Not over a cursor: its
// callers add up the sizes, those of lost bytes too.
pub fn put_number(out: &mut [u8], at: usize, value: u32) -> usize
    ensures value { result ≡ length (number_of value) }
    ensures out_after { out.new ≡ put out.old at (number_of value) }
{
    let mut rest = value;
    let mut size: usize = 0;
    // By `while`: what is left of the value ends the loop, and no range does.
    while 128 <= rest {
        groups::store(out, at, size, 128 + (rest % 128) as u8);
        rest = rest / 128;
        size += 1;
    }
    groups::store(out, at, size, rest as u8);
    size + 1
}
