// The bytes of one number: groups of seven bits, the least significant first.
ghost use Rattle.std.specs.Prelude.{◌≡◌, ◌||◌, ◌&&◌, ◌+◌, ◌≤◌, set, eqb, ltb};
ghost use Rattle.words.specs.Answer.{demand};
ghost use Rattle.words.specs.Number.{reading, groups};
ghost use Rattle.words.specs.Refusals.{answer_of};

use super::{Reading, Reason, Refusal};

// A fifth byte: 1 to 15. One function with the next would take the test that is all they differ in.
pub fn fifth(byte: u8, place: usize, next: usize) -> Result<Reading, Refusal>
    ensures { answer_of result ≡ demand (ltb 0 byte && ltb byte 16) 2 place (reading byte next) }
{
    if 0 < byte && byte < 16 {
        Ok(Reading {
            value: u32::from(byte),
            next,
        })
    } else {
        Err(Reason::NotShortest.at(place))
    }
}

// A last byte before the fifth: 0 only where it is the first.
pub fn last(byte: u8, place: usize, at: usize, next: usize) -> Result<Reading, Refusal>
    ensures { answer_of result ≡ demand (ltb 0 byte || eqb at place) 2 place (reading byte next) }
{
    if 0 < byte || at == place {
        Ok(Reading {
            value: u32::from(byte),
            next,
        })
    } else {
        Err(Reason::NotShortest.at(place))
    }
}

// The group at a position and those after it, of the number that begins at `place`, when `more` bytes may follow. What is read is taken
// apart by `let .. else`, as document 01 has it.
pub fn group(bytes: &[u8], place: usize, more: usize, at: usize) -> Result<Reading, Refusal>
    requires { more ≤ 4 }
    ensures { answer_of result ≡ groups bytes.now place more at }
{
    if bytes.len() <= at {
        return Err(Reason::Cut.at(place));
    }
    let byte = bytes[at];
    let next = at + 1;
    if more == 0 {
        return fifth(byte, place, next);
    }
    if byte < 128 {
        return last(byte, place, at, next);
    }
    let rest = group(bytes, place, more - 1, next);
    let Ok(reading) = rest else {
        return rest;
    };
    Ok(Reading {
        value: u32::from(byte % 128) + 128 * reading.value,
        next: reading.next,
    })
}

// Stores a byte so many places behind another; past the end it is lost.
pub fn store(out: &mut [u8], at: usize, behind: usize, byte: u8)
    ensures { out.new ≡ set out.old (at + behind) byte }
{
    if out.len() <= at {
        return;
    }
    if behind < out.len() - at {
        out[at + behind] = byte;
    }
}
