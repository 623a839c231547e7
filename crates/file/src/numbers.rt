// One number of a file by its role: its checks, and how it is taken once it is checked. What was read is taken apart by `let .. else`, as
// document 01 has it. Positions go in and out by value, and not in a cursor: a refusal's place is where its number begins.
ghost use Rattle.std.specs.Prelude.{◌≡◌};
ghost use Rattle.words.specs.Refusals.{answer_of};
ghost use Rattle.file.specs.Reading.{count_at, field_at, stands, cell_at};
ghost use Rattle.file.specs.Passes.{taken_at, taken_cell};

use graph::{Limits, Role};
use words::{Reading, Reason, Refusal};

// R or N: from 1 to its limit.
pub fn count(bytes: &[u8], limit: usize, at: usize) -> Result<Reading, Refusal>
    ensures { answer_of result ≡ count_at bytes.now limit at }
{
    let number = words::number_at(bytes, at);
    let Ok(reading) = number else {
        return number;
    };
    if 0 < reading.value && reading.value as usize <= limit {
        number
    } else {
        Err(Reason::OutOfRange.at(at))
    }
}

// A number in order in its role.
pub fn field(bytes: &[u8], limits: Limits, role: Role, at: usize) -> Result<Reading, Refusal>
    ensures { answer_of result ≡ field_at bytes.now limits role at }
{
    let number = words::number_at(bytes, at);
    let Ok(reading) = number else {
        return number;
    };
    match graph::fault(limits, role, reading.value) {
        Ok(()) => number,
        Err(reason) => Err(reason.at(at)),
    }
}

// Whether a word of a node stands in the file: spare words do not.
pub fn stands(role: Role) -> bool
    ensures { result ≡ stands role }
{
    role != Role::Spare
}

// A word of a node: a field, or a spare word, which takes no bytes and is 0.
#[tactic(auto, unfolding(crate::specs::Reading::cell_at))]
pub fn cell(bytes: &[u8], limits: Limits, role: Role, at: usize) -> Result<Reading, Refusal>
    ensures { answer_of result ≡ cell_at bytes.now limits role at }
{
    if stands(role) {
        field(bytes, limits, role, at)
    } else {
        Ok(Reading { value: 0, next: at })
    }
}

// A number that was checked; what is none counts as 0 and takes no bytes.
pub fn taken(bytes: &[u8], at: usize) -> Reading
    ensures { result ≡ taken_at bytes.now at }
{
    let number = words::number_at(bytes, at);
    let Ok(reading) = number else {
        return Reading { value: 0, next: at };
    };
    reading
}

// A word of a node that was checked.
#[tactic(auto, unfolding(crate::specs::Passes::taken_cell))]
pub fn taken_cell(bytes: &[u8], role: Role, at: usize) -> Reading
    ensures { result ≡ taken_cell bytes.now role at }
{
    if stands(role) {
        taken(bytes, at)
    } else {
        Reading { value: 0, next: at }
    }
}
