// The numbers of an answer, in the order that the specs set out.
ghost use Rattle.std.specs.Prelude.{◌≡◌, get_or};
ghost use Rattle.words.specs.Refusals.{answer_of};
ghost use Rattle.yardstick.specs.Parts.{answer_numbers, size_values, graph_values, score_values, front_values, run_numbers, fault_of};

use bench::{Fault, Outcome, RunAnswer, Score};
use graph::Header;
use words::Refusal;

// A number of an answer: the refusal's number and place, then those of the value.
pub fn part_of<const N: usize>(answer: Result<[usize; N], Refusal>, part: usize) -> usize
    ensures { result ≡ get_or (answer_numbers N (λ values. values) (answer_of answer.entry)) part 0 }
{
    match answer {
        Ok(_) if part < 2 => 0,
        Ok(values) => number_at(&values, part - 2),
        Err(refusal) => number_at(&[refusal.reason.number() as usize, refusal.place], part),
    }
}

// The number at an index, 0 past the end.
fn number_at(numbers: &[usize], part: usize) -> usize
    ensures { result ≡ get_or numbers.now part 0 }
{
    numbers.get(part).copied().unwrap_or(0)
}

pub fn size_values(size: usize) -> [usize; 1]
    ensures { result ≡ size_values size }
{
    [size]
}

pub fn graph_values(header: Header) -> [usize; 3]
    ensures { result ≡ graph_values header }
{
    [header.registers, header.nodes, header.entry]
}

pub fn score_values(score: Score) -> [usize; 6]
    ensures { result ≡ score_values score }
{
    [
        score.positions,
        score.caught,
        score.late,
        score.harmless,
        score.changed,
        score.unended,
    ]
}

// A number of a run's answer. The registers stand last, and are looked up one by one.
pub fn run_part(answer: Result<RunAnswer, Refusal>, part: usize) -> usize
    ensures { result ≡ get_or (run_numbers (answer_of answer)) part 0 }
{
    match answer {
        Ok(run) if part < 9 => part_of(Ok(front_values(run)), part),
        Ok(run) => words::word(&run.state.registers, part - 9) as usize,
        Err(refusal) => part_of::<71>(Err(refusal), part),
    }
}

// How a run ended, by number, and what it counted: C takes numbers alone.
fn front_values(run: RunAnswer) -> [usize; 7]
    ensures { result ≡ front_values run }
{
    let (outcome, value) = match run.outcome {
        Outcome::Returned(value) => (1, value as usize),
        Outcome::Caught => (2, 0),
        Outcome::Spent => (3, 0),
        Outcome::Full => (4, 0),
    };
    [
        outcome,
        value,
        run.state.node,
        run.state.steps,
        run.state.branches,
        run.state.reads,
        run.events,
    ]
}

// The fault that a flag and a place stand for.
pub fn fault(inverted: bool, place: usize) -> Fault
    ensures { result ≡ fault_of inverted place }
{
    if inverted {
        Fault::Inverted(place)
    } else {
        Fault::Undisturbed
    }
}
