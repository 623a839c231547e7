// A run of a table: the checks, then the run from the entry.
ghost use Rattle.std.specs.Prelude.{◌≡◌, length};
ghost use Rattle.words.specs.Refusals.{answer_of};
ghost use Rattle.bench.specs.Classes.{place_of};
ghost use Rattle.bench.specs.Runs.{answered, run_answer, run_events};

use crate::runs::End;
use crate::{Fault, MOST_STEPS, RunAnswer, Runner};
use graph::Header;
use words::{Reason, Refusal};

// The place of the branch that a fault inverts. A run executes fewer branches than its budget has steps, or stops at the last.
fn place_of(fault: Fault, budget: usize) -> usize
    ensures { result ≡ place_of fault budget }
{
    match fault {
        Fault::Undisturbed => budget,
        Fault::Inverted(place) => place,
    }
}

// A run from the entry: how it ended, its last state and its number of events, which lie in the buffer's first words.
pub fn run(
    header: Header,
    table: &[u32],
    inputs: &[u32],
    events: &mut [u32],
    budget: usize,
    fault: Fault,
) -> Result<RunAnswer, Refusal>
    ensures value { answer_of result
        ≡ answered (run_answer header.registers header.nodes header.entry table.now inputs.now (length events.old) budget fault) }
    ensures events_after { events.new ≡ run_events header.registers header.nodes header.entry table.now inputs.now events.old budget fault }
{
    graph::check_runnable(header, table)?;
    if MOST_STEPS < budget {
        return Err(Reason::OverBudget.at(0));
    }
    let runner = Runner {
        header,
        table,
        inputs,
        room: events.len(),
        budget,
    };
    let End { outcome, last } = runner.one(events, place_of(fault, budget));
    Ok(RunAnswer {
        outcome,
        state: last.state,
        events: last.words / 2,
    })
}
