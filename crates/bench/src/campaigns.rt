// A campaign: the checks, a trial run that decides on refusal 13, then the reference and the score of its branches.
ghost use Rattle.std.specs.Prelude.{◌≡◌, length};
ghost use Rattle.words.specs.Buffer.{put};
ghost use Rattle.words.specs.Refusals.{answer_of};
ghost use Rattle.bench.specs.Ready.{run_in};
ghost use Rattle.bench.specs.Classes.{Reported, Tried};
ghost use Rattle.bench.specs.Campaigns.{campaign_answer, campaign_first, campaign_second};
ghost use Rattle.bench.specs.declared.Fault.TheVariants.{Inverted};

use crate::runs::End;
use crate::scores::Reference;
use crate::{MOST_STEPS, Outcome, Runner, Score};
use graph::Header;
use words::{Reason, Refusal};

// Each buffer has as many words as the runner has room, and is lent apart from it: a campaign writes in two.
impl Runner<'_> {
    // The reference events are put over the first words of the first buffer: those that the trial run kept, or else the run made again.
    fn refer(&self, first: &mut [u32], trial: &[u32], words: usize)
        requires room { length first.old ≡ self.now.room }
        requires tried { Tried self.now trial.now words }
        ensures { first.new ≡ put first.old 0 (run_in self.now (Inverted self.now.budget)).machine.events }
    {
        if words <= trial.len() {
            first[..words].copy_from_slice(&trial[..words]);
        } else {
            self.one(first, self.budget);
        }
    }

    // The score of a checked graph. Refusal 13 leaves both buffers as they stood, so a trial run decides on it before they are written in.
    fn scored(&self, first: &mut [u32], second: &mut [u32]) -> Result<Score, Refusal>
        requires first_room { length first.old ≡ self.now.room }
        requires second_room { length second.old ≡ self.now.room }
        ensures { Reported self.now first.old second.old result first.new second.new }
    {
        let mut trial = words::zeros::<8192>();
        let End { outcome, last } = self.one(&mut trial, self.budget);
        let Outcome::Returned(value) = outcome else {
            return Err(Reason::NotReturned.at(0));
        };
        self.refer(first, &trial, last.words);
        let reference = Reference {
            value,
            events: &first[..last.words],
        };
        let score = self.score(&reference, second, last.state.branches);
        second.fill(0);
        Ok(score)
    }
}

// A campaign: the number of positions and the five counts. The first buffer holds the reference events, the second is all zero.
pub fn campaign(
    header: Header,
    table: &[u32],
    inputs: &[u32],
    first: &mut [u32],
    second: &mut [u32],
    budget: usize,
) -> Result<Score, Refusal>
    ensures result_value { answer_of result
        ≡ campaign_answer header.registers header.nodes header.entry table.now inputs.now (length first.old) (length second.old) budget }
    ensures first_after { first.new ≡ campaign_first header.registers header.nodes header.entry table.now inputs.now first.old second.old budget }
    ensures second_after { second.new ≡ campaign_second header.registers header.nodes header.entry table.now inputs.now first.old second.old budget }
{
    graph::check_runnable(header, table)?;
    if MOST_STEPS < budget {
        return Err(Reason::OverBudget.at(0));
    }
    if first.len() != second.len() {
        return Err(Reason::BuffersDiffer.at(0));
    }
    let runner = Runner {
        header,
        table,
        inputs,
        room: first.len(),
        budget,
    };
    runner.scored(first, second)
}
