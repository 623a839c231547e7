// Runs: a point that the effect of each step takes on, and a copy of it set aside at each branch that is tried.
ghost use Rattle.std.specs.Prelude.{◌≡◌, ◌≤◌, length};
ghost use Rattle.bench.specs.Ready.{Ends, first_point, Standing, Walked};
ghost use Rattle.bench.specs.Classes.{Referred, score_to};

use crate::scores::Reference;
use crate::{Outcome, Runner, Score, State};

// How far a run has come: its state, and how many words of events it has made. The words' buffer is the caller's, and no part of it: the
// count goes past the end of a smaller one, and a fork sets it back.
#[derive(Clone, Copy)]
pub struct Point {
    pub state: State,
    pub words: usize,
}

// How a run ended: its outcome, and where.
#[derive(Clone, Copy)]
pub struct End {
    pub outcome: Outcome,
    pub last: Point,
}

impl Runner<'_> {
    // Where a run starts.
    #[tactic(auto, unfolding(crate::specs::Steps::start))]
    fn start(&self) -> Point
        ensures { result ≡ first_point self.now }
    {
        Point {
            state: State {
                registers: words::zeros(),
                node: self.header.entry,
                steps: 0,
                branches: 0,
                reads: 0,
            },
            words: 0,
        }
    }

    // A run with the branch at a place inverted is taken on to its end, and the run before that branch is set aside. The steps are the
    // machine's own count, and no index. Put into its two callers: on points that are lent to it, it takes a quarter longer.
    #[inline(always)]
    fn walk(&self, events: &mut [u32], place: usize, at: &mut Point, aside: &mut Point) -> Outcome
        requires standing { Standing self.now place events.old at.old events.old }
        requires before { at.old.state.branches ≤ place }
        ensures { Walked self.now place events.old result at.new events.new aside.new }
    {
        while at.state.steps < self.budget {
            let inverted = place == at.state.branches;
            let effect = self.step(&at.state, inverted);
            let Some(words) = effect.write(events, at.words, self.room) else {
                return Outcome::Full;
            };
            if inverted && effect.branches == 1 {
                *aside = *at;
            }
            at.words = words;
            at.state.apply(effect);
            if let Some(outcome) = effect.outcome() {
                return outcome;
            }
        }
        Outcome::Spent
    }

    // One run from the entry, the branch at a place inverted.
    #[tactic(auto, unfolding(crate::specs::Steps::start))]
    pub(crate) fn one(&self, events: &mut [u32], place: usize) -> End
        ensures { Ends self.now place events.old result events.new }
    {
        let mut at = self.start();
        let mut aside = at;
        let outcome = self.walk(events, place, &mut at, &mut aside);
        End { outcome, last: at }
    }

    // The score of the reference's branches: for each the run with that branch inverted, taken up where it was set aside. A function by
    // itself in each program: put into a larger one, its counts lie in memory, and a campaign of long runs takes half as long again.
    #[inline(never)]
    pub(crate) fn score(&self, reference: &Reference, events: &mut [u32], positions: usize) -> Score
        requires room { length events.old ≡ self.now.room }
        requires referred { Referred self.now reference.now positions }
        ensures { result ≡ score_to self.now reference.now positions }
    {
        let mut at = self.start();
        let mut aside = at;
        let mut score = Score::default();
        for place in 0..positions {
            let outcome = self.walk(events, place, &mut at, &mut aside);
            score.count(reference.class(outcome, &events[..at.words], aside.words));
            at = aside;
        }
        score
    }
}
