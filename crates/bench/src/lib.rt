// One step, a run, a campaign.
#![tactic(auto)]

mod campaigns;
mod machine;
mod operators;
mod runner;
mod runs;
mod scores;
mod steps;

pub use campaigns::campaign;
pub use machine::run;
use runner::Runner;

// The largest budget.
const MOST_STEPS: usize = 100000;

// The machine's state: its registers, the node to execute next, and what has been counted so far.
#[derive(Clone, Copy, PartialEq, Eq)]
pub struct State {
    pub registers: [u32; 64],
    pub node: usize,
    pub steps: usize,
    pub branches: usize,
    pub reads: usize,
}

// How a run ends.
#[derive(Clone, Copy, PartialEq, Eq)]
pub enum Outcome {
    Returned(u32),
    Caught,
    Spent,
    Full,
}

// The one branch that goes to its other target, by its place, from 0, among the branches executed. An enum of its own, as document 01 has
// it.
#[derive(Clone, Copy, PartialEq, Eq)]
pub enum Fault {
    Undisturbed,
    Inverted(usize),
}

// A run's answer: how it ended, beside it the last state and the number of events.
#[derive(Clone, Copy, PartialEq, Eq)]
pub struct RunAnswer {
    pub outcome: Outcome,
    pub state: State,
    pub events: usize,
}

// The line of the release record: the positions tried, and how many fell into each class.
#[derive(Clone, Copy, Default, PartialEq, Eq)]
pub struct Score {
    pub positions: usize,
    pub caught: usize,
    pub late: usize,
    pub harmless: usize,
    pub changed: usize,
    pub unended: usize,
}
