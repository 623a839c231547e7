// The score: the class of a disturbed run, and the counts.
ghost use Rattle.std.specs.Prelude.{◌≡◌, ◌≤◌, length, take};
ghost use Rattle.bench.specs.Campaigns.{class_of, tallied};
ghost use Rattle.bench.specs.Classes.{Few, class_for};

use crate::{Outcome, Score};

// What a disturbed run is counted as.
#[derive(Clone, Copy, PartialEq, Eq)]
pub enum Class {
    Caught,
    Late,
    Harmless,
    Changed,
    Unended,
}

// The undisturbed run: the value that it returned, and its events.
#[derive(Clone, Copy)]
pub struct Reference<'a> {
    pub value: u32,
    pub events: &'a [u32],
}

impl Reference<'_> {
    // The class of a run by how it ended and by its events, the first of which are known to be the reference's.
    #[tactic(auto, using(crate::proofs::Prefixes::starts_rest, crate::proofs::Prefixes::equal_rest))]
    pub(crate) fn class(&self, outcome: Outcome, events: &[u32], shared: usize) -> Class
        requires fits { (shared ≤ length self.now.events.now) × (shared ≤ length events.now) }
        requires shares { take shared events.now ≡ take shared self.now.events.now }
        ensures { class_for result ≡ class_of self.now.value self.now.events.now outcome events.now }
    {
        let events = &events[shared..];
        let reference = &self.events[shared..];
        match outcome {
            Outcome::Returned(value) => {
                if value == self.value && events == reference {
                    Class::Harmless
                } else {
                    Class::Changed
                }
            }
            Outcome::Caught => {
                if reference.starts_with(events) {
                    Class::Caught
                } else {
                    Class::Late
                }
            }
            Outcome::Spent => Class::Unended,
            Outcome::Full => Class::Changed,
        }
    }
}

impl Score {
    // One position more, of a class.
    pub(crate) fn count(&mut self, class: Class)
        requires { Few self.old }
        ensures { self.new ≡ tallied (class_for class) self.old }
    {
        self.positions += 1;
        match class {
            Class::Caught => self.caught += 1,
            Class::Late => self.late += 1,
            Class::Harmless => self.harmless += 1,
            Class::Changed => self.changed += 1,
            Class::Unended => self.unended += 1,
        }
    }
}
