// Marks, one a node of a source: how they are kept is known here alone.
ghost use Rattle.std.specs.Prelude.{◌≡◌, ◌≤◌, true, false, set, replicate};
ghost use Rattle.words.specs.Refusals.{answer_of};
ghost use Rattle.graph.specs.Paths.{marked};
ghost use Rattle.graph.specs.Paths.{Marks as MarkList};
ghost use Rattle.graph.specs.Marks.{Grown};
ghost use Rattle.graph.specs.Checks.{unmarked_from};

use std::marker::Model;
use words::{Reason, Refusal};

#[derive(Drop)]
pub struct Marks {
    marks: [bool; 256],
}

impl Model for Marks {
    ghost Value = { MarkList };

    ghost view = { λ m. m.marks };
}

impl Marks {
    // No mark at all.
    pub(crate) fn none() -> Self
        ensures { result ≡ replicate 256 false }
    {
        Marks {
            marks: [false; 256],
        }
    }

    // Whether a node has a mark.
    pub(crate) fn has(&self, n: usize) -> bool
        ensures { result ≡ marked self.now n }
    {
        n < self.marks.len() && self.marks[n]
    }

    // Marks a node; how many marks are new.
    pub(crate) fn mark(&mut self, n: usize) -> usize
        ensures grown { Grown self.old (set self.old n true) self.new result }
        ensures few { result ≤ 1 }
    {
        let marks = &self.marks;
        if marks.len() <= n {
            return 0;
        }
        if marks[n] {
            return 0;
        }
        self.marks[n] = true;
        1
    }

    // The lowest node without a mark is refused.
    pub(crate) fn lowest_unmarked(&self, nodes: usize) -> Result<(), Refusal>
        ensures { answer_of result ≡ unmarked_from self.now nodes 0 }
    {
        for n in 0..nodes {
            if !self.has(n) {
                return Err(Reason::Unreachable.at(n));
            }
        }
        Ok(())
    }
}
