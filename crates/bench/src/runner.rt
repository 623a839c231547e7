// What makes runs of a checked graph.
ghost use Rattle.std.specs.Prelude.{◌≡◌};
ghost use Rattle.words.specs.Answer.{given};
ghost use Rattle.graph.specs.Checks.{runnable_check};

use graph::Header;

// A checked graph in its table, the input words, how many words of events there is room for, and the budget.
#[derive(Clone, Copy)]
pub struct Runner<'a> {
    pub header: Header,
    pub table: &'a [u32],
    pub inputs: &'a [u32],
    pub room: usize,
    pub budget: usize,
    ghost checked: { runnable_check header.registers header.nodes header.entry table.now ≡ given tt },
}
