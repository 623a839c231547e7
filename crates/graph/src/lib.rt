// The table: limits, kinds and the roles of their words, successors, and the checks of a runnable and of a source graph.
#![tactic(auto)]

ghost use Rattle.std.specs.Prelude.{◌≡◌};
ghost use Rattle.words.specs.Refusals.{answer_of};
ghost use Rattle.graph.specs.Limits.{runnable, source};
ghost use Rattle.graph.specs.Checks.{runnable_check, source_check};

use words::Refusal;

mod kinds;
mod marks;
mod reach;
mod table;

pub use kinds::{fault, role_at, targets};

// What a word of a node stands for.
#[derive(Clone, Copy, PartialEq, Eq)]
pub enum Role {
    Kind,
    Operator,
    Comparison,
    Port,
    Register,
    Target,
    Free,
    Spare,
}

// Where the edges of a node lead, the first target first.
#[derive(Clone, Copy, PartialEq, Eq)]
pub enum Successors {
    None,
    One(usize),
    Two(usize, usize),
}

// How many registers and nodes, and the last kind: at most, of a sort of graphs; or just those of one graph.
#[derive(Clone, Copy, PartialEq, Eq)]
pub struct Limits {
    pub registers: usize,
    pub nodes: usize,
    pub kinds: u32,
}

impl Limits {
    pub const RUNNABLE_REGISTERS: usize = 64;

    pub const RUNNABLE_NODES: usize = 2050;

    pub const RUNNABLE_KINDS: u32 = 8;

    pub const SOURCE_REGISTERS: usize = 62;

    pub const SOURCE_NODES: usize = 256;

    pub const SOURCE_KINDS: u32 = 7;

    // Two functions, each with its constants, as document 01 has them.
    pub fn runnable() -> Self
        ensures { result ≡ runnable }
    {
        Limits {
            registers: Limits::RUNNABLE_REGISTERS,
            nodes: Limits::RUNNABLE_NODES,
            kinds: Limits::RUNNABLE_KINDS,
        }
    }

    pub fn source() -> Self
        ensures { result ≡ source }
    {
        Limits {
            registers: Limits::SOURCE_REGISTERS,
            nodes: Limits::SOURCE_NODES,
            kinds: Limits::SOURCE_KINDS,
        }
    }
}

// A graph's R, N and entry.
#[derive(Clone, Copy, PartialEq, Eq)]
pub struct Header {
    pub registers: usize,
    pub nodes: usize,
    pub entry: usize,
}

// Whether a table holds a runnable graph: accepted, or the first refusal. The header is not one value with the table: that is lent memory,
// mostly longer than its graph, and the two come from different places.
pub fn check_runnable(header: Header, table: &[u32]) -> Result<(), Refusal>
    ensures { answer_of result ≡ runnable_check header.registers header.nodes header.entry table.now }
{
    table::check(Limits::runnable(), header, table)
}

// Whether a table holds a source graph: accepted, or the first refusal.
pub fn check_source(header: Header, table: &[u32]) -> Result<(), Refusal>
    ensures { answer_of result ≡ source_check header.registers header.nodes header.entry table.now }
{
    table::check(Limits::source(), header, table)?;
    reach::reached(header, table).lowest_unmarked(header.nodes)
}
