// The kinds: the role of each word, which words are in order in a role, and where a node's edges lead.
ghost use Rattle.std.specs.Prelude.{◌≡◌, cond, [], ◌∷◌, get_or};
ghost use Rattle.words.specs.Refusals.{number_of};
ghost use Rattle.graph.specs.Kinds.{role_at, fault, number_in, in_range};
ghost use Rattle.graph.specs.Nodes.{targets, node_at};
ghost use Rattle.graph.specs.Successors.{targets_of};

use super::Role::{Comparison, Free, Operator, Port, Register, Target};
use super::{Limits, Role, Successors};
use words::Reason;

// The role of a word of a node with these fields: the kind comes before them, spare words after.
fn field(word: usize, fields: &[Role]) -> Role
    ensures { result ≡ get_or (Role.Kind ∷ fields.now) word Role.Spare }
{
    if word == 0 {
        return Role::Kind;
    }
    fields.get(word - 1).copied().unwrap_or(Role::Spare)
}

// The role of a word: one row of fields for each kind, by its number, as document 01 has it.
#[tactic(auto, unfolding(crate::specs::Kinds::role_at, crate::specs::Kinds::layouts))]
pub fn role_at(kind: u32, word: usize) -> Role
    ensures { result ≡ role_at kind word }
{
    match kind {
        0 => field(word, &[]),
        1 => field(word, &[Register, Free, Target]),
        2 => field(word, &[Operator, Register, Register, Register, Target]),
        3 => field(word, &[Comparison, Register, Register, Target, Target]),
        4 => field(word, &[Comparison, Register, Free, Target, Target]),
        5 => field(word, &[Register, Target]),
        6 => field(word, &[Port, Register, Target]),
        7 => field(word, &[Register]),
        8 => field(word, &[]),
        9.. => field(word, &[]),
    }
}

// Whether n is low to high.
pub fn in_range(low: usize, high: usize, n: usize) -> bool
    ensures { result ≡ in_range low high n }
{
    low <= n && n <= high
}

// Passed, or what is wrong.
fn unless(test: bool, reason: Reason) -> Result<(), Reason>
    ensures { number_in result ≡ cond test 0 (number_of reason) }
{
    if test { Ok(()) } else { Err(reason) }
}

// What is wrong with a word in a role, in a graph of these registers, nodes and kinds.
pub fn fault(limits: Limits, role: Role, word: u32) -> Result<(), Reason>
    ensures { number_in result ≡ fault limits.kinds limits.registers limits.nodes role word }
{
    let w = word as usize;
    match role {
        Role::Kind => unless(in_range(1, limits.kinds as usize, w), Reason::Unknown),
        Role::Operator => unless(w < 7, Reason::Unknown),
        Role::Comparison => unless(w < 6, Reason::Unknown),
        Role::Port => unless(w < 256, Reason::Unknown),
        Role::Register => unless(w < limits.registers, Reason::NoRegister),
        Role::Target => unless(w < limits.nodes, Reason::NoNode),
        Role::Free => Ok(()),
        Role::Spare => unless(w == 0, Reason::SpareWord),
    }
}

// The node number in a word.
fn target(table: &[u32], word: usize) -> usize
    ensures { result ≡ get_or table.now word 0 }
{
    words::word(table, word) as usize
}

// Where the edges of a node lead, by the number of its kind, as document 01 has it; a node past the end has none.
#[tactic(auto, unfolding(crate::specs::Nodes::node_at, crate::specs::Nodes::node_of))]
pub fn targets(table: &[u32], node: usize) -> Successors
    ensures { targets_of result ≡ targets (node_at table.now node) }
{
    if table.len() <= node {
        return Successors::None;
    }
    let first = 6 * node;
    match words::word(table, first) {
        0 => Successors::None,
        1 => Successors::One(target(table, first + 3)),
        2 => Successors::One(target(table, first + 5)),
        3 => Successors::Two(target(table, first + 4), target(table, first + 5)),
        4 => Successors::Two(target(table, first + 4), target(table, first + 5)),
        5 => Successors::One(target(table, first + 2)),
        6 => Successors::One(target(table, first + 3)),
        7 => Successors::None,
        8 => Successors::None,
        9.. => Successors::None,
    }
}
