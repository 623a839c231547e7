// The signature of each node's block: back from the node to its leader, whose rank the plan turns into a word. Source and grades are two
// arguments here, since `Blocks`, which holds them both, is made of what these passes answer.
ghost use Rattle.std.specs.Prelude.{◌+◌, ◌≤◌, ◌≡◌, cond};
ghost use Rattle.graph.specs.Nodes.{node_at};
ghost use Rattle.harden.specs.Blocks.{one_plus_rank};
ghost use Rattle.harden.specs.Passes.{zeros, leads, preceded, preceders_below, head_by, filled, as_leader, as_block, block_signatures};

use super::accepted::Accepted;
use super::grading;
use super::grading::Grade;
use graph::Successors;

// The edges of node m, noted at their targets.
fn precede(preceders: &mut [u32], table: &[u32], m: u32)
    ensures { preceders.new ≡ preceded m (node_at table.now m) preceders.old }
{
    match graph::targets(table, m as usize) {
        Successors::None => {}
        Successors::One(next) => words::store(preceders, next, m),
        Successors::Two(then, other) => {
            words::store(preceders, then, m);
            words::store(preceders, other, m);
        }
    }
}

// The last node with an edge to each node.
#[tactic(auto, unfolding(crate::specs::Passes::zeros))]
fn preceders(source: &Accepted) -> [u32; 256]
    ensures { result ≡ preceders_below (node_at source.now.table.now) zeros source.now.header.nodes }
{
    let mut preceders = words::zeros::<256>();
    for m in 0..source.header.nodes as u32 {
        precede(&mut preceders, source.table, m);
    }
    preceders
}

// From a node back to a leader, at most so many steps.
#[tactic(auto, using(crate::proofs::Passes::head_step))]
fn head(grades: &[Grade], preceders: &[u32], steps: usize, n: usize) -> usize
    ensures { result ≡ head_by grades.now preceders.now steps n }
{
    let mut at = n;
    for _ in 0..steps {
        if grading::leads(grades, at) {
            return at;
        }
        at = words::word(preceders, at) as usize;
    }
    at
}

// The plan of signatures, from rank to word.
fn plan(rank: usize) -> u32
    requires { rank ≤ 256 }
    ensures { result ≡ one_plus_rank rank }
{
    1 + rank as u32
}

// The signature that each node has as a leader.
#[tactic(auto, using(crate::proofs::Passes::leaders_bound), unfolding(crate::specs::Passes::zeros))]
fn leading(source: &Accepted, grades: &[Grade]) -> [u32; 256]
    ensures { result ≡ filled (as_leader one_plus_rank grades.now) zeros source.now.header.nodes }
{
    let mut signatures = words::zeros::<256>();
    let mut rank = 0;
    for n in 0..source.header.nodes {
        signatures[n] = plan(rank);
        rank += usize::from(grading::leads(grades, n));
    }
    signatures
}

// The signature of each node's block.
#[tactic(auto, unfolding(crate::specs::Passes::zeros))]
fn signatures(source: &Accepted, grades: &[Grade], preceders: &[u32], leading: &[u32]) -> [u32; 256]
    ensures { result ≡ filled (as_block grades.now preceders.now leading.now source.now.header.nodes) zeros source.now.header.nodes }
{
    let nodes = source.header.nodes;
    let mut signatures = words::zeros::<256>();
    for n in 0..nodes {
        signatures[n] = words::word(leading, head(grades, preceders, nodes, n));
    }
    signatures
}

// The signatures of all blocks, from the grades.
#[tactic(auto, unfolding(crate::specs::Passes::block_signatures))]
pub fn of_blocks(source: &Accepted, grades: &[Grade]) -> [u32; 256]
    ensures { result ≡ block_signatures one_plus_rank (node_at source.now.table.now) grades.now source.now.header.nodes }
{
    let preceders = preceders(source);
    let leading = leading(source, grades);
    signatures(source, grades, &preceders, &leading)
}
