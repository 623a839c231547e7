// What a path of edges from the entry reaches: sweeps over the marks, in place, until one finds nothing new.
ghost use Rattle.std.specs.Prelude.{ℕ, ◌≤◌, ◌<◌, ◌≡◌};
ghost use Rattle.graph.specs.Nodes.{node_at};
ghost use Rattle.graph.specs.Paths.{marked, reached};
ghost use Rattle.graph.specs.Marks.{Grown, looked_at, swept};

use super::marks::Marks;
use super::{Header, Successors, kinds};

// Looks at a node: where it is marked, marks where its edges lead. How many marks are new.
#[tactic(auto, using(crate::proofs::Growing::look_bare))]
fn look_at(marks: &mut Marks, table: &[u32], n: usize) -> usize
    ensures grown { Grown marks.old (looked_at (node_at table.now) n marks.old) marks.new result }
    ensures few { result ≤ 2 }
{
    if !marks.has(n) {
        return 0;
    }
    match kinds::targets(table, n) {
        Successors::None => 0,
        Successors::One(next) => marks.mark(next),
        Successors::Two(then, other) => marks.mark(then) + marks.mark(other),
    }
}

// One sweep over the nodes upward; how many marks are new.
fn sweep(marks: &mut Marks, nodes: usize, table: &[u32]) -> usize
    requires { nodes ≤ 256 }
    ensures { Grown marks.old (swept (node_at table.now) marks.old nodes) marks.new result }
{
    let mut fresh = 0;
    for n in 0..nodes {
        fresh += look_at(marks, table, n);
    }
    fresh
}

// The marks of what is reached from the entry.
pub fn reached(header: Header, table: &[u32]) -> Marks
    requires { header.nodes ≤ 256 }
    ensures { (n : ℕ) → n < header.nodes → marked result n ≡ marked (reached (node_at table.now) header.nodes header.entry) n }
{
    let mut marks = Marks::none();
    marks.mark(header.entry);
    while 0 < sweep(&mut marks, header.nodes, table) {}
    marks
}
