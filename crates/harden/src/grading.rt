// Which nodes are leaders: one pass over the edges, in which each node gets a grade.
ghost use Rattle.std.specs.Prelude.{◌≡◌, get_or, set};
ghost use Rattle.graph.specs.Nodes.{node_at};
ghost use Rattle.harden.specs.Passes.{ungraded, leads, raised, graded, grades_below};

use super::accepted::Accepted;
use graph::Successors;

// What the edges seen so far say of a node.
#[derive(Clone, Copy, PartialEq, Eq)]
pub enum Grade {
    NoEdge,
    OneEdge,
    Leader,
}

impl Grade {
    // The grade after one edge more.
    fn raised(self) -> Grade
        ensures { result ≡ raised self }
    {
        match self {
            Grade::NoEdge => Grade::OneEdge,
            Grade::OneEdge | Grade::Leader => Grade::Leader,
        }
    }
}

// The grade of a node.
fn grade_at(grades: &[Grade], n: usize) -> Grade
    ensures { result ≡ get_or grades.now n Grade.NoEdge }
{
    grades.get(n).copied().unwrap_or(Grade::NoEdge)
}

pub fn leads(grades: &[Grade], n: usize) -> bool
    ensures { result ≡ leads grades.now n }
{
    grade_at(grades, n) == Grade::Leader
}

// The edges of node m: a target of a branch is a leader, and so is what a second edge enters.
fn enter(grades: &mut [Grade], table: &[u32], m: usize)
    ensures { grades.new ≡ graded (node_at table.now m) grades.old }
{
    match graph::targets(table, m) {
        Successors::None => {}
        Successors::One(next) => {
            let raised = grade_at(grades, next).raised();
            words::store(grades, next, raised);
        }
        Successors::Two(then, other) => {
            words::store(grades, then, Grade::Leader);
            words::store(grades, other, Grade::Leader);
        }
    }
}

// The grades of a source's nodes; the entry is a leader from the start.
#[tactic(auto, unfolding(crate::specs::Passes::ungraded))]
pub fn grades(source: &Accepted) -> [Grade; 256]
    ensures { result ≡ grades_below (node_at source.now.table.now) (set ungraded source.now.header.entry Grade.Leader) source.now.header.nodes }
{
    let mut grades = [Grade::NoEdge; 256];
    words::store(&mut grades, source.header.entry, Grade::Leader);
    for m in 0..source.header.nodes {
        enter(&mut grades, source.table, m);
    }
    grades
}
