// A source graph that the checks accepted, and what the passes rely on.
ghost use Rattle.std.specs.Prelude.{◌<◌, ◌≤◌, ◌≡◌};
ghost use Rattle.words.specs.Answer.{given};
ghost use Rattle.graph.specs.Checks.{source_check};

use graph::{Header, Successors};

// The header and the table of an accepted source.
#[derive(Clone, Copy)]
pub struct Accepted<'a> {
    pub header: Header,
    pub table: &'a [u32],
    ghost accepted: { source_check header.registers header.nodes header.entry table.now ≡ given tt },
    ghost few_nodes: { header.nodes ≤ 256 },
    ghost few_registers: { header.registers ≤ 62 },
    ghost entry_in: { header.entry < header.nodes },
}

impl Accepted<'_> {
    ghost use Rattle.std.specs.Prelude.{◌<◌, ◌≡◌};
    ghost use Rattle.graph.specs.Nodes.{targets, node_at};
    ghost use Rattle.graph.specs.Successors.{targets_of};
    ghost use Rattle.harden.specs.Passes.{Inside};

    // Where the edges of a node lead.
    pub(crate) fn targets(&self, n: usize) -> Successors
        requires { n < self.now.header.nodes }
        ensures edges { targets_of result ≡ targets (node_at self.now.table.now n) }
        ensures inside { Inside self.now.header.nodes result }
    {
        graph::targets(self.table, n)
    }
}
