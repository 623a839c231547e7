// The whole hardened table: the source nodes' rows, node N and the catch, the groups.
ghost use Rattle.std.specs.Prelude.{◌+◌, ◌<◌, ◌≡◌, [], ◌∷◌, length};
ghost use Rattle.words.specs.Refusals.{answer_of};
ghost use Rattle.graph.specs.Nodes.{stop};
ghost use Rattle.harden.specs.Hardened.{crossing, sign, own_at, group_at, first_row, source_rows, group_rows, hardened_rows, hardened_count};
ghost use Rattle.harden.specs.Passes.{put_rows, first_to, source_in, room_answer, room_output};

use super::blocks::Blocks;
use super::writing;
use graph::{Header, Successors};
use words::{Reason, Refusal};

impl Blocks<'_> {
    // Where the first edge of a source node goes.
    #[tactic(auto, unfolding(crate::specs::Hardened::crossing))]
    fn first_to(&self, n: usize) -> u32
        requires { n < self.now.source.header.nodes }
        ensures { let s = source_in self.now.source in result ≡ first_to (group_at s n) (crossing s n) (s.graph n) }
    {
        match self.source.targets(n) {
            Successors::None => 0,
            Successors::One(next) => if self.leads(next) {
                self.start(n)
            } else {
                next as u32
            },
            Successors::Two(_, _) => self.start(n),
        }
    }

    // A source node's own row.
    fn own_row(&self, out: &mut [u32], n: usize)
        requires { n < self.now.source.header.nodes }
        ensures { let s = source_in self.now.source in out.new ≡ put_rows out.old n (own_at s (group_at s n) n ∷ []) }
    {
        let words = self
            .source
            .redirected(n, self.first_to(n), self.start(n) + 1);
        writing::put_row(out, n as u32, words);
    }

    // The rows of all source nodes.
    #[tactic(auto, using(crate::proofs::Writes::no_rows), unfolding(crate::specs::Hardened::source_rows))]
    fn source_rows(&self, out: &mut [u32])
        ensures { let s = source_in self.now.source in out.new ≡ put_rows out.old 0 (source_rows s s.nodes) }
    {
        for n in 0..self.source.header.nodes {
            self.own_row(out, n);
        }
    }

    // Node N, which sets GSR, and the catch.
    fn begin(&self, out: &mut [u32])
        ensures { let s = source_in self.now.source in out.new ≡ put_rows out.old s.nodes (first_row s ∷ stop ∷ []) }
    {
        let gsr = self.source.header.registers as u32;
        let n = self.source.header.nodes as u32;
        let entry = self.source.header.entry;
        writing::put_row(out, n, [1, gsr, self.sign(entry), entry as u32, 0, 0]);
        writing::put_row(out, n + 1, [8, 0, 0, 0, 0, 0]);
    }

    // The groups of all source nodes in ascending order.
    #[tactic(auto, using(crate::proofs::Writes::no_rows), unfolding(crate::specs::Hardened::group_rows))]
    fn all_groups(&self, out: &mut [u32])
        ensures { let s = source_in self.now.source in out.new ≡ put_rows out.old (s.nodes + 2) (group_rows s s.nodes) }
    {
        for n in 0..self.source.header.nodes {
            self.group(out, n);
        }
    }

    // All rows from the first on.
    fn write(&self, out: &mut [u32])
        ensures { out.new ≡ put_rows out.old 0 (hardened_rows (source_in self.now.source)) }
    {
        self.source_rows(out);
        self.begin(out);
        self.all_groups(out);
    }

    // The hardened graph where there is room.
    #[tactic(auto, using(crate::proofs::Writes::table_over), unfolding(crate::specs::Hardened::hardened_count))]
    pub(crate) fn harden(&self, out: &mut [u32]) -> Result<Header, Refusal>
        ensures answer { answer_of result ≡ room_answer (source_in self.now.source) (length out.old) }
        ensures out_after { out.new ≡ room_output (source_in self.now.source) out.old }
    {
        let nodes = self.source.header.nodes;
        let h = self.start(nodes) as usize;
        if out.len() < 6 * h {
            return Err(Reason::NoRoom.at(6 * h));
        }
        self.write(out);
        Ok(Header {
            registers: self.source.header.registers + 2,
            nodes: h,
            entry: nodes,
        })
    }
}
