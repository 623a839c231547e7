// The rows of the hardened graph, six words each.
ghost use Rattle.std.specs.Prelude.{◌+◌, ◌*◌, ◌<◌, ◌≡◌};
ghost use Rattle.words.specs.Buffer.{put};
ghost use Rattle.graph.specs.Nodes.{words_of, node_at};
ghost use Rattle.harden.specs.Hardened.{prepare, update, check};
ghost use Rattle.harden.specs.Passes.{aimed};

use super::accepted::Accepted;

// Writes row n.
#[tactic(auto, unfolding(words::specs::Buffer::put))]
pub fn put_row(out: &mut [u32], n: u32, row: [u32; 6])
    ensures { out.new ≡ put out.old (6 * n) row }
{
    let first = 6 * n as usize;
    for (j, word) in row.iter().enumerate() {
        words::store(out, first + j, *word);
    }
}

impl Accepted<'_> {
    // RTS becomes the difference of two signatures.
    pub(crate) fn prepare(&self, from: u32, to: u32, next: u32) -> [u32; 6]
        ensures { result ≡ words_of (prepare self.now.header.registers from to next) }
    {
        let rts = self.header.registers as u32 + 1;
        [1, rts, from ^ to, next, 0, 0]
    }

    // GSR becomes GSR xor RTS.
    pub(crate) fn update(&self, next: u32) -> [u32; 6]
        ensures { result ≡ words_of (update self.now.header.registers next) }
    {
        let gsr = self.header.registers as u32;
        [2, 4, gsr, gsr, gsr + 1, next]
    }

    // If GSR is not equal to the signature the catch, else the target.
    pub(crate) fn check(&self, sign: u32, target: u32) -> [u32; 6]
        ensures { result ≡ words_of (check self.now.header.registers sign (self.now.header.nodes + 1) target) }
    {
        let gsr = self.header.registers as u32;
        let catch = self.header.nodes as u32 + 1;
        [4, 1, gsr, sign, catch, target]
    }

    // A source node's row, with other targets, by the number of its kind, as document 01 has it.
    #[tactic(auto, unfolding(graph::specs::Nodes::node_at, graph::specs::Nodes::node_of))]
    pub(crate) fn redirected(&self, n: usize, first: u32, second: u32) -> [u32; 6]
        requires { n < self.now.header.nodes }
        ensures { result ≡ words_of (aimed first second (node_at self.now.table.now n)) }
    {
        let v = words::word(self.table, 6 * n + 1);
        let w = words::word(self.table, 6 * n + 2);
        let x = words::word(self.table, 6 * n + 3);
        let y = words::word(self.table, 6 * n + 4);
        match words::word(self.table, 6 * n) {
            0 => [8, 0, 0, 0, 0, 0],
            1 => [1, v, w, first, 0, 0],
            2 => [2, v, w, x, y, first],
            3 => [3, v, w, x, first, second],
            4 => [4, v, w, x, first, second],
            5 => [5, v, first, 0, 0, 0],
            6 => [6, v, w, first, 0, 0],
            7 => [7, v, 0, 0, 0, 0],
            8.. => [8, 0, 0, 0, 0, 0],
        }
    }
}
