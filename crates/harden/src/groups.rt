// The groups of extra nodes, one a source node.
ghost use Rattle.std.specs.Prelude.{◌+◌, ◌<◌, ◌≡◌};
ghost use Rattle.harden.specs.Hardened.{group_at, group_from};
ghost use Rattle.harden.specs.Passes.{put_rows, source_in, arrival, crossing_to, branching};

use super::blocks::Blocks;
use super::writing;
use graph::Successors;

impl Blocks<'_> {
    // The update at e and the check after it, of an edge to the target.
    fn arrive(&self, out: &mut [u32], e: u32, target: usize)
        requires inside { target < self.now.source.header.nodes }
        requires small { e < 4000 }
        ensures { out.new ≡ put_rows out.old e (arrival (source_in self.now.source) e target) }
    {
        writing::put_row(out, e, self.source.update(e + 1));
        writing::put_row(
            out,
            e + 1,
            self.source.check(self.sign(target), target as u32),
        );
    }

    // The three extra nodes of an edge that crosses to the leader l.
    fn crossing_group(&self, out: &mut [u32], n: usize, l: usize)
        requires from { n < self.now.source.header.nodes }
        requires to { l < self.now.source.header.nodes }
        ensures { let s = source_in self.now.source in let e = group_at s n in out.new ≡ put_rows out.old e (crossing_to s e n l) }
    {
        let e = self.start(n);
        writing::put_row(
            out,
            e,
            self.source.prepare(self.sign(n), self.sign(l), e + 1),
        );
        self.arrive(out, e + 1, l);
    }

    // The seven extra nodes of a branch: what it decided noted in RTS, its test once more, then the checks.
    fn branch_group(&self, out: &mut [u32], n: usize, t: usize, f: usize)
        requires from { n < self.now.source.header.nodes }
        requires then { t < self.now.source.header.nodes }
        requires other { f < self.now.source.header.nodes }
        ensures { let s = source_in self.now.source in let e = group_at s n in out.new ≡ put_rows out.old e (branching s e n t f) }
    {
        let e = self.start(n);
        let s = self.sign(n);
        writing::put_row(out, e, self.source.prepare(s, self.sign(t), e + 2));
        writing::put_row(out, e + 1, self.source.prepare(s, self.sign(f), e + 2));
        writing::put_row(out, e + 2, self.source.redirected(n, e + 3, e + 5));
        self.arrive(out, e + 3, t);
        self.arrive(out, e + 5, f);
    }

    // The group of a source node.
    #[tactic(auto, using(crate::proofs::Writes::no_rows), unfolding(crate::specs::Hardened::crossing))]
    pub(crate) fn group(&self, out: &mut [u32], n: usize)
        requires { n < self.now.source.header.nodes }
        ensures { let s = source_in self.now.source in let e = group_at s n in out.new ≡ put_rows out.old e (group_from s e n) }
    {
        match self.source.targets(n) {
            Successors::None => {}
            Successors::One(next) => {
                if self.leads(next) {
                    self.crossing_group(out, n, next);
                }
            }
            Successors::Two(t, f) => self.branch_group(out, n, t, f),
        }
    }
}
