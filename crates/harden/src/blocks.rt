// What the passes find of a source: who leads, the signature of each node's block, and where each node's group starts.
ghost use Rattle.std.specs.Prelude.{◌<◌, ◌≤◌, ◌≡◌, length};
ghost use Rattle.words.specs.Refusals.{answer_of};
ghost use Rattle.harden.specs.Hardened.{is_leader, sign, crossing, group_at, extra};
ghost use Rattle.harden.specs.Passes.{source_in, Led, Signed, Started, room_answer, room_output};

use super::accepted::Accepted;
use super::grading::Grade;
use super::{grading, signing};
use graph::{Header, Successors};
use words::Refusal;

// Grades, signatures and starts, one a node; one start more, the last, is H. Not one array of all three: each pass fills its own, and the
// next reads those before it whole. They are lent, since a struct that held them would be cleared at each call and filled by copies.
#[derive(Clone, Copy)]
pub struct Blocks<'a> {
    pub source: Accepted<'a>,
    grades: &'a [Grade; 256],
    signatures: &'a [u32; 256],
    starts: &'a [u32; 257],
    ghost led: { Led (source_in source) grades.now },
    ghost signed: { Signed (source_in source) signatures.now },
    ghost started: { Started (source_in source) starts.now },
}

// How many extra nodes a source node has.
#[tactic(auto, unfolding(crate::specs::Hardened::crossing))]
fn extra(source: &Accepted, grades: &[Grade], n: usize) -> u32
    requires led { Led (source_in source.now) grades.now }
    requires inside { n < source.now.header.nodes }
    ensures { let s = source_in source.now in result ≡ extra (crossing s n) (s.graph n) }
{
    match source.targets(n) {
        Successors::None => 0,
        Successors::One(next) => if grading::leads(grades, next) { 3 } else { 0 },
        Successors::Two(_, _) => 7,
    }
}

// The first extra node of each node's group: node N and the catch come before, and the groups in ascending order.
#[tactic(auto, using(crate::proofs::Count::group_bound), unfolding(crate::specs::Hardened::group_at, crate::specs::Hardened::extra_below))]
fn starts(source: &Accepted, grades: &[Grade]) -> [u32; 257]
    requires { Led (source_in source.now) grades.now }
    ensures { Started (source_in source.now) result }
{
    let mut starts = words::zeros::<257>();
    starts[0] = source.header.nodes as u32 + 2;
    for n in 0..source.header.nodes {
        starts[n + 1] = starts[n] + extra(source, grades, n);
    }
    starts
}

// An accepted source hardened where there is room, once its grades and signatures are found: the last pass, and then the rows. A function
// of its own: that it clears `starts` at its entry is optimized away only where little code lies before the pass that fills it.
fn harden_signed(
    source: Accepted,
    grades: &[Grade; 256],
    signatures: &[u32; 256],
    out: &mut [u32],
) -> Result<Header, Refusal>
    requires led { Led (source_in source) grades.now }
    requires signed { Signed (source_in source) signatures.now }
    ensures answer { answer_of result ≡ room_answer (source_in source.entry) (length out.old) }
    ensures out_after { out.new ≡ room_output (source_in source.entry) out.old }
{
    let starts = starts(&source, grades);
    let blocks = Blocks {
        source,
        grades,
        signatures,
        starts: &starts,
    };
    blocks.harden(out)
}

// An accepted source hardened where there is room: the passes, one after the other, and then the rows.
#[tactic(auto, using(crate::proofs::Answers::grades_led, crate::proofs::Answers::blocks_signed))]
pub fn harden(source: Accepted, out: &mut [u32]) -> Result<Header, Refusal>
    ensures answer { answer_of result ≡ room_answer (source_in source.entry) (length out.old) }
    ensures out_after { out.new ≡ room_output (source_in source.entry) out.old }
{
    let grades = grading::grades(&source);
    let signatures = signing::of_blocks(&source, &grades);
    harden_signed(source, &grades, &signatures, out)
}

// That a node's number is below N stands in each contract: a type for it would only move the same test to each place that makes one.
impl Blocks<'_> {
    // Whether a node is a leader.
    pub(crate) fn leads(&self, n: usize) -> bool
        requires { n < self.now.source.header.nodes }
        ensures { result ≡ is_leader (source_in self.now.source) n }
    {
        let grades = self.grades;
        grading::leads(grades, n)
    }

    // The signature of a node's block.
    pub(crate) fn sign(&self, n: usize) -> u32
        requires { n < self.now.source.header.nodes }
        ensures { result ≡ sign (source_in self.now.source) n }
    {
        self.signatures[n]
    }

    // The first extra node of a node's group; H at N.
    #[tactic(auto, using(crate::proofs::Count::group_bound))]
    pub(crate) fn start(&self, n: usize) -> u32
        requires { n ≤ self.now.source.header.nodes }
        ensures at { result ≡ group_at (source_in self.now.source) n }
        ensures few { result ≤ 2050 }
    {
        self.starts[n]
    }
}
