// Leaders, ranks, signatures, and the hardened table.
#![tactic(auto)]

ghost use Rattle.std.specs.Prelude.{◌≡◌, length};
ghost use Rattle.words.specs.Refusals.{answer_of};
ghost use Rattle.harden.specs.Hardened.{harden_answer, harden_output};

mod accepted; // accepted.rt: a source that the checks accepted
mod blocks; // blocks.rt: what the passes find of a source
mod grading; // grading.rt: which nodes are leaders
mod groups; // groups.rt: the groups of extra nodes
mod signing; // signing.rt: the signature of each node's block
mod whole; // whole.rt: the whole hardened table
mod writing; // writing.rt: the six words of a row

use accepted::Accepted;
use graph::Header;
use words::Refusal;

// Hardens a source graph: the table of the hardened graph goes over the first words of the output. Its R, N and entry.
#[tactic(auto, unfolding(crate::specs::Hardened::harden_answer, crate::specs::Hardened::harden_output, crate::specs::Hardened::source_of))]
pub fn harden(source: Header, table: &[u32], out: &mut [u32]) -> Result<Header, Refusal>
    ensures answer { answer_of result ≡ harden_answer source.registers source.nodes source.entry table.now (length out.old) }
    ensures out_after { out.new ≡ harden_output source.registers source.nodes source.entry table.now out.old }
{
    graph::check_source(source, table)?;
    let accepted = Accepted {
        header: source,
        table,
    };
    blocks::harden(accepted, out)
}
