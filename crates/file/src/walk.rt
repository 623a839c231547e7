// Writing a file: one walk over the nodes of a graph, made twice where the longest file would not fit.
ghost use Rattle.std.specs.Prelude.{◌≡◌, ◌+◌, ◌*◌, ◌%◌, ◌^◌, ◌≤◌, ◌<◌, length};
ghost use Rattle.words.specs.Answer.{given};
ghost use Rattle.words.specs.Buffer.{put};
ghost use Rattle.words.specs.Refusals.{answer_of};
ghost use Rattle.graph.specs.Checks.{runnable_check};
ghost use Rattle.file.specs.Writing.{cell_of, cells_of, file_of, write_answer, write_output};

use super::numbers;
use graph::{Header, Role};
use words::{Reason, Refusal};

// No file has more bytes.
const LONGEST: usize = 24605;

// A word of a node at a place, and how many bytes it takes: a spare word takes none.
#[tactic(auto, unfolding(crate::specs::Writing::cell_of, words::specs::Buffer::put))]
fn put_cell(out: &mut [u8], at: usize, role: Role, word: u32) -> usize
    ensures value { result ≡ length (cell_of role word) }
    ensures out_after { out.new ≡ put out.old at (cell_of role word) }
{
    if numbers::stands(role) {
        words::put_number(out, at, word)
    } else {
        0
    }
}

// The words of a node at a place, and the place after them.
fn put_node(out: &mut [u8], first: usize, node: &[u32]) -> usize
    requires { (first < 2 ^ 32) × (length node.now ≡ 6) }
    ensures value { result ≡ first + length (cells_of node.now 0 0) }
    ensures out_after { out.new ≡ put out.old first (cells_of node.now 0 0) }
{
    let kind = node[0];
    let mut at = first;
    for (word, value) in node.iter().enumerate() {
        at += put_cell(out, at, graph::role_at(kind, word), *value);
    }
    at
}

// The words of nodes from a place on, and the place after them.
fn put_nodes(out: &mut [u8], first: usize, cells: &[u32]) -> usize
    requires { (first ≤ 15) × (length cells.now ≤ 12300) × (length cells.now % 6 ≡ 0) }
    ensures value { result ≡ first + length (cells_of cells.now 0 0) }
    ensures out_after { out.new ≡ put out.old first (cells_of cells.now 0 0) }
{
    let mut at = first;
    for node in cells.chunks_exact(6) {
        at = put_node(out, at, node);
    }
    at
}

// The file of a runnable graph from the front of a buffer, and how many bytes it has; what would lie past the end is lost.
fn put_file(out: &mut [u8], header: Header, table: &[u32]) -> usize
    requires { runnable_check header.registers header.nodes header.entry table.now ≡ given tt }
    ensures value { result ≡ length (file_of header.registers header.nodes header.entry table.now) }
    ensures out_after { out.new ≡ put out.old 0 (file_of header.registers header.nodes header.entry table.now) }
{
    let Header {
        registers,
        nodes,
        entry,
    } = header;
    let at_nodes = words::put_number(out, 0, registers as u32);
    let at_entry = at_nodes + words::put_number(out, at_nodes, nodes as u32);
    let first = at_entry + words::put_number(out, at_entry, entry as u32);
    put_nodes(out, first, &table[..6 * nodes])
}

// A runnable graph into a buffer: where the longest file would not fit, a walk that puts nothing tells how many bytes are needed.
pub fn write(header: Header, table: &[u32], out: &mut [u8]) -> Result<usize, Refusal>
    requires { runnable_check header.registers header.nodes header.entry table.now ≡ given tt }
    ensures result_value { answer_of result ≡ write_answer header.registers header.nodes header.entry table.now (length out.old) }
    ensures out_after { out.new ≡ write_output header.registers header.nodes header.entry table.now out.old }
{
    if out.len() < LONGEST {
        let size = put_file(&mut out[..0], header, table);
        if out.len() < size {
            return Err(Reason::ShortBuffer.at(size));
        }
    }
    Ok(put_file(out, header, table))
}
