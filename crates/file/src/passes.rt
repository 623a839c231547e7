// The two passes of reading a file: the first checks and writes nothing, the second takes what was checked.
ghost use Rattle.std.specs.Prelude.{ℕ, ◌≡◌, ◌+◌, ◌*◌, ◌≤◌, ◌++◌, length};
ghost use Rattle.words.specs.Answer.{given};
ghost use Rattle.words.specs.Buffer.{put};
ghost use Rattle.words.specs.Refusals.{answer_of};
ghost use Rattle.file.specs.Reading.{cells_from, body_of, contents_of, read_answer, read_table};
ghost use Rattle.file.specs.Passes.{end_of, passed, taken_from};

use super::numbers;
use graph::{Header, Limits, Role};
use words::{Reason, Refusal};

// Checks the fields of a node of this kind, and answers the position after the last.
fn check_fields(bytes: &[u8], limits: Limits, kind: u32, first: usize) -> Result<usize, Refusal>
    ensures { answer_of result ≡ end_of (cells_from bytes.now limits 5 1 kind first) }
{
    let mut at = first;
    for word in 1..6 {
        let cell = numbers::cell(bytes, limits, graph::role_at(kind, word), at)?;
        at = cell.next;
    }
    Ok(at)
}

// Checks the nodes, each by its kind and then its fields, and answers the position after the last.
fn check_nodes(bytes: &[u8], limits: Limits, first: usize) -> Result<usize, Refusal>
    ensures { answer_of result ≡ end_of (cells_from bytes.now limits (6 * limits.nodes) 0 0 first) }
{
    let mut at = first;
    for _ in 0..limits.nodes {
        let kind = numbers::field(bytes, limits, Role::Kind, at)?;
        at = check_fields(bytes, limits, kind.value, kind.next)?;
    }
    Ok(at)
}

// Checks the entry, the nodes, and that no bytes follow them.
fn check_body(bytes: &[u8], limits: Limits, at: usize) -> Result<(), Refusal>
    ensures { answer_of result ≡ passed (body_of bytes.now limits at) }
{
    let entry = numbers::field(bytes, limits, Role::Target, at)?;
    let next = check_nodes(bytes, limits, entry.next)?;
    if next < bytes.len() {
        return Err(Reason::BytesAfter.at(next));
    }
    Ok(())
}

// Every check in its order: R, N, room right after N, the entry, the nodes, and last the bytes after them.
pub fn check(bytes: &[u8], room: usize) -> Result<(), Refusal>
    ensures { answer_of result ≡ passed (contents_of bytes.now room) }
{
    let limits = Limits::runnable();
    let registers = numbers::count(bytes, limits.registers, 0)?;
    let nodes = numbers::count(bytes, limits.nodes, registers.next)?;
    let words = 6 * nodes.value as usize;
    if room < words {
        return Err(Reason::ShortTable.at(words));
    }
    let own = Limits {
        registers: registers.value as usize,
        nodes: nodes.value as usize,
        ..limits
    };
    check_body(bytes, own, nodes.next)
}

// Takes the words of a node, its kind and then its fields, and answers the position after the last.
fn take_node(bytes: &[u8], first: usize, node: &mut [u32]) -> usize
    requires { length node.old ≡ 6 }
    ensures { (left : ℕ) → taken_from bytes.now (6 + left) 0 0 first ≡ node.new ++ taken_from bytes.now left 0 0 result }
{
    let kind = numbers::taken(bytes, first);
    node[0] = kind.value;
    let mut at = kind.next;
    for word in 1..6 {
        let cell = numbers::taken_cell(bytes, graph::role_at(kind.value, word), at);
        node[word] = cell.value;
        at = cell.next;
    }
    at
}

// Takes the words of so many nodes into the front of the table.
fn take_nodes(bytes: &[u8], nodes: usize, first: usize, table: &mut [u32])
    requires { 6 * nodes ≤ length table.old }
    ensures { table.new ≡ put table.old 0 (taken_from bytes.now (6 * nodes) 0 0 first) }
{
    let mut at = first;
    // By place: once a loop over `chunks_exact_mut` is over, a proof knows no word of the table.
    for n in 0..nodes {
        at = take_node(bytes, at, &mut table[6 * n..6 * n + 6]);
    }
}

// An accepted file: its words into the table, and its R, N and entry.
pub fn take(bytes: &[u8], table: &mut [u32]) -> Header
    requires { passed (contents_of bytes.now (length table.old)) ≡ given tt }
    ensures result_value { given result ≡ read_answer bytes.now (length table.old) }
    ensures table_after { table.new ≡ read_table bytes.now table.old }
{
    let registers = numbers::taken(bytes, 0);
    let nodes = numbers::taken(bytes, registers.next);
    let entry = numbers::taken(bytes, nodes.next);
    let header = Header {
        registers: registers.value as usize,
        nodes: nodes.value as usize,
        entry: entry.value as usize,
    };
    take_nodes(bytes, header.nodes, entry.next, table);
    header
}
