// The checks of a table's numbers and words, in document 01's order.
ghost use Rattle.std.specs.Prelude.{◌≤◌, ◌≡◌};
ghost use Rattle.words.specs.Refusals.{answer_of};
ghost use Rattle.graph.specs.Kinds.{number_in};
ghost use Rattle.graph.specs.Checks.{fault_at, words_from, table_check};

use super::{Header, Limits, kinds};
use words::{Reason, Refusal};

// What is wrong with the word at an index.
fn fault_at(limits: Limits, table: &[u32], i: usize) -> Result<(), Reason>
    ensures { number_in result ≡ fault_at limits.kinds limits.registers limits.nodes table.now i }
{
    let kind = words::word(table, i / 6 * 6);
    let role = kinds::role_at(kind, i % 6);
    kinds::fault(limits, role, words::word(table, i))
}

// The words below a count, upward; the tail is not looked at.
fn check_words(limits: Limits, table: &[u32], count: usize) -> Result<(), Refusal>
    ensures { answer_of result ≡ words_from limits.kinds limits.registers limits.nodes table.now count 0 }
{
    for i in 0..count {
        if let Err(reason) = fault_at(limits, table, i) {
            return Err(reason.at(i));
        }
    }
    Ok(())
}

// R and N, room, entry, then the words.
pub fn check(limits: Limits, header: Header, table: &[u32]) -> Result<(), Refusal>
    requires { limits.nodes ≤ 2050 }
    ensures { answer_of result ≡ table_check limits header.registers header.nodes header.entry table.now }
{
    if !kinds::in_range(1, limits.registers, header.registers) {
        return Err(Reason::OutOfRange.at(0));
    }
    if !kinds::in_range(1, limits.nodes, header.nodes) {
        return Err(Reason::OutOfRange.at(0));
    }
    let count = 6 * header.nodes;
    if table.len() < count {
        return Err(Reason::ShortTable.at(count));
    }
    if header.nodes <= header.entry {
        return Err(Reason::NoNode.at(0));
    }
    let own = Limits {
        registers: header.registers,
        nodes: header.nodes,
        ..limits
    };
    check_words(own, table, count)
}
