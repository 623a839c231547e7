// The file: reading a graph from bytes into a lent table, and writing one from a table into lent bytes.
#![tactic(auto)]

mod numbers; // numbers.rt: one number by its role
mod passes; // passes.rt: the checks of a file, and the words that are taken after them
mod walk; // walk.rt: the bytes of a graph, written in one walk over its nodes

ghost use Rattle.std.specs.Prelude.{◌≡◌, length};
ghost use Rattle.words.specs.Refusals.{answer_of};
ghost use Rattle.file.specs.Reading.{read_answer, read_table};
ghost use Rattle.file.specs.Writing.{write_answer, write_output};

use graph::Header;
use words::Refusal;

// The graph in a file: a refused file leaves the table as it stood.
pub fn read(bytes: &[u8], table: &mut [u32]) -> Result<Header, Refusal>
    ensures result_value { answer_of result ≡ read_answer bytes.now (length table.old) }
    ensures table_after { table.new ≡ read_table bytes.now table.old }
{
    passes::check(bytes, table.len())?;
    Ok(passes::take(bytes, table))
}

// The file of the graph in a table, over the first bytes of a buffer: a refusal leaves the buffer as it stood.
pub fn write(header: Header, table: &[u32], out: &mut [u8]) -> Result<usize, Refusal>
    ensures result_value { answer_of result ≡ write_answer header.registers header.nodes header.entry table.now (length out.old) }
    ensures out_after { out.new ≡ write_output header.registers header.nodes header.entry table.now out.old }
{
    graph::check_runnable(header, table)?;
    walk::write(header, table, out)
}
