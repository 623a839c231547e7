// The graph that a program works on: read from bytes, and hardened where the mode says so.
ghost use Rattle.std.specs.Prelude.{◌≡◌, replicate};
ghost use Rattle.words.specs.Answer.{given, and_then};
ghost use Rattle.words.specs.Refusals.{answer_of};
ghost use Rattle.desk.specs.Programs.{table_words, graph_in, read_graph, harden_graph};

use crate::TABLE_WORDS;
use crate::settings::Mode;
use graph::Header;
use words::Refusal;

// A graph in a table with room for the largest. It is filled where it stands: handed out by value, the table would be copied at each call.
#[derive(Drop)]
pub struct Graph {
    pub header: Header,
    pub table: [u32; TABLE_WORDS],
}

impl Graph {
    // No graph yet.
    pub(crate) fn none() -> Graph
        ensures { result.table ≡ replicate table_words 0 }
    {
        Graph {
            header: Header {
                registers: 0,
                nodes: 0,
                entry: 0,
            },
            table: words::zeros::<TABLE_WORDS>(),
        }
    }

    // The graph as it is read.
    fn read(&mut self, bytes: &[u8]) -> Result<(), Refusal>
        requires { self.old.table ≡ replicate table_words 0 }
        ensures { and_then (answer_of result) (λ _. given self.new) ≡ read_graph bytes.now }
    {
        self.header = file::read(bytes, &mut self.table)?;
        Ok(())
    }

    // Another graph, hardened.
    fn harden(&mut self, source: &Graph) -> Result<(), Refusal>
        requires { self.old.table ≡ replicate table_words 0 }
        ensures { and_then (answer_of result) (λ _. given self.new) ≡ harden_graph source.now }
    {
        self.header = harden::harden(source.header, &source.table, &mut self.table)?;
        Ok(())
    }

    // The graph in the bytes, as it is read or hardened.
    pub(crate) fn load(&mut self, bytes: &[u8], mode: Mode) -> Result<(), Refusal>
        requires { self.old.table ≡ replicate table_words 0 }
        ensures { and_then (answer_of result) (λ _. given self.new) ≡ graph_in mode bytes.now }
    {
        match mode {
            Mode::Plain => self.read(bytes),
            Mode::Hardened => {
                let mut source = Graph::none();
                source.read(bytes)?;
                self.harden(&source)
            }
        }
    }
}
