// What is made of the graph in some bytes, in the text of a program: a listing, a run, a campaign, a file.
ghost use Rattle.std.specs.Prelude.{◌≡◌, length};
ghost use Rattle.words.specs.Answer.{and_then, written};
ghost use Rattle.words.specs.Buffer.{over};
ghost use Rattle.words.specs.Refusals.{answer_of};
ghost use Rattle.bench.specs.Runs.{answered};
ghost use Rattle.text.specs.Places.{appended};
ghost use Rattle.desk.specs.Jobs.{run_of_job, score_of_job, Filed};
ghost use Rattle.desk.specs.Programs.{graph_in, list_text, run_print, score_print, file_in};

use crate::loading::Graph;
use crate::settings::{Mode, Settings};
use crate::{MOST_ROOM, lines, listing};
use bench::{Fault, RunAnswer, Score};
use text::Text;
use words::Refusal;

// What a run and a campaign are made of.
#[derive(Clone, Copy)]
pub struct Job<'a> {
    pub bytes: &'a [u8],
    pub settings: Settings,
    pub inputs: &'a [u32],
}

impl Job<'_> {
    // One run of the graph; the room is the buffer's length.
    fn run_in(&self, fault: Fault, events: &mut [u32]) -> Result<RunAnswer, Refusal>
        ensures value { answer_of result ≡ answered (run_of_job self.now fault (length events.old)) }
        ensures events_after { events.new ≡ written (run_of_job self.now fault (length events.old)) (λ p. over p.machine.events events.old) events.old }
    {
        let mut graph = Graph::none();
        graph.load(self.bytes, self.settings.mode)?;
        bench::run(
            graph.header,
            &graph.table,
            self.inputs,
            events,
            self.settings.budget,
            fault,
        )
    }

    // One run's text.
    pub(crate) fn run(&self, fault: Fault, out: &mut Text)
        ensures { let s = self.now.settings in out.new ≡ appended out.old (run_print s.mode s.budget s.room fault self.now.inputs.now self.now.bytes.now) }
    {
        let mut space = words::zeros::<MOST_ROOM>();
        let events = &mut space[..self.settings.room];
        match self.run_in(fault, events) {
            Ok(a) => lines::ran(out, a.outcome, a.state, &events[..2 * a.events]),
            Err(refusal) => lines::refusal(out, refusal),
        }
    }

    // One campaign over the graph; the room is the buffers' length.
    fn score_in(&self, first: &mut [u32], second: &mut [u32]) -> Result<Score, Refusal>
        requires { length second.old ≡ length first.old }
        ensures { answer_of result ≡ score_of_job self.now (length first.old) }
    {
        let mut graph = Graph::none();
        graph.load(self.bytes, self.settings.mode)?;
        bench::campaign(
            graph.header,
            &graph.table,
            self.inputs,
            first,
            second,
            self.settings.budget,
        )
    }

    // One campaign's text.
    pub(crate) fn score(&self, out: &mut Text)
        ensures { let s = self.now.settings in out.new ≡ appended out.old (score_print s.mode s.budget s.room self.now.inputs.now self.now.bytes.now) }
    {
        let mut first = words::zeros::<MOST_ROOM>();
        let mut second = words::zeros::<MOST_ROOM>();
        let room = self.settings.room;
        match self.score_in(&mut first[..room], &mut second[..room]) {
            Ok(score) => lines::score(out, score),
            Err(refusal) => lines::refusal(out, refusal),
        }
    }
}

// The listing of the hardened graph.
pub fn list(bytes: &[u8], out: &mut Text)
    ensures { out.new ≡ appended out.old (list_text bytes.now) }
{
    let mut graph = Graph::none();
    match graph.load(bytes, Mode::Hardened) {
        Ok(()) => listing::listing(out, graph.header, &graph.table),
        Err(refusal) => lines::refusal(out, refusal),
    }
}

// The file of the graph, and how long it is; a refusal leaves the text as it stood.
pub fn file(bytes: &[u8], mode: Mode, text: &mut [u8]) -> Result<usize, Refusal>
    ensures { Filed text.old (and_then (graph_in mode bytes.now) (file_in (length text.old))) text.new result }
{
    let mut graph = Graph::none();
    graph.load(bytes, mode)?;
    file::write(graph.header, &graph.table, text)
}
