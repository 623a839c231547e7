// What the programs do between their arguments and standard input and what they print.
#![tactic(auto)]

mod arguments;
mod lines;
mod listing;
mod loading;
mod programs;
mod settings;

ghost use Rattle.std.specs.Prelude.{length};
ghost use Rattle.text.specs.Places.{Wrote};
ghost use Rattle.desk.specs.Programs.{list_text, run_program, score_program, file_program, Shown};

use graph::Limits;
use programs::Job;
pub use settings::{Mode, Settings, Wanted};
use text::Text;

// The words of the largest graph's table, the most event words, and the most input words.
const TABLE_WORDS: usize = 6 * Limits::RUNNABLE_NODES;

const MOST_ROOM: usize = 16384;

const MOST_WORDS: usize = 4096;

// How much of the text is to be printed, and whether it is the output or a complaint. A Result of two sizes would name neither.
#[derive(Clone, Copy, PartialEq, Eq)]
pub enum Printed {
    Output(usize),
    Complaint(usize),
}

// What `hlist` prints for the bytes of a source file, and how long it is.
#[tactic(auto, unfolding(text::specs::Places::appended))]
pub fn list(bytes: &[u8], text: &mut [u8]) -> usize
    ensures { Wrote text.old 0 (list_text bytes.now) text.new result }
{
    let mut out = Text { out: text, at: 0 };
    programs::list(bytes, &mut out);
    out.at
}

// What `hrun` prints for its arguments, in cells, and the bytes of a graph file.
pub fn run(cells: &[u8], bytes: &[u8], text: &mut [u8]) -> Printed
    ensures { Shown text.old (run_program cells.now bytes.now) text.new result }
{
    let mut out = Text { out: text, at: 0 };
    let mut space = words::zeros::<MOST_WORDS>();
    match arguments::run(cells, &mut space) {
        Ok((settings, fault, inputs)) => {
            let job = Job {
                bytes,
                settings,
                inputs,
            };
            job.run(fault, &mut out);
            Printed::Output(out.at)
        }
        Err(wanted) => {
            lines::complaint(&mut out, wanted);
            Printed::Complaint(out.at)
        }
    }
}

// What `hscore` prints for its arguments, in cells, and the bytes of a graph file. Not one function with `run`: what is asked for and what is
// made of it differ, and only the match around them is alike.
pub fn score(cells: &[u8], bytes: &[u8], text: &mut [u8]) -> Printed
    ensures { Shown text.old (score_program cells.now bytes.now) text.new result }
{
    let mut out = Text { out: text, at: 0 };
    let mut space = words::zeros::<MOST_WORDS>();
    match arguments::score(cells, &mut space) {
        Ok((settings, inputs)) => {
            let job = Job {
                bytes,
                settings,
                inputs,
            };
            job.score(&mut out);
            Printed::Output(out.at)
        }
        Err(wanted) => {
            lines::complaint(&mut out, wanted);
            Printed::Complaint(out.at)
        }
    }
}

// What `hfile` prints for its arguments, in cells, and the bytes of a graph file: the graph's file, or one line.
pub fn file(cells: &[u8], bytes: &[u8], text: &mut [u8]) -> Printed
    ensures { Shown text.old (file_program (length text.old) cells.now bytes.now) text.new result }
{
    let mut out = Text { out: text, at: 0 };
    match arguments::file_mode(cells) {
        Ok(mode) => match programs::file(bytes, mode, out.out) {
            Ok(size) => Printed::Output(size),
            Err(refusal) => {
                lines::refusal(&mut out, refusal);
                Printed::Complaint(out.at)
            }
        },
        Err(wanted) => {
            lines::complaint(&mut out, wanted);
            Printed::Complaint(out.at)
        }
    }
}
