// Lines of numbers and of words, written upward into a lent text. Not by `Display`: no contract can name the bytes that it writes.
#![tactic(auto, using(text::proofs::Writing::appended_then, text::proofs::Decimals::spaced_then), unfolding(crate::specs::Lines::refusal_line, crate::specs::Lines::counts_text, crate::specs::Lines::score_line, crate::specs::Lines::run_text))]

ghost use Rattle.std.specs.Prelude.{◌≡◌, [], ◌∷◌, ◌++◌};
ghost use Rattle.words.specs.Refusals.{number_of};
ghost use Rattle.text.specs.Decimals.{spaced};
ghost use Rattle.text.specs.Places.{appended};
ghost use Rattle.desk.specs.Lines.{line, refusal_line, outcome_text, counts_text, run_text, score_line, complaint_of, complaint_line};

use crate::settings::Wanted;
use bench::{Outcome, Score, State};
use text::Text;
use words::Refusal;

// Two numbers, one space before each.
pub fn pair(out: &mut Text, m: usize, n: usize)
    ensures { out.new ≡ appended out.old (spaced (m ∷ n ∷ [])) }
{
    out.after_space(m);
    out.after_space(n);
}

// A name and a number on a line.
pub fn named(out: &mut Text, name: &[u8], n: usize)
    ensures { out.new ≡ appended out.old (line (name.now ++ spaced (n ∷ []))) }
{
    out.piece(name);
    out.after_space(n);
    out.byte(b'\n');
}

// A name and words on a line. Not one with `named`: a count has 64 bits, a word 32.
pub fn listed(out: &mut Text, name: &[u8], words: &[u32])
    ensures { out.new ≡ appended out.old (line (name.now ++ spaced words.now)) }
{
    out.piece(name);
    out.spaced(words);
    out.byte(b'\n');
}

// A refusal's line.
pub fn refusal(out: &mut Text, refusal: Refusal)
    ensures { out.new ≡ appended out.old (refusal_line (number_of refusal.reason) refusal.place) }
{
    out.piece(b"refused");
    pair(out, refusal.reason.number() as usize, refusal.place);
    out.byte(b'\n');
}

// The line that says how a run ended.
pub fn outcome(out: &mut Text, end: Outcome)
    ensures { out.new ≡ appended out.old (line (outcome_text end)) }
{
    match end {
        Outcome::Returned(v) => named(out, b"returned", v as usize),
        Outcome::Caught => out.piece(b"caught\n"),
        Outcome::Spent => out.piece(b"spent\n"),
        Outcome::Full => out.piece(b"full\n"),
    }
}

// Where a run stands, and what it counted.
pub fn counts(out: &mut Text, s: State)
    ensures { out.new ≡ appended out.old (counts_text s.node s.steps s.branches s.reads) }
{
    named(out, b"node", s.node);
    named(out, b"steps", s.steps);
    named(out, b"branches", s.branches);
    named(out, b"reads", s.reads);
}

// A score's line.
pub fn score(out: &mut Text, s: Score)
    ensures { out.new ≡ appended out.old (score_line s) }
{
    out.number(s.positions);
    pair(out, s.caught, s.late);
    pair(out, s.harmless, s.changed);
    out.after_space(s.unended);
    out.byte(b'\n');
}

// What a run answered, and its events.
pub fn ran(out: &mut Text, end: Outcome, s: State, events: &[u32])
    ensures { out.new ≡ appended out.old (run_text end s events.now) }
{
    outcome(out, end);
    counts(out, s);
    listed(out, b"events", events);
    listed(out, b"registers", &s.registers);
}

// The line that says which argument is wrong and what was expected.
fn expected(out: &mut Text, argument: usize, wanted: &[u8])
    ensures { out.new ≡ appended out.old (complaint_of argument wanted.now) }
{
    out.piece(b"argument");
    out.after_space(argument);
    out.piece(wanted);
    out.byte(b'\n');
}

// What was wanted in the place of an argument.
pub fn complaint(out: &mut Text, wanted: Wanted)
    ensures { out.new ≡ appended out.old (complaint_line wanted) }
{
    match wanted {
        Wanted::Mode => expected(out, 1, b": expected MODE, plain or hardened"),
        Wanted::Budget => expected(out, 2, b": expected BUDGET, a number up to 4294967295"),
        Wanted::Room => expected(out, 3, b": expected ROOM, a number up to 16384"),
        Wanted::Fault => expected(
            out,
            4,
            b": expected FAULT, none or a number up to 4294967295",
        ),
        Wanted::Word(i) => expected(out, i, b": expected WORD, a number up to 4294967295"),
        Wanted::End(i) => expected(out, i, b": expected no more than 4096 words"),
        Wanted::Plain => expected(out, 1, b": expected plain, or no argument"),
        Wanted::One => expected(out, 2, b": expected no more than one argument"),
    }
}
