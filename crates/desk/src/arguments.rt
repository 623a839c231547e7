// The programs' arguments, out of their cells.
ghost use Rattle.std.specs.Prelude.{◌≡◌, MatchResult};
ghost use Rattle.desk.specs.Arguments.{mode_of, fault_of, settings_of, words_in, file_mode_of, run_asked, score_asked};
ghost use Rattle.desk.specs.Arguments.{argument as argument_text};

use crate::settings::{Mode, Settings, Wanted};
use crate::{MOST_ROOM, MOST_WORDS};
use bench::Fault;

// The text of an argument.
pub fn argument(cells: &[u8], i: usize) -> &[u8]
    ensures { result.now ≡ argument_text cells.now i }
{
    if cells.len() / 16 <= i {
        return &[];
    }
    let size = usize::from(cells[16 * i]);
    if 16 <= size {
        return &[];
    }
    let start = 16 * i + 1;
    &cells[start..start + size]
}

// The mode that a text names. No `TryFrom`, nor below: each is asked in one place, and what is wrong with it that place alone can say.
#[tactic(auto, unfolding(crate::specs::Arguments::mode_of))]
pub fn mode(text: &[u8]) -> Option<Mode>
    ensures { result ≡ mode_of text.now }
{
    if text == b"plain".as_slice() {
        Some(Mode::Plain)
    } else if text == b"hardened".as_slice() {
        Some(Mode::Hardened)
    } else {
        None
    }
}

// The fault that a text names.
#[tactic(auto, unfolding(crate::specs::Arguments::fault_of))]
pub fn fault(text: &[u8]) -> Option<Fault>
    ensures { result ≡ fault_of text.now }
{
    if text == b"none".as_slice() {
        return Some(Fault::Undisturbed);
    }
    text::value(text).map(|place| Fault::Inverted(place as usize))
}

// The first three arguments.
#[tactic(auto, unfolding(crate::specs::Arguments::settings_of))]
pub fn settings(cells: &[u8]) -> Result<Settings, Wanted>
    ensures { result ≡ settings_of cells.now }
{
    let mode = mode(argument(cells, 0)).ok_or(Wanted::Mode)?;
    let budget = text::value(argument(cells, 1)).ok_or(Wanted::Budget)? as usize;
    let room = text::value(argument(cells, 2)).ok_or(Wanted::Room)? as usize;
    if MOST_ROOM < room {
        return Err(Wanted::Room);
    }
    Ok(Settings { mode, budget, room })
}

// The argument of `hfile`: none, which hardens, or `plain`.
#[tactic(auto, unfolding(crate::specs::Arguments::file_mode_of))]
pub fn file_mode(cells: &[u8]) -> Result<Mode, Wanted>
    ensures { result ≡ file_mode_of cells.now }
{
    let count = cells.len() / 16;
    if count == 0 {
        return Ok(Mode::Hardened);
    }
    if argument(cells, 0) != b"plain".as_slice() {
        return Err(Wanted::Plain);
    }
    if 1 < count {
        return Err(Wanted::One);
    }
    Ok(Mode::Plain)
}

// The words that the arguments from `from` on are, over the first of those lent.
fn words<'a>(
    cells: &[u8],
    from: usize,
    words: &'a mut [u32; MOST_WORDS],
) -> Result<&'a [u32], Wanted>
    ensures { MatchResult result (λ w. words_in cells.now from ≡ Ok w.now) (λ wanted. words_in cells.now from ≡ Err wanted) }
{
    let count = (cells.len() / 16).saturating_sub(from);
    if MOST_WORDS < count {
        return Err(Wanted::End(from + MOST_WORDS + 1));
    }
    for k in 0..count {
        let word = text::value(argument(cells, from + k));
        words[k] = word.ok_or(Wanted::Word(from + k + 1))?;
    }
    Ok(&words[..count])
}

// What `hrun` is asked for: the settings, the fault, and the words.
#[tactic(auto, unfolding(crate::specs::Arguments::run_asked))]
pub fn run<'a>(
    cells: &[u8],
    inputs: &'a mut [u32; MOST_WORDS],
) -> Result<(Settings, Fault, &'a [u32]), Wanted>
    ensures { MatchResult result (λ a. run_asked cells.now ≡ Ok (a.0, a.1, a.2.now)) (λ wanted. run_asked cells.now ≡ Err wanted) }
{
    let settings = settings(cells)?;
    let fault = fault(argument(cells, 3)).ok_or(Wanted::Fault)?;
    let inputs = words(cells, 4, inputs)?;
    Ok((settings, fault, inputs))
}

// What `hscore` is asked for: the settings, and the words.
#[tactic(auto, unfolding(crate::specs::Arguments::score_asked))]
pub fn score<'a>(
    cells: &[u8],
    inputs: &'a mut [u32; MOST_WORDS],
) -> Result<(Settings, &'a [u32]), Wanted>
    ensures { MatchResult result (λ a. score_asked cells.now ≡ Ok (a.0, a.1.now)) (λ wanted. score_asked cells.now ≡ Err wanted) }
{
    let settings = settings(cells)?;
    let inputs = words(cells, 3, inputs)?;
    Ok((settings, inputs))
}
