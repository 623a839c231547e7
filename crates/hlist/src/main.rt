// Reads a source graph's file on standard input and prints the hardened graph, or the refusal.
#![tactic(auto)]

ghost use Rattle.std.specs.Prelude.{◌≤◌, ◌≡◌, length, take};
ghost use Rattle.desk.specs.Programs.{list_text, text_bytes};

use std::io;

// The whole text for a file's bytes: one of this size cuts nothing.
fn list(bytes: &[u8], text: &mut [u8]) -> usize
    requires { text_bytes ≤ length text.old }
    ensures { (result ≤ length text.new) × (take result text.new ≡ list_text bytes.now) }
{
    desk::list(bytes, text)
}

fn main(rt: HostRuntime) -> io::Result<()> {
    // before the input is read: later, the compiler would clear it twice
    let mut text = console::text_space();
    let mut file = console::file_space();
    let size = console::read_full(&mut rt.stdin(), &mut file)?;
    let end = list(&file[..size], &mut text);
    rt.stdout().write_all(&text[..end])
}
