// Runs a graph on standard input once, undisturbed or with one branch inverted, and prints how it ended.
#![tactic(auto)]

ghost use Rattle.std.specs.Prelude.{◌≤◌, ◌≡◌, length};
ghost use Rattle.desk.specs.Programs.{size_of, print_of, run_program, text_bytes};

use desk::Printed;
use std::io;

// The whole text for the arguments and a file's bytes: one of this size cuts nothing.
fn run(cells: &[u8], bytes: &[u8], text: &mut [u8]) -> Printed
    requires { text_bytes ≤ length text.old }
    ensures { (size_of result ≤ length text.new) × (print_of result text.new ≡ run_program cells.now bytes.now) }
{
    desk::run(cells, bytes, text)
}

// A `main` of its own: one for the three programs would only read and print, and could promise nothing.
fn main(rt: HostRuntime) -> io::Result<()> {
    // before the input is read: later, the compiler would clear it twice
    let mut text = console::text_space();
    let mut cells = console::cell_space();
    let used = console::arguments(&rt, &mut cells);
    let mut file = console::file_space();
    let size = console::read_full(&mut rt.stdin(), &mut file)?;
    match run(&cells[..used], &file[..size], &mut text) {
        Printed::Output(end) => rt.stdout().write_all(&text[..end]),
        Printed::Complaint(end) => rt.stderr().write_all(&text[..end]),
    }
}
