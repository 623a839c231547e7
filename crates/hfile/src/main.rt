// Reads a graph's file on standard input and puts the file of the hardened graph on standard output, or of the graph as it was
// read; a refusal's line goes to standard error.
#![tactic(auto)]

ghost use Rattle.std.specs.Prelude.{◌≤◌, ◌≡◌, length};
ghost use Rattle.desk.specs.Programs.{size_of, print_of, file_program, text_bytes};

use desk::Printed;
use std::io;

// The whole file for the arguments and a file's bytes: a text of this size holds every one.
fn file(cells: &[u8], bytes: &[u8], text: &mut [u8]) -> Printed
    requires { length text.old ≡ text_bytes }
    ensures { (size_of result ≤ length text.new) × (print_of result text.new ≡ file_program text_bytes cells.now bytes.now) }
{
    desk::file(cells, bytes, text)
}

// A `main` of its own: one for the three programs would only read and print, and could promise nothing.
fn main(rt: HostRuntime) -> io::Result<()> {
    // before the input is read: later, the compiler would clear it twice
    let mut text = console::text_space();
    let mut cells = console::cell_space();
    let used = console::arguments(&rt, &mut cells);
    let mut input = console::file_space();
    let size = console::read_full(&mut rt.stdin(), &mut input)?;
    match file(&cells[..used], &input[..size], &mut text) {
        Printed::Output(end) => rt.stdout().write_all(&text[..end]),
        Printed::Complaint(end) => rt.stderr().write_all(&text[..end]),
    }
}
