// What a program needs around the desk: buffers, its arguments in cells, and its input. What the last two are is the operating
// system's to say.
#![tactic(auto)]

ghost use Rattle.std.specs.Prelude.{◌≤◌, ◌≡◌, IfOk, length, replicate};

use std::env::FillError;
use std::io;
use std::io::Read;
use std::rt::{Env, Stdin};

// Three functions, not one over a size: each size is a promise, of `unique_console_file_space` and its two fellows.

// Room for the bytes of a file that decide.
pub fn file_space() -> [u8; 32768]
    ensures { result ≡ replicate 32768 0 }
{
    [0; 32768]
}

// Room for the cells of four arguments and 4,096 words, and of one more that is then too many.
pub fn cell_space() -> [u8; 65616]
    ensures { result ≡ replicate 65616 0 }
{
    [0; 65616]
}

// Room for the longest text: a run with 16,384 words of events, each of at most ten digits and a space.
pub fn text_space() -> [u8; 196608]
    ensures { result ≡ replicate 196608 0 }
{
    [0; 196608]
}

// The arguments after the program's name, one to a cell of sixteen bytes: its length, then its text. An argument that is too
// long for a cell is left empty. Answers how many bytes the cells take; what does not fit is left out.
pub fn arguments(rt: &HostRuntime, cells: &mut [u8]) -> usize
    ensures { result ≤ length cells.new }
{
    let mut used = 0;
    for (i, cell) in cells.chunks_exact_mut(16).enumerate() {
        let length = match rt.arg(i + 1, &mut cell[1..]) {
            Ok(length) => length,
            Err(FillError::TooLong) => 0,
            Err(FillError::NotPresent) => break,
        };
        cell[0] = length as u8;
        used += 16;
    }
    used
}

// Reads standard input into the buffer until it is full or the input ends. Answers how many bytes it read. By `while`: each read says how
// far it came.
pub fn read_full(input: &mut Stdin, bytes: &mut [u8]) -> io::Result<usize>
    ensures { IfOk result (λ size. size ≤ length bytes.new) }
{
    let mut size = 0;
    while size < bytes.len() {
        let more = input.read(&mut bytes[size..])?;
        if more == 0 {
            break;
        }
        size += more;
    }
    Ok(size)
}
