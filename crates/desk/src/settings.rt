// What the arguments ask for, and what was wanted where they do not.
ghost use Rattle.std.specs.Prelude.{◌≤◌};
ghost use Rattle.desk.specs.declared.TheConstants.{MOST_ROOM};

use crate::MOST_ROOM;

// The graph as it is read, or hardened first.
#[derive(Clone, Copy, PartialEq, Eq)]
pub enum Mode {
    Plain,
    Hardened,
}

// The first three arguments.
#[derive(Clone, Copy)]
pub struct Settings {
    pub mode: Mode,
    pub budget: usize,
    pub room: usize,
    ghost room_in: { room ≤ MOST_ROOM },
}

// What was wanted in the place of an argument; two hold the argument's number, from 1.
#[derive(Clone, Copy, PartialEq, Eq)]
pub enum Wanted {
    Mode,
    Budget,
    Room,
    Fault,
    Word(usize),
    End(usize),
    Plain,
    One,
}
