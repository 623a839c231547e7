// One step: what the node at hand does, decided over the number of its kind, as document 01 has it, as an effect that is small enough to hand
// back by value.
ghost use Rattle.std.specs.Prelude.{◌≡◌, ◌+◌, ◌<◌, ◌^◌, cond, get_or};
ghost use Rattle.bench.specs.Ready.{effect_in};
ghost use Rattle.bench.specs.Effects.{keeps, sets, branches, applied, Takes, words_after, with_event, outcome_of};

use crate::{Outcome, Runner, State, operators};

// What follows a step: the run goes on, goes on after an event from a port, or ends.
#[derive(Clone, Copy, PartialEq, Eq)]
pub enum Sequel {
    On,
    Event(u32),
    Returned,
    Caught,
}

// What a step does to the machine's state: a register takes a value (often the one it has), and the counts grow, each by 0 or 1. So it is
// applied without a test.
#[derive(Clone, Copy, PartialEq, Eq)]
pub struct Effect {
    pub register: usize,
    pub value: u32,
    pub next: usize,
    pub branches: usize,
    pub reads: usize,
    pub sequel: Sequel,
}

// A register's number is a word of the table, so that it is below 64 stands in each contract: the checks say so of every node.
impl State {
    // What a register holds.
    fn held(&self, register: u32) -> u32
        requires { register < 64 }
        ensures { result ≡ get_or self.now.registers register 0 }
    {
        self.registers[register as usize]
    }

    // The effect of a node that leaves its registers as they are, one of them being named.
    fn keeps(&self, register: u32, next: usize, branches: usize, sequel: Sequel) -> Effect
        requires { register < 64 }
        ensures { result ≡ keeps self.now.registers register next branches sequel }
    {
        Effect {
            register: register as usize,
            value: self.held(register),
            next,
            branches,
            reads: 0,
            sequel,
        }
    }

    // The effect of a branch that compares a register with a word; an inverted one goes to its other target.
    fn branches(&self, c: u32, a: u32, b: u32, inverted: bool, then: u32, other: u32) -> Effect
        requires { a < 64 }
        ensures { result ≡ branches self.now.registers c a b inverted then other }
    {
        let taken = operators::compare(c, self.held(a), b) != inverted;
        let next = if taken { then } else { other };
        self.keeps(a, next as usize, 1, Sequel::On)
    }

    // The state after a step. The remainder, of a number below 64, tells the compiler that no count is written over: without it a campaign
    // takes a quarter longer.
    pub(crate) fn apply(&mut self, effect: Effect)
        requires { Takes self.old effect }
        ensures { self.new ≡ applied self.old effect }
    {
        self.registers[effect.register % 64] = effect.value;
        self.node = effect.next;
        self.steps += 1;
        self.branches += effect.branches;
        self.reads += effect.reads;
    }
}

impl Effect {
    // The effect of a node that sets a register and goes on.
    fn sets(register: u32, value: u32, next: u32, reads: usize) -> Effect
        ensures { result ≡ sets register value next reads }
    {
        Effect {
            register: register as usize,
            value,
            next: next as usize,
            branches: 0,
            reads,
            sequel: Sequel::On,
        }
    }

    // The event of the step, if it makes one, is written after so many words; how many there are then, none where it has no room.
    #[tactic(auto, unfolding(words::specs::Buffer::put))]
    pub(crate) fn write(self, events: &mut [u32], words: usize, room: usize) -> Option<usize>
        ensures value { result ≡ words_after self words room }
        ensures events_after { events.new ≡ with_event self words room events.old }
    {
        match self.sequel {
            Sequel::Event(port) => {
                let after = words.checked_add(2)?;
                if room < after {
                    return None;
                }
                words::store(events, words, port);
                words::store(events, words + 1, self.value);
                Some(after)
            }
            Sequel::On | Sequel::Returned | Sequel::Caught => Some(words),
        }
    }

    // How the step ends the run, if it does.
    pub(crate) fn outcome(self) -> Option<Outcome>
        ensures { result ≡ outcome_of self }
    {
        match self.sequel {
            Sequel::On | Sequel::Event(_) => None,
            Sequel::Returned => Some(Outcome::Returned(self.value)),
            Sequel::Caught => Some(Outcome::Caught),
        }
    }
}

impl Runner<'_> {
    // One step: what the node at hand does to the registers and counts, by its kind. Put into the loop: called there, it takes as long again.
    #[inline(always)]
    #[tactic(auto, unfolding(crate::specs::Effects::effect_of, graph::specs::Nodes::node_of), using(crate::proofs::Rows::rows))]
    pub(crate) fn step(&self, state: &State, inverted: bool) -> Effect
        requires { state.now.node < self.now.header.nodes }
        ensures { result ≡ effect_in self.now state.now inverted }
    {
        let first = 6 * state.node;
        let row = &self.table[first..first + 6];
        let &[kind, v, w, x, y, z] = row else {
            unreachable!();
        };
        match kind {
            1 => Effect::sets(v, w, x, 0),
            2 => Effect::sets(w, operators::operate(v, state.held(x), state.held(y)), z, 0),
            3 => state.branches(v, w, state.held(x), inverted, y, z),
            4 => state.branches(v, w, x, inverted, y, z),
            5 => Effect::sets(v, words::word(self.inputs, state.reads), w, 1),
            6 => state.keeps(w, x as usize, 0, Sequel::Event(v)),
            7 => state.keeps(v, state.node, 0, Sequel::Returned),
            8 => state.keeps(0, state.node, 0, Sequel::Caught),
            // No checked graph has such a kind; the definition takes it for the catch.
            0 | 9.. => state.keeps(0, state.node, 0, Sequel::Caught),
        }
    }
}
