// What a converter asks of the program that runs it: the time, and a place for a note.
#![tactic(auto)]

ghost use Rattle.std.specs.Prelude.{◌≡◌, List, Some, ⊤};
ghost use Rattle.host.specs.Leaving.{HostState, WaitsOn, Leaves};
ghost use Rattle.host.specs.Spelling.{spelled};
ghost use Rattle.host.specs.declared.Note.{Note};

use std::fmt;

mod clock;
mod kept;
mod notes;
mod steady;
mod tape;

pub use clock::Clock;
pub use kept::{KeptClock, KeptHost};
pub use notes::NotesHost;
pub use steady::SteadyHost;
pub use tape::{Tape, TapeHost};

// What a converter leaves for the program to do.
#[derive(Clone, Copy, PartialEq, Eq, Debug)]
pub enum Note {
    // Answer this ping.
    Pong { ping: u64, data: u64 },
    // Run what the program keeps under this ticket.
    Run { ticket: u32, data: u64 },
    // Bind these capabilities of a seat.
    Bind { seat: u64, mask: u64 },
}

impl fmt::Display for Note {
    ghost output = { λ n. Some (spelled n) };

    fn fmt<W: fmt::Write>(&self, f: &mut fmt::Formatter<W>) -> fmt::Result {
        match self {
            Note::Pong { ping, data } => write!(f, "pong {ping} {data}"),
            Note::Run { ticket, data } => write!(f, "run {ticket} {data}"),
            Note::Bind { seat, mask } => write!(f, "bind {seat} {mask}"),
        }
    }
}

// A clock and a bounded list of waiting notes.
pub trait Host {
    // The next reading, the notes that wait, and how many more can wait.
    ghost state: { Self → HostState };

    // What a left note leaves as it was, besides the reading.
    ghost stays: { Self → Self → Type 0 } = { λ _ _. ⊤ };

    // The reading. What the next one will be is open.
    fn now(&mut self) -> u64
        ensures value { result ≡ (state self.old).reading }
        ensures waits { WaitsOn (state self.old) (state self.new) };

    // Leaves a note, and answers whether there was a place for it: a yes or a no by a rule of the project.
    fn leave(&mut self, note: Note) -> bool
        ensures left { Leaves note result (state self.old) (state self.new) }
        ensures rest { stays self.old self.new };

    // Leaves the answer to a ping.
    fn pong(&mut self, ping: u64, data: u64) -> bool
        ensures left { Leaves (Note.Pong ping «data») result (state self.old) (state self.new) }
        ensures rest { stays self.old self.new }
    {
        self.leave(Note::Pong { ping, data })
    }

    // Leaves a ticket to be run.
    fn run(&mut self, ticket: u32, data: u64) -> bool
        ensures left { Leaves (Note.Run ticket «data») result (state self.old) (state self.new) }
        ensures rest { stays self.old self.new }
    {
        self.leave(Note::Run { ticket, data })
    }

    // Leaves a seat's capabilities to be bound.
    fn bind(&mut self, seat: u64, mask: u64) -> bool
        ensures left { Leaves (Note.Bind seat mask) result (state self.old) (state self.new) }
        ensures rest { stays self.old self.new }
    {
        self.leave(Note::Bind { seat, mask })
    }
}
