ghost use Rattle.records.specs.declared.standing.Standing.TheVariants as standings;

use crate::standing::{Record, Row, Standing};

// The ticket to run when the server is done with a request.
#[derive(Clone, Copy)]
pub struct CallbackRow {
    pub callback: u64,
    pub ticket: u32,
}

// A callback always stands live.
impl Row for CallbackRow {
    ghost numbered = { λ row. row.callback };

    ghost stands = { λ _. standings.Live };

    fn number(&self) -> u64 {
        self.callback
    }

    fn standing(&self) -> Standing {
        Standing::Live
    }
}

// Its step is another ticket.
impl Record for CallbackRow {
    type Step = u32;

    ghost stepped = { λ row ticket. record { callback = row.callback; ticket = ticket } };

    fn step(&mut self, step: u32) {
        self.ticket = step;
    }
}
