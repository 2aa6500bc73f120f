// What the connection says.
ghost use Rattle.std.specs.Option.{option_map};
ghost use Rattle.tables.specs.Calls.{new_seat, disconnected};
ghost use Rattle.tables.specs.Rests.{Takes};

use super::Tables;
use crate::rest::Rest;
use crate::shortage::Shortage;
use ei::enums::DisconnectReason;
use ei::error::EventError;
use ei::event::{Disconnected, EiEvent};
use records::seat::SeatRow;
use records::standing::Key;

impl Tables {
    pub(super) fn seat_arrives(&mut self, seat: u64) -> Result<Rest, EventError>
        ensures { Takes (new_seat seat) self.old result self.new }
    {
        self.seats.renew(Key::pending(seat), SeatRow::new(seat))?;
        Ok(Rest::Nothing)
    }

    #[tactic(auto, using(crate::proofs::Refused::refused_queue))]
    pub(super) fn connection_ends(
        &mut self,
        last_serial: u32,
        reason: DisconnectReason,
        explanation: Option<&[u8]>,
    ) -> Result<Rest, EventError>
        ensures { Takes (disconnected last_serial reason (option_map (λ x. x.now) explanation.entry)) self.old result self.new }
    {
        let short = Shortage {
            store_full: !self.store.fits(1),
            ..Shortage::NONE
        };
        let explanation = short.check_explanation(explanation)?;
        self.store.queue(EiEvent::Disconnected(Disconnected {
            last_serial,
            reason,
            explanation,
        }))?;
        Ok(Rest::Nothing)
    }
}
