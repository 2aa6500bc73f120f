// The calls that change a converter. Each comes to what the rules say, and goes on with every run that led to it.
ghost use Rattle.std.specs.Prelude.{◌≡◌, [], is_some, IfOk, if◌then◌else◌, Some, None, MatchResult};
ghost use Rattle.std.specs.Option.{unwrap_or};
ghost use Rattle.ei.specs.Refusals.{answer_of};
ghost use Rattle.law.specs.Runs.{Run};
ghost use Rattle.store.specs.Moves.{given};
ghost use Rattle.tables.specs.Calls.{next_event, add_callback, bind, retire_seat, retire_device};
ghost use Rattle.tables.specs.Model.{fresh};
ghost use Rattle.tables.specs.Outcomes.{handled};
ghost use Rattle.tables.specs.Told.{told};
ghost use Rattle.converter.specs.Contract.{model, view, Does, Continues};

use super::EiEventConverter;
use ei::error::EventError;
use ei::event::EiEvent;
use ei::proto::Event;
use ei::set::CapabilitySet;
use host::Host;
use std::alloc::Global;
use tables::state::Tables;

impl<H: Host> EiEventConverter<H> {
    // A new converter with this first serial, and all its room reserved. Where memory is short the host comes back.
    #[tactic(auto, using(law::specs::Runs::start))]
    pub fn new(heap: Global, host: H, serial: u32) -> Result<EiEventConverter<H>, H>
        ensures outcome { MatchResult result (λ c. (model c ≡ fresh serial) × (c.host ≡ host)) (λ back. back ≡ host) }
        ensures law { IfOk result (λ c. Run [] (model c)) }
    {
        // no `?`: the host goes into the converter, or comes back
        let Ok(tables) = Tables::new(heap, serial) else {
            return Err(host);
        };
        Ok(EiEventConverter { host, tables })
    }

    // Takes a low-level event.
    pub fn handle_event(&mut self, event: Event<'_>) -> Result<(), EventError>
        ensures outcome { Does H.state H.stays (told event.entry) result self.old self.new }
        ensures law { Continues H.state (told event.entry) (answer_of result) None self.old self.new }
    {
        let rest = self.tables.handle(event)?;
        self.finish(rest)
    }

    // Puts the oldest queued event into its place, and answers whether there was one. Otherwise the place is as it was. That the caller's
    // place is filled is this call's form by a rule of the project.
    pub fn next_event(&mut self, place: &mut EiEvent) -> bool
        ensures answer { result ≡ is_some (given (model self.old).store) }
        ensures place { place.new ≡ unwrap_or (given (model self.old).store) place.old }
        ensures left { model self.new ≡ (handled (view (H.state self.old.host)) next_event (model self.old)).after }
        ensures host { self.new.host ≡ self.old.host }
        ensures law { Continues H.state next_event 0 (if result then Some place.new else None) self.old self.new }
    {
        let Some(event) = self.tables.next() else {
            return false;
        };
        *place = event;
        true
    }

    // Keeps a ticket for a callback, in place of an earlier one.
    pub fn add_callback_handler(&mut self, callback: u64, ticket: u32) -> Result<(), EventError>
        ensures outcome { Does H.state H.stays (add_callback callback ticket) result self.old self.new }
        ensures law { Continues H.state (add_callback callback ticket) (answer_of result) None self.old self.new }
    {
        self.tables.add_callback(callback, ticket)
    }

    // Asks the server for a seat's capabilities.
    pub fn bind_capabilities(&mut self, seat: u32, wanted: CapabilitySet) -> Result<(), EventError>
        ensures outcome { Does H.state H.stays (bind seat wanted.bits) result self.old self.new }
        ensures law { Continues H.state (bind seat wanted.bits) (answer_of result) None self.old self.new }
    {
        let row = self.seat_row(seat)?;
        let number = row.head.number;
        let mask = row.masks.mask_of(wanted);
        EventError::HostFull.unless(self.host.bind(number, mask))
    }

    // The two retire calls have a call of the rules and a table each, and no more; what they share is in the tables.

    // Frees the record of a seat that is gone from the server.
    pub fn retire_seat(&mut self, seat: u32) -> Result<(), EventError>
        ensures outcome { Does H.state H.stays (retire_seat seat) result self.old self.new }
        ensures law { Continues H.state (retire_seat seat) (answer_of result) None self.old self.new }
    {
        self.tables.retire_seat(seat)
    }

    // Frees the record of a device that is gone from the server, and discards what is pending for it.
    pub fn retire_device(&mut self, device: u32) -> Result<(), EventError>
        ensures outcome { Does H.state H.stays (retire_device device) result self.old self.new }
        ensures law { Continues H.state (retire_device device) (answer_of result) None self.old self.new }
    {
        self.tables.retire_device(device)
    }
}
