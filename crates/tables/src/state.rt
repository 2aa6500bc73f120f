// Everything a converter knows besides its host.
use records::callback::CallbackRow;
use records::device::DeviceRow;
use records::seat::SeatRow;
use records::table::Table;
use std::marker::Model;
use store::EventStore;

mod acts;
mod asks;
mod connection;
mod devices;
mod events;
mod objects;
mod retiring;
mod seats;
mod setup;
mod speech;
mod touches;
mod turns;

// The last serial and the last handle, the rows of seats, devices and callbacks, and the events. Seen as what a converter holds.
#[derive(Drop)]
pub struct Tables {
    serial: u32,
    handles: u32,
    seats: Table<SeatRow, 16>,
    devices: Table<DeviceRow, 32>,
    callbacks: Table<CallbackRow, 32>,
    store: EventStore,
}

impl Model for Tables {
    ghost use Rattle.std.specs.Prelude.{◌≤◌};
    ghost use Rattle.tables.specs.Model.{Model};

    ghost Value = { Model };

    ghost view = { λ t. record { serial = t.serial; handles = t.handles; seats = t.seats; devices = t.devices; callbacks = t.callbacks; store = t.store } };

    ghost invariant = { λ t. t.handles ≤ 1000000 };
}
