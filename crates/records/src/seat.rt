ghost use Rattle.std.specs.Prelude.{◌≡◌};
ghost use Rattle.records.specs.Seats.{new_seat, seat_set_up, seat_stepped};

use crate::standing::{Head, Headed, Record, Standing};
use ei::capability::{CapabilityMap, DeviceCapability};
use ei::text::Text;

// What is kept of a seat.
#[derive(Clone, Copy)]
pub struct SeatRow {
    pub head: Head,
    pub name: Option<Text>,
    pub masks: CapabilityMap,
}

// What the server says of a seat while it is set up.
#[derive(Clone, Copy)]
pub enum SeatSetup {
    Name(Text),
    Capability(DeviceCapability, u64),
}

#[derive(Clone, Copy)]
pub enum SeatStep {
    Setup(SeatSetup),
    Done(u32),
    Destroyed,
}

impl SeatRow {
    pub fn new(number: u64) -> SeatRow
        ensures { result ≡ new_seat number }
    {
        SeatRow {
            head: Head::new(number),
            name: None,
            masks: CapabilityMap::new(),
        }
    }

    fn set_up(&mut self, setup: SeatSetup)
        ensures { self.new ≡ seat_set_up setup self.old }
    {
        match setup {
            SeatSetup::Name(name) => self.name = Some(name),
            SeatSetup::Capability(capability, mask) => self.masks.set(capability, mask),
        }
    }
}

impl Headed for SeatRow {
    ghost head_of = { λ row. row.head };

    fn head(&self) -> &Head {
        &self.head
    }
}

impl Record for SeatRow {
    type Step = SeatStep;

    ghost stepped = { seat_stepped };

    fn step(&mut self, step: SeatStep) {
        match (self.head.standing, step) {
            (Standing::Pending, SeatStep::Setup(setup)) => self.set_up(setup),
            (Standing::Pending, SeatStep::Done(handle)) => self.head.go_live(handle),
            (Standing::Live, SeatStep::Done(_) | SeatStep::Destroyed) => self.head.detach(),
            _ => {}
        }
    }
}
