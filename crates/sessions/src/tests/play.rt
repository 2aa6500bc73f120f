// A session played with a converter over a kept host.
use crate::event::event;
use crate::line::{Call, DeviceCall, Line, SeatCall};
use crate::samples::KEYBOARD;
use crate::worked::worked_sessions;
use converter::convert::EiEventConverter;
use ei::enums::DeviceType;
use ei::error::EventError;
use ei::event::{EiEvent, SeatAdded};
use ei::set::CapabilitySet;
use host::KeptHost;
use std::process::Abort;
use std::test::Fail;

// What a test sees of an event: its kind, its handle and its time.
pub fn seen(event: EiEvent) -> (u8, u32, u64) {
    (event.kind(), event.handle(), event.time())
}

// A test that plays a session, and its converter.
#[derive(Drop)]
pub struct Player<'a, R> {
    rt: &'a R,
    pub converter: EiEventConverter<KeptHost>,
}

impl<'a, R: Abort + AllocGlobal> Player<'a, R> {
    // Begins with this serial.
    pub fn new(rt: &'a R, serial: u32) -> Result<Player<'a, R>, Fail> {
        let host = KeptHost::new(rt.alloc())?;
        let converter = EiEventConverter::new(rt.alloc(), host, serial).map_err(|_| Fail::new(
            "memory is short",
        ))?;
        Ok(Player { rt, converter })
    }

    pub fn answers(&mut self, call: Call, answer: Result<(), EventError>) {
        assert_eq!(self.rt; self.converter.handle_event(event(call)), answer);
    }

    fn set_up(&mut self) {
        for call in [
            Call::NewSeat(101),
            Call::Seat(101, SeatCall::Done),
            Call::Seat(101, SeatCall::Device(201)),
            Call::Device(201, DeviceCall::Type(DeviceType::Virtual)),
            Call::Device(201, DeviceCall::Interface(KEYBOARD)),
            Call::Device(201, DeviceCall::Done),
        ] {
            self.answers(call, Ok(()));
        }
    }

    // The next event; where there is none, the place for it is as it was.
    pub fn next(&mut self) -> Option<EiEvent> {
        let mut place = EiEvent::SeatAdded(SeatAdded { seat: 7 });
        if self.converter.next_event(&mut place) {
            return Some(place);
        }
        assert_eq!(self.rt; place.handle(), 7);
        None
    }

    pub fn plays(&mut self, line: Line) -> Result<(), Fail> {
        let rt = self.rt;
        match line {
            Line::Start(serial) => *self = Player::new(rt, serial)?,
            Line::Setup => self.set_up(),
            Line::Reading(micros) => self.converter.host.set_reading(micros),
            Line::Does(call) => self.answers(call, Ok(())),
            Line::Repeats(times, call) => {
                for _ in 0..times {
                    self.answers(call, Ok(()));
                }
            },
            Line::Refuses(call, error) => self.answers(call, Err(error)),
            Line::AddCallback(callback, ticket, answer) => assert_eq!(rt;
                self.converter.add_callback_handler(callback, ticket),
                answer
            ),
            Line::Bind(seat, set, answer) => {
                let wanted = CapabilitySet::from_bits(u64::from(set));
                let bound = wanted.map(|wanted| self.converter.bind_capabilities(seat, wanted));
                assert_eq!(rt; bound, Some(answer));
            },
            Line::Next(kind, handle, time) => assert_eq!(rt;
                self.next().map(seen),
                Some((kind, handle, time))
            ),
            Line::NoNext => assert!(rt; self.next().is_none(), "no event is queued"),
            Line::Take(note) => assert_eq!(rt; self.converter.host.take_note(), note),
            Line::Serial(serial) => assert_eq!(rt; self.converter.serial(), serial),
        }
        Ok(())
    }

    // Plays the lines; the first that gives something else fails.
    pub fn play(&mut self, lines: &[Line]) -> Result<(), Fail> {
        for line in lines {
            self.plays(*line)?;
        }
        Ok(())
    }
}

// Plays the lines with a converter that begins with serial 5.
pub fn play(rt: &(impl Abort + AllocGlobal), lines: &[Line]) -> Result<(), Fail> {
    Player::new(rt, 5)?.play(lines)
}

#[test]
fn worked(rt: HostRuntime) -> Result<(), Fail> {
    play(&rt, worked_sessions())
}
