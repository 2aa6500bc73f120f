// Each low-level event, by its interface.
ghost use Rattle.std.specs.Prelude.{◌≡◌};
ghost use Rattle.tables.specs.Rests.{Takes};
ghost use Rattle.tables.specs.Told.{told, connection_call, callback_call, seat_call, device_call};

use super::Tables;
use crate::rest::Rest;
use ei::device::Region;
use ei::error::EventError;
use ei::event::{DevicePaused, DeviceResumed, DeviceStartEmulating, DeviceStopEmulating, EiEvent};
use ei::proto::{CallbackEvent, ConnectionEvent, DeviceEvent, Event, SeatEvent};
use records::device::{Detail, Stage};
use records::standing::Key;

impl Tables {
    // Takes an event, and answers what is left of it for the host to do.
    pub fn handle(&mut self, event: Event<'_>) -> Result<Rest, EventError>
        ensures { Takes (told event.entry) self.old result self.new }
    {
        match event {
            Event::Handshake => Err(EventError::UnexpectedHandshakeEvent),
            Event::Connection(event) => self.connection_event(event),
            Event::Callback(callback, event) => self.callback_event(callback, event),
            Event::Seat(seat, event) => self.seat_event(seat, event),
            Event::Device(device, event) => self.device_event(device, event),
            Event::Keyboard(keyboard, event) => self.keyboard_event(keyboard, event),
            Event::Pointer(pointer, event) => self.pointer_event(pointer, event),
            Event::PointerAbsolute(pointer, event) => self.pointer_absolute_event(pointer, event),
            Event::Scroll(scroll, event) => self.scroll_event(scroll, event),
            Event::Button(button, event) => self.button_event(button, event),
            Event::Touchscreen(touchscreen, event) => self.touchscreen_event(touchscreen, event),
            Event::Text(text, event) => self.text_event(text, event),
        }
    }

    fn connection_event(&mut self, event: ConnectionEvent<'_>) -> Result<Rest, EventError>
        ensures { Takes (connection_call event.entry) self.old result self.new }
    {
        match event {
            ConnectionEvent::Seat { seat } => self.seat_arrives(seat),
            ConnectionEvent::Ping { ping } => Ok(Rest::Pong { ping }),
            ConnectionEvent::Disconnected {
                last_serial,
                reason,
                explanation,
            } => self.connection_ends(last_serial, reason, explanation),
            ConnectionEvent::InvalidObject {
                last_serial: _,
                invalid_id: _,
            } => Ok(Rest::Nothing),
        }
    }

    // An unknown callback is accepted.
    fn callback_event(&mut self, callback: u64, event: CallbackEvent) -> Result<Rest, EventError>
        ensures { Takes (callback_call callback event) self.old result self.new }
    {
        let CallbackEvent::Done { callback_data } = event;
        let known = self.callbacks.first(Key::live(callback));
        Ok(known.map_or(
            Rest::Nothing,
            |row| Rest::Run {
                callback,
                ticket: row.ticket,
                data: callback_data,
            },
        ))
    }

    fn seat_event(&mut self, seat: u64, event: SeatEvent<'_>) -> Result<Rest, EventError>
        ensures { Takes (seat_call seat event.entry) self.old result self.new }
    {
        match event {
            SeatEvent::Name { name } => self.seat_named(seat, name),
            SeatEvent::Capability { mask, interface } => self.seat_capable(seat, mask, interface),
            SeatEvent::Done => self.seat_ready(seat),
            SeatEvent::Device { device } => self.device_arrives(seat, device),
            SeatEvent::Destroyed { serial } => self.seat_gone(seat, serial),
        }
    }

    fn device_event(&mut self, device: u64, event: DeviceEvent<'_>) -> Result<Rest, EventError>
        ensures { Takes (device_call device event.entry) self.old result self.new }
    {
        match event {
            DeviceEvent::Name { name } => self.device_worded(device, name, Detail::Name),
            DeviceEvent::DeviceType { device_type } => self.device_told(
                device,
                Stage::Setup(Detail::Type(device_type)),
            ),
            DeviceEvent::Dimensions { width, height } => self.device_told(
                device,
                Stage::Setup(Detail::Dimensions(width, height)),
            ),
            DeviceEvent::Region {
                offset_x,
                offset_y,
                width,
                height,
                scale,
            } => self.device_placed(device, region(offset_x, offset_y, width, height, scale)),
            DeviceEvent::RegionMappingId { mapping_id } => self.device_worded(
                device,
                mapping_id,
                Detail::MappingId,
            ),
            DeviceEvent::Interface { object } => self.device_equipped(device, object),
            DeviceEvent::Done => self.device_ready(device),
            DeviceEvent::Resumed { serial } => self.says(device, serial, |device| {
                EiEvent::DeviceResumed(DeviceResumed { device, serial })
            }),
            DeviceEvent::Paused { serial } => self.says(device, serial, |device| {
                EiEvent::DevicePaused(DevicePaused { device, serial })
            }),
            DeviceEvent::StartEmulating { serial, sequence } => self.says(
                device,
                serial,
                |device| {
                    EiEvent::DeviceStartEmulating(DeviceStartEmulating {
                        device,
                        serial,
                        sequence,
                    })
                },
            ),
            DeviceEvent::StopEmulating { serial } => self.says(device, serial, |device| {
                EiEvent::DeviceStopEmulating(DeviceStopEmulating { device, serial })
            }),
            DeviceEvent::Frame { serial, timestamp } => self.device_framed(
                device, serial, timestamp,
            ),
            DeviceEvent::Destroyed { serial } => self.device_gone(device, serial),
        }
    }
}

// A region as it is told, with no mapping id yet.
fn region(x: u32, y: u32, width: u32, height: u32, scale: f32) -> Region
    ensures { result ≡ record { x = x; y = y; width = width; height = height; scale = scale; mapping_id = None } }
{
    Region {
        x,
        y,
        width,
        height,
        scale,
        mapping_id: None,
    }
}
