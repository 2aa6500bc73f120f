// What a scroll, a touchscreen and a text say.
ghost use Rattle.tables.specs.Calls.{act, utf8};
ghost use Rattle.tables.specs.Rests.{Takes};
ghost use Rattle.tables.specs.Told.{scroll_call, touchscreen_call, text_call};

use super::Tables;
use super::acts::object_of;
use crate::rest::Rest;
use crate::shortage::Shortage;
use ei::capability::DeviceCapability;
use ei::error::EventError;
use ei::event::{
    EiEvent, ScrollCancel, ScrollDelta, ScrollDiscrete, ScrollStop, TextKeysym, TextUtf8,
    TouchCancel, TouchDown, TouchMotion, TouchUp,
};
use ei::object::Object;
use ei::proto::{ScrollEvent, TextEvent, TouchscreenEvent};

// Each interface has its own events by the protocol; what their functions share is `act` and `object_gone`.
impl Tables {
    pub(super) fn scroll_event(
        &mut self,
        scroll: u64,
        event: ScrollEvent,
    ) -> Result<Rest, EventError>
        ensures { Takes (scroll_call scroll event) self.old result self.new }
    {
        let object = object_of(DeviceCapability::Scroll, scroll);
        match event {
            ScrollEvent::Scroll { x, y } => self.act(object, |device| {
                EiEvent::ScrollDelta(ScrollDelta {
                    device,
                    time: 0,
                    dx: x,
                    dy: y,
                })
            }),
            ScrollEvent::ScrollDiscrete { x, y } => self.act(object, |device| {
                EiEvent::ScrollDiscrete(ScrollDiscrete {
                    device,
                    time: 0,
                    discrete_dx: x,
                    discrete_dy: y,
                })
            }),
            ScrollEvent::ScrollStop { x, y, is_cancel } => self.act(object, |device| {
                let (x, y) = (x != 0, y != 0);
                if is_cancel != 0 {
                    EiEvent::ScrollCancel(ScrollCancel {
                        device,
                        time: 0,
                        x,
                        y,
                    })
                } else {
                    EiEvent::ScrollStop(ScrollStop {
                        device,
                        time: 0,
                        x,
                        y,
                    })
                }
            }),
            ScrollEvent::Destroyed { serial } => self.object_gone(object, serial),
        }
    }

    pub(super) fn touchscreen_event(
        &mut self,
        touchscreen: u64,
        event: TouchscreenEvent,
    ) -> Result<Rest, EventError>
        ensures { Takes (touchscreen_call touchscreen event) self.old result self.new }
    {
        let object = object_of(DeviceCapability::Touch, touchscreen);
        match event {
            TouchscreenEvent::Down { touchid, x, y } => self.act(object, |device| {
                EiEvent::TouchDown(TouchDown {
                    device,
                    time: 0,
                    touch_id: touchid,
                    x,
                    y,
                })
            }),
            TouchscreenEvent::Motion { touchid, x, y } => self.act(object, |device| {
                EiEvent::TouchMotion(TouchMotion {
                    device,
                    time: 0,
                    touch_id: touchid,
                    x,
                    y,
                })
            }),
            TouchscreenEvent::Up { touchid } => self.act(object, |device| {
                EiEvent::TouchUp(TouchUp {
                    device,
                    time: 0,
                    touch_id: touchid,
                })
            }),
            TouchscreenEvent::Cancel { touchid } => self.act(object, |device| {
                EiEvent::TouchCancel(TouchCancel {
                    device,
                    time: 0,
                    touch_id: touchid,
                })
            }),
            TouchscreenEvent::Destroyed { serial } => self.object_gone(object, serial),
        }
    }

    pub(super) fn text_event(&mut self, text: u64, event: TextEvent<'_>) -> Result<Rest, EventError>
        ensures { Takes (text_call text event.entry) self.old result self.new }
    {
        let object = object_of(DeviceCapability::Text, text);
        match event {
            TextEvent::Keysym { keysym, state } => self.act(object, |device| {
                EiEvent::TextKeysym(TextKeysym {
                    device,
                    time: 0,
                    keysym,
                    state,
                })
            }),
            TextEvent::Utf8 { text } => self.text_entered(object, text),
            TextEvent::Destroyed { serial } => self.object_gone(object, serial),
        }
    }

    fn text_entered(&mut self, object: Object, text: &[u8]) -> Result<Rest, EventError>
        ensures { Takes (act object (utf8 text.now)) self.old result self.new }
    {
        let device = self.owner(object)?;
        let short = Shortage {
            store_full: !self.store.can_hold(),
            ..Shortage::NONE
        };
        let text = short.check_text(text)?;
        self.hold(EiEvent::TextUtf8(TextUtf8 {
            device,
            time: 0,
            text,
        }))
    }
}
