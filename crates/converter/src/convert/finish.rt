// How a call that the tables took is finished with the host.
ghost use Rattle.std.specs.Prelude.{◌≡◌, if◌then◌else◌, Ok};
ghost use Rattle.store.specs.Moves.{has_pending};
ghost use Rattle.tables.specs.Model.{time_asked, nothing_asked};
ghost use Rattle.tables.specs.Rests.{finish};
ghost use Rattle.tables.specs.Rules.{untimed_queued};
ghost use Rattle.converter.specs.Contract.{model, view, WasAsked, Comes};

use super::EiEventConverter;
use ei::error::EventError;
use ei::event::EiEvent;
use host::Host;
use tables::rest::Rest;

impl<H: Host> EiEventConverter<H> {
    // Does what is left of a call.
    pub(super) fn finish(&mut self, rest: Rest) -> Result<(), EventError>
        ensures { Comes H.state H.stays (finish (view (H.state self.old.host)) (Ok rest) (model self.old)) result self.old self.new }
    {
        match rest {
            Rest::Nothing => Ok(()),
            Rest::Untimed { device, event } => {
                self.queue_untimed(device, event);
                Ok(())
            }
            Rest::Pong { ping } => EventError::HostFull.unless(self.host.pong(ping, 0)),
            Rest::Run {
                callback,
                ticket,
                data,
            } => {
                EventError::HostFull.unless(self.host.run(ticket, data))?;
                self.tables.forget_callback(callback);
                Ok(())
            }
        }
    }

    // Queues an untimed event of a device, behind the frame that it may force.
    #[tactic(auto, using(crate::proofs::Frames::forced_time))]
    fn queue_untimed(&mut self, device: u32, event: EiEvent)
        ensures { Comes H.state H.stays (untimed_queued (view (H.state self.old.host)) device event (model self.old)) (Ok tt) self.old self.new }
    {
        let time = self.frame_time(device);
        self.tables.queue_untimed(device, time, event);
    }

    // The time of the frame that an event of a device forces: the host's reading. Where it forces none the host is not asked.
    fn frame_time(&mut self, device: u32) -> u64
        ensures time { result ≡ (if has_pending device (model self.old).store then (H.state self.old.host).reading else 0) }
        ensures left { model self.new ≡ model self.old }
        ensures asked { WasAsked H.state H.stays (if has_pending device (model self.old).store then time_asked else nothing_asked) self.old.host self.new.host }
    {
        if self.tables.has_pending(device) {
            self.host.now()
        } else {
            0
        }
    }
}
