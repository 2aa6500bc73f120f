// A host whose readings never fall, over any other.
ghost use Rattle.std.specs.Prelude.{◌≡◌, ◌≤◌};
ghost use Rattle.host.specs.Leaving.{WaitsOn};
ghost use Rattle.host.specs.Showing.{steadied, LargestStays};

use crate::{Host, Note};

#[derive(Drop)]
pub struct SteadyHost<H> {
    pub below: H,
    largest: u64,
}

impl<H: Host> SteadyHost<H> {
    // No reading was given yet.
    pub fn new(below: H) -> SteadyHost<H>
        ensures below { result.below ≡ below }
        ensures largest { result.largest ≡ 0 }
    {
        SteadyHost { below, largest: 0 }
    }

    // The host below.
    pub fn into_below(self) -> H
        ensures { result ≡ self.below }
    {
        let SteadyHost { below, largest: _ } = self;
        below
    }
}

impl<H: Host> Host for SteadyHost<H> {
    // The reading is the larger of the reading below and the largest that was given.
    ghost state = { steadied H.state };

    // The largest reading that was given stays, and below what stays there.
    ghost stays = { LargestStays H.stays };

    // What is answered becomes the largest that was given.
    fn now(&mut self) -> u64
        ensures value { result ≡ (steadied H.state self.old).reading }
        ensures waits { WaitsOn (steadied H.state self.old) (steadied H.state self.new) }
        ensures largest { self.new.largest ≡ result }
        ensures rises { result ≤ (steadied H.state self.new).reading }
    {
        let reading = self.below.now().max(self.largest);
        self.largest = reading;
        reading
    }

    fn leave(&mut self, note: Note) -> bool {
        self.below.leave(note)
    }

    // The host below is asked as this one is, since it may have its own way of each.
    fn pong(&mut self, ping: u64, data: u64) -> bool {
        self.below.pong(ping, data)
    }

    fn run(&mut self, ticket: u32, data: u64) -> bool {
        self.below.run(ticket, data)
    }

    fn bind(&mut self, seat: u64, mask: u64) -> bool {
        self.below.bind(seat, mask)
    }
}
