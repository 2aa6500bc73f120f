use ei::event::EiEvent;

// What is left of a call for the host to do once the tables have taken it.
#[derive(Clone, Copy)]
pub enum Rest {
    // Nothing. No Option of the other three: a call has four ends, and something else is done at each.
    Nothing,
    // An event of a device is to be queued, behind a frame at the host's reading where something is pending for the device.
    Untimed {
        device: u32,
        event: EiEvent,
    },
    // A ping is to be answered.
    Pong {
        ping: u64,
    },
    // A ticket is to be run, and its callback forgotten.
    Run {
        callback: u64,
        ticket: u32,
        data: u64,
    },
}
