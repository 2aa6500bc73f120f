// What the three hosts answer, call by call.
ghost use Rattle.host.specs.Showing.{kept, shown};

use host::{Host, KeptHost, Note, SteadyHost, TapeHost};
use std::process::Abort;
use std::test::Fail;

// Leaves 64 notes and sees that each is taken.
fn fill<H: Host>(rt: &impl Abort, host: &mut H) {
    for data in 0..64u64 {
        assert!(rt; host.pong(7, data), "a place is to spare");
    }
}

#[test]
fn sixty_four_notes_wait(rt: HostRuntime) -> Result<(), Fail> {
    let mut host = KeptHost::new(rt.alloc())?;
    fill(&rt, &mut host);
    assert!(rt; !host.pong(7, 64), "the 65th pong is refused");
    assert!(rt; !host.run(7, 64), "the 65th run is refused");
    assert!(rt; !host.bind(7, 64), "the 65th bind is refused");
    Ok(())
}

#[test]
fn a_taken_note_gives_its_place_back(rt: HostRuntime) -> Result<(), Fail> {
    let mut host = KeptHost::new(rt.alloc())?;
    fill(&rt, &mut host);
    assert_eq!(rt; host.take_note(), Some(Note::Pong { ping: 7, data: 0 }));
    assert!(rt; host.bind(3, 5));
    assert!(rt; !host.bind(3, 6));
    for data in 1..64u64 {
        assert_eq!(rt; host.take_note(), Some(Note::Pong { ping: 7, data }));
    }
    assert_eq!(rt; host.take_note(), Some(Note::Bind { seat: 3, mask: 5 }));
    assert_eq!(rt; host.take_note(), None);
    Ok(())
}

#[test]
fn a_tape_host_keeps_notes_too(rt: HostRuntime) -> Result<(), Fail> {
    let mut host = TapeHost::new(rt.alloc(), &[4, 9])?;
    fill(&rt, &mut host);
    assert!(rt; !host.run(1, 2));
    assert_eq!(rt; host.take_note(), Some(Note::Pong { ping: 7, data: 0 }));
    assert!(rt; host.run(1, 2));
    assert_eq!(rt; host.now(), 4, "notes do not move the tape");
    Ok(())
}

#[test]
fn a_kept_reading_stays(rt: HostRuntime) -> Result<(), Fail> {
    let mut host = KeptHost::new(rt.alloc())?;
    assert_eq!(rt; host.now(), 0);
    host.set_reading(u64::MAX);
    assert_eq!(rt; host.now(), u64::MAX);
    assert_eq!(rt; host.now(), u64::MAX);
    host.set_reading(12);
    assert!(rt; host.pong(1, 2));
    assert_eq!(rt; host.now(), 12);
    Ok(())
}

#[test]
fn a_tape_of_none_reads_zero(rt: HostRuntime) -> Result<(), Fail> {
    let mut host = TapeHost::new(rt.alloc(), &[])?;
    assert_eq!(rt; host.now(), 0);
    assert_eq!(rt; host.now(), 0);
    Ok(())
}

#[test]
fn a_tape_of_one_repeats_it(rt: HostRuntime) -> Result<(), Fail> {
    let mut host = TapeHost::new(rt.alloc(), &[5])?;
    assert_eq!(rt; host.now(), 5);
    assert_eq!(rt; host.now(), 5);
    assert_eq!(rt; host.now(), 5);
    Ok(())
}

#[test]
fn a_tape_of_many_repeats_its_last(rt: HostRuntime) -> Result<(), Fail> {
    let mut host = TapeHost::new(rt.alloc(), &[5, 3, 3, 8])?;
    for reading in [5, 3, 3, 8, 8, 8] {
        assert_eq!(rt; host.now(), reading);
    }
    Ok(())
}

#[test]
fn a_steady_host_never_falls(rt: HostRuntime) -> Result<(), Fail> {
    let mut host = SteadyHost::new(TapeHost::new(rt.alloc(), &[4, 9, 2, 9, 11, 1])?);
    for reading in [4, 9, 9, 9, 11, 11, 11] {
        assert_eq!(rt; host.now(), reading);
    }
    let mut below = host.into_below();
    assert_eq!(rt; below.now(), 1);
    Ok(())
}

#[test]
fn a_steady_host_passes_notes_on(rt: HostRuntime) -> Result<(), Fail> {
    let mut host = SteadyHost::new(KeptHost::new(rt.alloc())?);
    assert!(rt; host.pong(1, 2));
    assert!(rt; host.run(3, 4));
    assert!(rt; host.bind(5, 6));
    assert_eq!(rt;
        host.below.take_note(),
        Some(Note::Pong { ping: 1, data: 2 })
    );
    assert_eq!(rt;
        host.below.take_note(),
        Some(Note::Run { ticket: 3, data: 4 })
    );
    assert_eq!(rt;
        host.below.take_note(),
        Some(Note::Bind { seat: 5, mask: 6 })
    );
    assert_eq!(rt; host.below.take_note(), None);
    Ok(())
}

// A host that has its own way of each note: it counts how it was asked.
#[derive(Drop)]
struct CountingHost {
    kept: KeptHost,
    pongs: u32,
    runs: u32,
    binds: u32,
}

impl Host for CountingHost {
    ghost state = { λ h. shown kept h.kept };

    fn now(&mut self) -> u64 {
        self.kept.now()
    }

    fn leave(&mut self, note: Note) -> bool {
        self.kept.leave(note)
    }

    fn pong(&mut self, ping: u64, data: u64) -> bool {
        self.pongs = self.pongs.saturating_add(1);
        self.kept.pong(ping, data)
    }

    fn run(&mut self, ticket: u32, data: u64) -> bool {
        self.runs = self.runs.saturating_add(1);
        self.kept.run(ticket, data)
    }

    fn bind(&mut self, seat: u64, mask: u64) -> bool {
        self.binds = self.binds.saturating_add(1);
        self.kept.bind(seat, mask)
    }
}

// The host below is asked by the same call as the steady host.
#[test]
fn a_steady_host_asks_as_it_is_asked(rt: HostRuntime) -> Result<(), Fail> {
    let mut host = SteadyHost::new(CountingHost {
        kept: KeptHost::new(rt.alloc())?,
        pongs: 0,
        runs: 0,
        binds: 0,
    });
    assert!(rt; host.pong(1, 2));
    assert!(rt; host.run(3, 4));
    assert!(rt; host.run(3, 5));
    assert!(rt; host.bind(5, 6));
    assert!(rt; host.bind(5, 7));
    assert!(rt; host.bind(5, 8));
    let CountingHost {
        pongs,
        runs,
        binds,
        ..
    } = host.into_below();
    assert_eq!(rt; (pongs, runs, binds), (1, 2, 3));
    Ok(())
}

#[test]
fn notes_are_printed(rt: HostRuntime) -> Result<(), Fail> {
    let heap = rt.alloc();
    let pong = Note::Pong {
        ping: 1,
        data: u64::MAX,
    };
    let run = Note::Run { ticket: 2, data: 0 };
    let bind = Note::Bind { seat: 3, mask: 127 };
    let printed = format!(in heap; "{pong}, {run}, {bind}")?;
    assert!(rt; printed.as_str() == "pong 1 18446744073709551615, run 2 0, bind 3 127");
    Ok(())
}
