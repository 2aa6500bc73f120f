// Runs a session file from standard input over a converter and a kept host, and prints what can be seen of it.
#![tactic(auto)]

use anyhow::anyhow;
use converter::convert::EiEventConverter;
use ei::error::EventError;
use ei::event::{EiEvent, SeatAdded};
use host::KeptHost;
use script::{Line, parse};
use showing::EventLine;
use std::alloc::Global;
use std::io::{BufRead, BufReader};
use std::{fmt, io};

// What is run: the converter of the session, none before the first `start`, and the buffer for the texts of its lines.
#[derive(Drop)]
struct Replay {
    heap: Global,
    session: Option<EiEventConverter<KeptHost>>,
    scratch: Vec<u8>,
}

// Prints 0 for a call that is done, else the number of its refusal.
fn print_answer(rt: &impl Print, answer: Result<(), EventError>) -> io::Result<()> {
    let number = answer.map_or_else(|error| error.number(), |()| 0);
    println!(rt; "{number}")
}

// Prints what there is, or that there is none.
fn print_or_none<T: fmt::Display + Drop>(rt: &impl Print, shown: Option<T>) -> io::Result<()> {
    match shown {
        Some(shown) => println!(rt; "{shown}"),
        None => println!(rt; "none"),
    }
}

// The oldest queued event, if there is one.
fn next(converter: &mut EiEventConverter<KeptHost>) -> Option<EiEvent> {
    let mut place = EiEvent::SeatAdded(SeatAdded { seat: 0 });
    converter.next_event(&mut place).then_some(place)
}

// One line of a running session.
fn play(
    rt: &impl Print,
    converter: &mut EiEventConverter<KeptHost>,
    line: Line<'_>,
) -> io::Result<()> {
    match line {
        Line::Skip | Line::Start { .. } => Ok(()),
        Line::Reading { micros } => {
            converter.host.set_reading(micros);
            Ok(())
        }
        Line::Take => print_or_none(rt, converter.host.take_note()),
        Line::Next => print_or_none(rt, next(converter).as_ref().map(|event| EventLine(event))),
        Line::Callback { callback, ticket } => print_answer(
            rt,
            converter.add_callback_handler(callback, ticket),
        ),
        Line::Bind { handle, set } => print_answer(rt, converter.bind_capabilities(handle, set)),
        Line::RetireSeat { handle } => print_answer(rt, converter.retire_seat(handle)),
        Line::RetireDevice { handle } => print_answer(rt, converter.retire_device(handle)),
        Line::Event(event) => print_answer(rt, converter.handle_event(event)),
    }
}

impl Replay {
    fn new(heap: Global) -> Replay {
        Replay {
            heap,
            session: None,
            scratch: Vec::new(heap),
        }
    }

    // The last line of a session is its serial.
    fn end(&self, rt: &impl Print) -> io::Result<()> {
        if let Some(converter) = &self.session {
            println!(rt; "serial {}", converter.serial())?;
        }
        Ok(())
    }

    fn start(&mut self, serial: u32) -> anyhow::Result<()> {
        let host = KeptHost::new(self.heap)?;
        let converter = EiEventConverter::new(self.heap, host, serial).map_err(|_| anyhow!(
            "no memory for the converter"
        ))?;
        self.session = Some(converter);
        Ok(())
    }

    // Takes one line, and answers whether it could be read. No error of the program for that: the room for one would be cleared at each line.
    fn take(
        &mut self,
        rt: &(impl Print + Eprint),
        number: u64,
        text: &[u8],
    ) -> anyhow::Result<bool> {
        let line = match parse(text, &mut self.scratch) {
            Ok(line) => line,
            Err(malformed) => return Ok(refused(rt, number, malformed)?),
        };
        if let Line::Start { serial } = line {
            self.end(rt)?;
            self.start(serial)?;
            return Ok(true);
        }
        match &mut self.session {
            Some(converter) => play(rt, converter, line)?,
            None if matches!(line, Line::Skip) => {}
            None => return Ok(refused(rt, number, "no session is started")?),
        }
        Ok(true)
    }
}

// Says why a line is refused.
fn refused(rt: &impl Eprint, number: u64, why: impl fmt::Display + Drop) -> io::Result<bool> {
    eprintln!(rt; "line {number}: {why}")?;
    Ok(false)
}

// A line without its line feed.
fn without_feed(line: &[u8]) -> &[u8] {
    line.strip_suffix(b"\n".as_slice()).unwrap_or(line)
}

fn run(rt: &HostRuntime, heap: Global) -> anyhow::Result<()> {
    let mut replay = Replay::new(heap);
    let mut reader = BufReader::new(heap, rt.stdin())?;
    let mut line = Vec::new(heap);
    // Lines are bytes and no text, and are read into one buffer; the library's iterator of lines makes a String of each.
    for number in 1..u64::MAX {
        line.clear();
        if reader.read_until(b'\n', &mut line)? == 0 {
            break;
        }
        if !replay.take(rt, number, without_feed(&line))? {
            return Err(anyhow!("the session file is malformed"));
        }
    }
    replay.end(rt)?;
    Ok(())
}

fn main(rt: HostRuntime) -> anyhow::Result<()> {
    run(&rt, rt.alloc())
}
