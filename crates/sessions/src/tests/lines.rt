// Which lines of a session are refused, and with which message.
use script::parse;
use std::test::Fail;
use wording::Malformed;

#[test]
fn lines_that_are_refused(rt: HostRuntime) -> Result<(), Fail> {
    let mut scratch = Vec::new(rt.alloc());
    for (line, why) in [
        // no call and no event
        (b"stop".as_slice(), Malformed::UnknownWord),
        (b"seat", Malformed::UnknownWord),
        (b"take\r", Malformed::UnknownWord),
        (b"\xff 5", Malformed::UnknownWord),
        (b"lamp.done 7", Malformed::UnknownWord),
        (b"seat.gone 7", Malformed::UnknownWord),
        (b"callback.destroyed 7 8", Malformed::UnknownWord),
        (b"connection.destroyed 7", Malformed::UnknownWord),
        // a word too few or too many
        (b" next", Malformed::MissingWord),
        (b"start", Malformed::MissingWord),
        (b"start  5", Malformed::MissingWord),
        (b"bind 1", Malformed::MissingWord),
        (b"seat.name 7", Malformed::MissingWord),
        (b"device.region 7 1 2 3 4", Malformed::MissingWord),
        (b"next 1", Malformed::ExtraWord),
        (b"start 5 6", Malformed::ExtraWord),
        (b"seat.done 7 ", Malformed::ExtraWord),
        (b"keyboard.destroyed 7 8 9", Malformed::ExtraWord),
        // no number, or one outside its type
        (b"start five", Malformed::NotANumber),
        (b"start +5", Malformed::NotANumber),
        (b"start -5", Malformed::NotANumber),
        (b"start 5_0", Malformed::NotANumber),
        (b"lamp.destroyed 7 x", Malformed::NotANumber),
        (b"scroll.scroll_discrete 7 -- 1", Malformed::NotANumber),
        (b"start 4294967296", Malformed::OutOfRange),
        (b"reading 18446744073709551616", Malformed::OutOfRange),
        (
            b"scroll.scroll_discrete 7 2147483648 1",
            Malformed::OutOfRange,
        ),
        (
            b"scroll.scroll_discrete 7 1 -2147483649",
            Malformed::OutOfRange,
        ),
        // a number that its table does not have
        (b"bind 1 128", Malformed::NotInTable),
        (b"bind 1 128 9", Malformed::NotInTable),
        (b"keyboard.key 7 30 2", Malformed::NotInTable),
        (b"button.button 7 30 2", Malformed::NotInTable),
        (b"text.keysym 7 30 2", Malformed::NotInTable),
        (b"device.device_type 7 0", Malformed::NotInTable),
        (b"keyboard.keymap 7 2 1 1", Malformed::NotInTable),
        (b"connection.disconnected 7 6", Malformed::NotInTable),
        // no float, no text
        (b"pointer.motion_relative 7 1.5 2", Malformed::NotAFloat),
        (
            b"pointer.motion_relative 7 0x1234567 0x00000000",
            Malformed::NotAFloat,
        ),
        (
            b"touchscreen.down 7 1 0x00000000 0X00000000",
            Malformed::NotAFloat,
        ),
        (b"seat.name 7 desk", Malformed::BadText),
        (b"seat.name 7 \"desk", Malformed::BadText),
        (b"seat.name 7 \"desk\" ", Malformed::BadText),
        (b"text.utf8 7 \"\\n\"", Malformed::BadText),
        (b"text.utf8 7 \"\\x0g\"", Malformed::BadText),
        (b"connection.disconnected 7 0 ", Malformed::BadText),
    ] {
        assert_eq!(rt; parse(line, &mut scratch).err(), Some(why));
    }
    Ok(())
}

// What comes closest to a line that is refused, and is read.
#[test]
fn lines_that_are_read(rt: HostRuntime) -> Result<(), Fail> {
    let mut scratch = Vec::new(rt.alloc());
    for line in [
        b"".as_slice(),
        b"# stop",
        b"start 4294967295",
        b"start 00000000000000000000005",
        b"bind 1 127",
        b"scroll.scroll_discrete 7 -2147483648 2147483647",
        b"device.interface 7 lamp 8",
        b"pointer.motion_relative 7 0xFFFFFFFF 0x7fc00001",
        b"seat.name 7 \"\"",
        b"text.utf8 7 \"a b\\\\\\\"\\xFf\"",
        b"connection.disconnected 7 5",
    ] {
        assert_eq!(rt; parse(line, &mut scratch).err(), None);
    }
    Ok(())
}

#[test]
fn what_is_said_of_a_refused_line(rt: HostRuntime) -> Result<(), Fail> {
    for (why, message) in [
        (Malformed::UnknownWord, "unknown call or event"),
        (Malformed::MissingWord, "a word is missing"),
        (Malformed::ExtraWord, "a word too many"),
        (Malformed::NotANumber, "not a decimal number"),
        (Malformed::OutOfRange, "number out of range"),
        (Malformed::NotAFloat, "not 0x and eight hex digits"),
        (Malformed::BadText, "not a text in double quotes"),
        (
            Malformed::NotInTable,
            "no value of its type has this number",
        ),
        (Malformed::NoMemory, "no memory for the text"),
    ] {
        let said = format!(in rt.alloc(); "{why}")?;
        assert!(rt; said.as_str() == message);
    }
    Ok(())
}
