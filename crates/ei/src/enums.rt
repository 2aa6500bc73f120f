// The protocol's enums. Each case has the number that stands for it on the wire. Each enum is a type of its own by the protocol, two of
// the same cases too, and so has its own two conversions.
ghost use Rattle.std.specs.Prelude.{◌≡◌};
ghost use Rattle.ei.specs.Numbers.{button_state, device_type, disconnect_reason, key_state, keymap_type, CaseOf};

// A number that no case of an enum has.
#[derive(Clone, Copy, PartialEq, Eq, Debug)]
pub struct NoSuchCase(pub u32);

// Whether a button is down.
#[derive(Clone, Copy, PartialEq, Eq, Debug)]
pub enum ButtonState {
    Released = 0,
    Press = 1,
}

impl From<ButtonState> for u32 {
    ghost from_gives = { λ state number. number ≡ button_state state };

    fn from(state: ButtonState) -> u32 {
        state as u32
    }
}

impl TryFrom<u32> for ButtonState {
    type Error = NoSuchCase;

    ghost try_from_gives = { CaseOf button_state };

    fn try_from(number: u32) -> Result<ButtonState, NoSuchCase> {
        match number {
            0 => Ok(ButtonState::Released),
            1 => Ok(ButtonState::Press),
            _ => Err(NoSuchCase(number)),
        }
    }
}

// Whether a key is down.
#[derive(Clone, Copy, PartialEq, Eq, Debug)]
pub enum KeyState {
    Released = 0,
    Press = 1,
}

impl From<KeyState> for u32 {
    ghost from_gives = { λ state number. number ≡ key_state state };

    fn from(state: KeyState) -> u32 {
        state as u32
    }
}

impl TryFrom<u32> for KeyState {
    type Error = NoSuchCase;

    ghost try_from_gives = { CaseOf key_state };

    fn try_from(number: u32) -> Result<KeyState, NoSuchCase> {
        match number {
            0 => Ok(KeyState::Released),
            1 => Ok(KeyState::Press),
            _ => Err(NoSuchCase(number)),
        }
    }
}

// How a keymap is to be read.
#[derive(Clone, Copy, PartialEq, Eq, Debug)]
pub enum KeymapType {
    Xkb = 1,
}

impl From<KeymapType> for u32 {
    ghost from_gives = { λ kind number. number ≡ keymap_type kind };

    fn from(kind: KeymapType) -> u32 {
        kind as u32
    }
}

impl TryFrom<u32> for KeymapType {
    type Error = NoSuchCase;

    ghost try_from_gives = { CaseOf keymap_type };

    fn try_from(number: u32) -> Result<KeymapType, NoSuchCase> {
        match number {
            1 => Ok(KeymapType::Xkb),
            _ => Err(NoSuchCase(number)),
        }
    }
}

// Whether a device stands for input on a screen, or for a device that could be plugged in.
#[derive(Clone, Copy, PartialEq, Eq, Debug)]
pub enum DeviceType {
    Virtual = 1,
    Physical = 2,
}

impl From<DeviceType> for u32 {
    ghost from_gives = { λ kind number. number ≡ device_type kind };

    fn from(kind: DeviceType) -> u32 {
        kind as u32
    }
}

impl TryFrom<u32> for DeviceType {
    type Error = NoSuchCase;

    ghost try_from_gives = { CaseOf device_type };

    fn try_from(number: u32) -> Result<DeviceType, NoSuchCase> {
        match number {
            1 => Ok(DeviceType::Virtual),
            2 => Ok(DeviceType::Physical),
            _ => Err(NoSuchCase(number)),
        }
    }
}

// Why the server ended the connection; all but the first are errors.
#[derive(Clone, Copy, PartialEq, Eq, Debug)]
pub enum DisconnectReason {
    Disconnected = 0,
    Error = 1,
    Mode = 2,
    Protocol = 3,
    Value = 4,
    Transport = 5,
}

impl From<DisconnectReason> for u32 {
    ghost from_gives = { λ reason number. number ≡ disconnect_reason reason };

    fn from(reason: DisconnectReason) -> u32 {
        reason as u32
    }
}

impl TryFrom<u32> for DisconnectReason {
    type Error = NoSuchCase;

    ghost try_from_gives = { CaseOf disconnect_reason };

    fn try_from(number: u32) -> Result<DisconnectReason, NoSuchCase> {
        match number {
            0 => Ok(DisconnectReason::Disconnected),
            1 => Ok(DisconnectReason::Error),
            2 => Ok(DisconnectReason::Mode),
            3 => Ok(DisconnectReason::Protocol),
            4 => Ok(DisconnectReason::Value),
            5 => Ok(DisconnectReason::Transport),
            _ => Err(NoSuchCase(number)),
        }
    }
}
