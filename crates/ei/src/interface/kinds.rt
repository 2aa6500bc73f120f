// The seven kinds of interface that a device may have.
ghost use Rattle.ei.specs.declared.capability.DeviceCapability.TheVariants as capabilities;

use super::InterfaceKind;
use crate::capability::DeviceCapability;

#[derive(Clone, Copy)]
pub struct Pointer;

impl InterfaceKind for Pointer {
    ghost kind = { capabilities.Pointer };

    fn capability() -> DeviceCapability {
        DeviceCapability::Pointer
    }
}

#[derive(Clone, Copy)]
pub struct PointerAbsolute;

impl InterfaceKind for PointerAbsolute {
    ghost kind = { capabilities.PointerAbsolute };

    fn capability() -> DeviceCapability {
        DeviceCapability::PointerAbsolute
    }
}

#[derive(Clone, Copy)]
pub struct Keyboard;

impl InterfaceKind for Keyboard {
    ghost kind = { capabilities.Keyboard };

    fn capability() -> DeviceCapability {
        DeviceCapability::Keyboard
    }
}

#[derive(Clone, Copy)]
pub struct Touchscreen;

impl InterfaceKind for Touchscreen {
    ghost kind = { capabilities.Touch };

    fn capability() -> DeviceCapability {
        DeviceCapability::Touch
    }
}

#[derive(Clone, Copy)]
pub struct Scroll;

impl InterfaceKind for Scroll {
    ghost kind = { capabilities.Scroll };

    fn capability() -> DeviceCapability {
        DeviceCapability::Scroll
    }
}

#[derive(Clone, Copy)]
pub struct Button;

impl InterfaceKind for Button {
    ghost kind = { capabilities.Button };

    fn capability() -> DeviceCapability {
        DeviceCapability::Button
    }
}

#[derive(Clone, Copy)]
pub struct Text;

impl InterfaceKind for Text {
    ghost kind = { capabilities.Text };

    fn capability() -> DeviceCapability {
        DeviceCapability::Text
    }
}
