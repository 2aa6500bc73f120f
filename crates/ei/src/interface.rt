// A type for the objects of each interface that a device may have, and the trait that they share.
ghost use Rattle.std.specs.Prelude.{◌≡◌, ℕ};
ghost use Rattle.ei.specs.declared.capability.DeviceCapability.{DeviceCapability as Capability};
ghost use Rattle.ei.specs.Capabilities.{interface_name};

use crate::capability::DeviceCapability;
use std::marker::PhantomData;

pub mod kinds;

// An interface, as the type of its objects.
pub trait Interface: Sized {
    ghost kind: { Capability };

    ghost numbered: { Self → ℕ };

    // Whether its objects are those of a client.
    const CLIENT_SIDE: bool;

    fn capability() -> DeviceCapability
        ensures { result ≡ kind };

    // The protocol's name of the interface.
    fn interface_name() -> &'static str
        ensures { result.now ≡ interface_name kind }
    {
        Self::capability().interface_name()
    }

    // The object of this number. By methods, since the ghost `numbered` states both in one.
    fn from_number(number: u64) -> Self
        ensures { numbered result ≡ number };

    fn number(&self) -> u64
        ensures { result ≡ numbered self.now };
}

// A kind of interface, as a type. It has no objects of its own, so it is no `Interface`.
pub trait InterfaceKind {
    ghost kind: { Capability };

    fn capability() -> DeviceCapability
        ensures { result ≡ kind };
}

// An object of an interface of kind K.
#[derive(Clone, Copy)]
pub struct InterfaceObject<K> {
    number: u64,
    kind: PhantomData<K>,
}

impl<K: InterfaceKind> Interface for InterfaceObject<K> {
    ghost kind = { K.kind };

    ghost numbered = { λ o. o.number };

    const CLIENT_SIDE: bool = true;

    fn capability() -> DeviceCapability {
        K::capability()
    }

    fn from_number(number: u64) -> InterfaceObject<K> {
        InterfaceObject {
            number,
            kind: PhantomData,
        }
    }

    fn number(&self) -> u64 {
        self.number
    }
}

pub type Pointer = InterfaceObject<kinds::Pointer>;

pub type PointerAbsolute = InterfaceObject<kinds::PointerAbsolute>;

pub type Keyboard = InterfaceObject<kinds::Keyboard>;

pub type Touchscreen = InterfaceObject<kinds::Touchscreen>;

pub type Scroll = InterfaceObject<kinds::Scroll>;

pub type Button = InterfaceObject<kinds::Button>;

pub type Text = InterfaceObject<kinds::Text>;
