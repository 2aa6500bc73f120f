ghost use Rattle.std.specs.Prelude.{◌≡◌, ◌<◌, MatchOption, ◌≢◌, bit_or, if◌then◌else◌};
ghost use Rattle.ei.specs.Capabilities.{index_of, interface_name, mask_of, member, mask_at, no_masks, with_mask};

use crate::set::CapabilitySet;

// What a device can do, one for each interface that a device may list; also the kind of an interface object.
#[derive(Clone, Copy, PartialEq, Eq, Debug)]
pub enum DeviceCapability {
    Pointer = 0,
    PointerAbsolute = 1,
    Keyboard = 2,
    Touch = 3,
    Scroll = 4,
    Button = 5,
    Text = 6,
}

impl DeviceCapability {
    // All seven, in the order of their indices.
    pub const ALL: [DeviceCapability; 7] = [
        DeviceCapability::Pointer,
        DeviceCapability::PointerAbsolute,
        DeviceCapability::Keyboard,
        DeviceCapability::Touch,
        DeviceCapability::Scroll,
        DeviceCapability::Button,
        DeviceCapability::Text,
    ];

    // The place of the capability in a set, a map and an interface list, from 0: a place in an array, so a usize and no From.
    pub fn index(self) -> usize
        ensures value { result ≡ index_of self }
        ensures below { result < 7 }
    {
        self as usize
    }

    // The protocol's name of the interface.
    pub fn interface_name(self) -> &'static str
        ensures { result.now ≡ interface_name self }
    {
        match self {
            DeviceCapability::Pointer => "ei_pointer",
            DeviceCapability::PointerAbsolute => "ei_pointer_absolute",
            DeviceCapability::Keyboard => "ei_keyboard",
            DeviceCapability::Touch => "ei_touchscreen",
            DeviceCapability::Scroll => "ei_scroll",
            DeviceCapability::Button => "ei_button",
            DeviceCapability::Text => "ei_text",
        }
    }

    // The capability whose interface has this name; none for any other name. That the seven names are the cases of a match is a form fixed
    // by a rule of the project.
    pub fn from_interface_name(name: &str) -> Option<DeviceCapability>
        ensures { MatchOption result ((c : DeviceCapability) → name.now ≢ interface_name c) (λ c. name.now ≡ interface_name c) }
    {
        match name {
            "ei_pointer" => Some(DeviceCapability::Pointer),
            "ei_pointer_absolute" => Some(DeviceCapability::PointerAbsolute),
            "ei_keyboard" => Some(DeviceCapability::Keyboard),
            "ei_touchscreen" => Some(DeviceCapability::Touch),
            "ei_scroll" => Some(DeviceCapability::Scroll),
            "ei_button" => Some(DeviceCapability::Button),
            "ei_text" => Some(DeviceCapability::Text),
            _ => None,
        }
    }
}

// The mask by which a seat's server knows each capability; 0 until it is set. An array, as a device's interface list has one: fixed
// memory, and a generic struct has no array of a type parameter that both could be.
#[derive(Clone, Copy)]
pub struct CapabilityMap {
    masks: [u64; 7],
}

impl CapabilityMap {
    pub fn new() -> CapabilityMap
        ensures { result ≡ no_masks }
    {
        CapabilityMap { masks: [0; 7] }
    }

    pub fn get(&self, capability: DeviceCapability) -> u64
        ensures { result ≡ mask_at self.now capability }
    {
        self.masks[capability.index()]
    }

    pub fn set(&mut self, capability: DeviceCapability, mask: u64)
        ensures { self.new ≡ with_mask capability mask self.old }
    {
        self.masks[capability.index()] = mask;
    }

    // The mask that binds a set of capabilities: the bitwise or of its members' masks.
    pub fn mask_of(&self, wanted: CapabilitySet) -> u64
        ensures { result ≡ mask_of self.now wanted.bits }
    {
        DeviceCapability::ALL.iter().fold(
            0,
            |mask, capability| self.joined(mask, *capability, wanted),
        )
    }

    // A mask, joined with that of a capability if the set has it.
    fn joined(&self, mask: u64, capability: DeviceCapability, wanted: CapabilitySet) -> u64
        ensures { result ≡ (if member wanted.bits capability then bit_or mask (mask_at self.now capability) else mask) }
    {
        if wanted.contains(capability) {
            mask | self.get(capability)
        } else {
            mask
        }
    }
}
