ghost use Rattle.std.specs.Prelude.{◌≡◌, Decides};

use crate::capability::DeviceCapability;

// An interface object: a kind and a number. Two are the same object only where both match.
#[derive(Clone, Copy, PartialEq, Eq)]
pub struct Object {
    pub kind: DeviceCapability,
    pub number: u64,
}

impl Object {
    // The derived comparison, as a clause that callers can cite.
    pub fn same(&self, other: &Object) -> bool
        ensures { Decides result (self.now ≡ other.now) }
    {
        *self == *other
    }
}
