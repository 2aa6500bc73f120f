// A set of capabilities. The struct stands here alone, since its invariant may not see the definitions that name it.
ghost use Rattle.std.specs.Prelude.{◌≡◌, ◌^◌, ◌<◌, ◌≤◌, MatchOption};
ghost use Rattle.ei.specs.Capabilities.{member};

use crate::capability::DeviceCapability;

// Some of the seven capabilities, one bit each, by index.
#[derive(Clone, Copy)]
pub struct CapabilitySet {
    bits: u64,
    ghost seven: { bits < 2 ^ 7 },
}

impl CapabilitySet {
    // The set of a number of seven bits; a number with a higher bit makes none. Named and answered as Rust's bit sets have it.
    pub fn from_bits(bits: u64) -> Option<CapabilitySet>
        ensures { MatchOption result (2 ^ 7 ≤ bits) (λ s. s.bits ≡ bits) }
    {
        if bits < 128 {
            Some(CapabilitySet { bits })
        } else {
            None
        }
    }

    pub fn bits(self) -> u64
        ensures { result ≡ self.bits }
    {
        self.bits
    }

    pub fn contains(self, capability: DeviceCapability) -> bool
        ensures { result ≡ member self.bits capability }
    {
        (self.bits >> capability.index()) % 2 == 1
    }
}
