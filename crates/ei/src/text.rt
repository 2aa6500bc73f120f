// A bounded text. The struct stands here alone, since its invariant may not see the definitions that name it.
ghost use Rattle.std.specs.Prelude.{◌≡◌, ℕ, ◌≤◌, length, slice_index};

pub mod bytes;

// A text of at most 128 bytes, with zeros behind its end. It lies in its row or event, in fixed memory: no call allocates. A
// generic struct has no array of a type parameter that a text and a device's regions could both be.
#[derive(Clone, Copy)]
pub struct Text {
    bytes: [u8; 128],
    len: usize,
    ghost long: { length bytes ≡ 128 },
    ghost fits: { len ≤ 128 },
    ghost blank: { (k : ℕ) → len ≤ k → slice_index bytes k ≡ 0 },
}
