// The regions of a device. The struct stands here alone, since its invariant may not see the definitions that name it.
ghost use Rattle.std.specs.Prelude.{◌≡◌, ◌≤◌, length};

use ei::device::Region;

mod shown;

// At most eight regions, in the order of their arrival.
// Kept as an array and a count: by the project's rule of fixed memory a row is a plain value that is copied, and holds no Vec; and a
// generic struct has no array of a type parameter that regions and a text could both be.
#[derive(Clone, Copy)]
pub struct Regions {
    items: [Region; 8],
    count: usize,
    ghost long: { length items ≡ 8 },
    ghost few: { count ≤ 8 },
}
