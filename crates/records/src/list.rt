// What a device lists. The struct stands here alone, since its invariant may not see the definitions that name it.
ghost use Rattle.std.specs.Prelude.{◌≡◌, length};

mod entries;

// An object that a device lists, and whether the device's handle owns it.
#[derive(Clone, Copy)]
pub struct Entry {
    pub object: u64,
    pub owned: bool,
}

// At most one object of each interface kind, by the kind's index.
// Kept as an array: by the project's rule of fixed memory a row is a plain value that is copied, and holds no map; and a generic struct
// has no array of a type parameter that a list and a seat's masks could both be.
#[derive(Clone, Copy)]
pub struct InterfaceList {
    entries: [Option<Entry>; 7],
    ghost long: { length entries ≡ 7 },
}
