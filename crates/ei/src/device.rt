// What a device is described by besides its name, type and dimensions.
use crate::enums::KeymapType;
use crate::text::Text;

// An area that a device can reach.
#[derive(Clone, Copy)]
pub struct Region {
    pub x: u32,
    pub y: u32,
    pub width: u32,
    pub height: u32,
    pub scale: f32,
    pub mapping_id: Option<Text>,
}

// A keymap. The descriptor is a number that the program owns.
#[derive(Clone, Copy)]
pub struct Keymap {
    pub fd: u32,
    pub size: u32,
    pub type_: KeymapType,
}
