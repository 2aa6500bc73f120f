ghost use Rattle.std.specs.Prelude.{◌≡◌};
ghost use Rattle.records.specs.Devices.{new_description, described, new_device, device_taken, device_stepped};

use crate::list::{Entry, InterfaceList};
use crate::regions::Regions;
use crate::standing::{Head, Headed, Record, Standing};
use ei::capability::DeviceCapability;
use ei::device::{Keymap, Region};
use ei::enums::DeviceType;
use ei::object::Object;
use ei::text::Text;

// What the server says of a device while it is set up, besides its interfaces.
#[derive(Clone, Copy)]
pub struct Description {
    pub name: Option<Text>,
    pub device_type: Option<DeviceType>,
    pub dimensions: Option<(u32, u32)>,
    pub regions: Regions,
    pub mapping_id: Option<Text>,
    pub keymap: Option<Keymap>,
}

// What is kept of a device. The seat goes by its handle.
#[derive(Clone, Copy)]
pub struct DeviceRow {
    pub head: Head,
    pub seat: u32,
    pub description: Description,
    pub list: InterfaceList,
}

// One detail of a description. A region is given without its mapping id.
#[derive(Clone, Copy)]
pub enum Detail {
    Name(Text),
    Type(DeviceType),
    Dimensions(u32, u32),
    Region(Region),
    MappingId(Text),
    Keymap(Keymap),
}

// What the server says of a device; what comes of it depends on how the device stands.
#[derive(Clone, Copy)]
pub enum Stage {
    Setup(Detail),
    Interface(Object),
    Done(u32),
    Destroyed,
}

// GiveUp ends the ownership of all that a list has, and Forget drops the entry of a kind, however the device stands.
#[derive(Clone, Copy)]
pub enum DeviceStep {
    Take(Stage),
    GiveUp(InterfaceList),
    Forget(DeviceCapability),
}

impl Description {
    pub fn new() -> Description
        ensures { result ≡ new_description }
    {
        Description {
            name: None,
            device_type: None,
            dimensions: None,
            regions: Regions::new(),
            mapping_id: None,
            keymap: None,
        }
    }

    fn tell(&mut self, detail: Detail)
        ensures { self.new ≡ described detail self.old }
    {
        match detail {
            Detail::Name(name) => self.name = Some(name),
            Detail::Type(device_type) => self.device_type = Some(device_type),
            Detail::Dimensions(width, height) => self.dimensions = Some((width, height)),
            Detail::Region(region) => {
                // the latest mapping id goes to the next region and is used up
                let mapping_id = self.mapping_id.take();
                self.regions.push(Region {
                    mapping_id,
                    ..region
                });
            }
            Detail::MappingId(id) => self.mapping_id = Some(id),
            Detail::Keymap(keymap) => self.keymap = Some(keymap),
        }
    }
}

impl DeviceRow {
    pub fn new(number: u64, seat: u32) -> DeviceRow
        ensures { result ≡ new_device number seat }
    {
        DeviceRow {
            head: Head::new(number),
            seat,
            description: Description::new(),
            list: InterfaceList::new(),
        }
    }

    fn take(&mut self, stage: Stage)
        ensures { self.new ≡ device_taken self.old.head.standing stage self.old }
    {
        match (self.head.standing, stage) {
            (Standing::Pending, Stage::Setup(detail)) => self.description.tell(detail),
            (Standing::Pending, Stage::Interface(object)) => self.list.put(
                object.kind,
                Some(Entry {
                    object: object.number,
                    owned: false,
                }),
            ),
            (Standing::Pending, Stage::Done(handle)) => {
                self.head.go_live(handle);
                self.list.own_all();
            }
            (Standing::Live, Stage::Done(_)) => self.head.detach(),
            (Standing::Live, Stage::Destroyed) => {
                self.head.detach();
                self.list = InterfaceList::new();
            }
            _ => {}
        }
    }
}

impl Headed for DeviceRow {
    ghost head_of = { λ row. row.head };

    fn head(&self) -> &Head {
        &self.head
    }
}

impl Record for DeviceRow {
    type Step = DeviceStep;

    ghost stepped = { device_stepped };

    fn step(&mut self, step: DeviceStep) {
        match step {
            DeviceStep::Take(stage) => self.take(stage),
            DeviceStep::GiveUp(list) => self.list.give_up(list),
            DeviceStep::Forget(kind) => self.list.put(kind, None),
        }
    }
}
