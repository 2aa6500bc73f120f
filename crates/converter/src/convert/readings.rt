// What can be read of a converter. A reading changes nothing.
ghost use Rattle.std.specs.Prelude.{◌≡◌, is_some, Some, None, IfOk, IfErr};
ghost use Rattle.std.specs.Option.{option_map};
ghost use Rattle.ei.specs.Capabilities.{mask_at};
ghost use Rattle.ei.specs.declared.error.EventError.TheVariants as refusals;
ghost use Rattle.records.specs.Listing.{entry_at};
ghost use Rattle.tables.specs.Model.{Bounded};
ghost use Rattle.converter.specs.Contract.{model, seat_at, device_at, of_seat, of_device, shown_as};

use super::EiEventConverter;
use ei::capability::DeviceCapability;
use ei::device::Keymap;
use ei::enums::DeviceType;
use ei::error::EventError;
use ei::interface::Interface;
use ei::text::Text;
use host::Host;
use records::device::DeviceRow;
use records::regions::Regions;
use records::seat::SeatRow;

impl<H: Host> EiEventConverter<H> {
    // The last serial that the server sent.
    pub fn serial(&self) -> u32
        ensures value { result ≡ (model self.now).serial }
        ensures bounds { Bounded (model self.now) }
    {
        self.tables.serial()
    }

    // The record of a seat.
    pub(super) fn seat_row(&self, seat: u32) -> Result<&SeatRow, EventError>
        ensures found { IfOk result (λ row. seat_at seat (model self.now) ≡ Some row.now) }
        ensures missing { IfErr result (λ e. (seat_at seat (model self.now) ≡ None) × (e ≡ refusals.NoSuchHandle)) }
    {
        self.tables.seat(seat).ok_or(EventError::NoSuchHandle)
    }

    // The record of a device.
    fn device_row(&self, device: u32) -> Result<&DeviceRow, EventError>
        ensures found { IfOk result (λ row. device_at device (model self.now) ≡ Some row.now) }
        ensures missing { IfErr result (λ e. (device_at device (model self.now) ≡ None) × (e ≡ refusals.NoSuchHandle)) }
    {
        self.tables.device(device).ok_or(EventError::NoSuchHandle)
    }

    // The number by which the server knows a seat.
    pub fn seat_number(&self, seat: u32) -> Result<u64, EventError>
        ensures { result ≡ of_seat seat (λ row. row.head.number) (model self.now) }
    {
        Ok(self.seat_row(seat)?.head.number)
    }

    pub fn seat_name(&self, seat: u32) -> Result<Option<Text>, EventError>
        ensures { result ≡ of_seat seat (λ row. row.name) (model self.now) }
    {
        Ok(self.seat_row(seat)?.name)
    }

    // The mask by which a seat's server knows a capability; 0 where it gave none.
    pub fn seat_mask(&self, seat: u32, capability: DeviceCapability) -> Result<u64, EventError>
        ensures { result ≡ of_seat seat (λ row. mask_at row.masks capability) (model self.now) }
    {
        Ok(self.seat_row(seat)?.masks.get(capability))
    }

    // The number by which the server knows a device.
    pub fn device_number(&self, device: u32) -> Result<u64, EventError>
        ensures { result ≡ of_device device (λ row. row.head.number) (model self.now) }
    {
        Ok(self.device_row(device)?.head.number)
    }

    // The handle of a device's seat.
    pub fn device_seat(&self, device: u32) -> Result<u32, EventError>
        ensures { result ≡ of_device device (λ row. row.seat) (model self.now) }
    {
        Ok(self.device_row(device)?.seat)
    }

    pub fn device_name(&self, device: u32) -> Result<Option<Text>, EventError>
        ensures { result ≡ of_device device (λ row. row.description.name) (model self.now) }
    {
        Ok(self.device_row(device)?.description.name)
    }

    pub fn device_type(&self, device: u32) -> Result<Option<DeviceType>, EventError>
        ensures { result ≡ of_device device (λ row. row.description.device_type) (model self.now) }
    {
        Ok(self.device_row(device)?.description.device_type)
    }

    // Width and height.
    pub fn device_dimensions(&self, device: u32) -> Result<Option<(u32, u32)>, EventError>
        ensures { result ≡ of_device device (λ row. row.description.dimensions) (model self.now) }
    {
        Ok(self.device_row(device)?.description.dimensions)
    }

    pub fn device_regions(&self, device: u32) -> Result<Regions, EventError>
        ensures { result ≡ of_device device (λ row. row.description.regions) (model self.now) }
    {
        Ok(self.device_row(device)?.description.regions)
    }

    pub fn device_keymap(&self, device: u32) -> Result<Option<Keymap>, EventError>
        ensures { result ≡ of_device device (λ row. row.description.keymap) (model self.now) }
    {
        Ok(self.device_row(device)?.description.keymap)
    }

    // Whether a device lists an object of a capability's interface.
    pub fn has_capability(
        &self,
        device: u32,
        capability: DeviceCapability,
    ) -> Result<bool, EventError>
        ensures { result ≡ of_device device (λ row. is_some (entry_at row.list capability)) (model self.now) }
    {
        Ok(self.device_row(device)?.list.get(capability).is_some())
    }

    // The object that a device lists for an interface, as that interface's type.
    pub fn interface<T: Interface>(&self, device: u32) -> Result<Option<T>, EventError>
        ensures { shown_as T.numbered result ≡ of_device device (λ row. option_map (λ e. e.object) (entry_at row.list T.kind)) (model self.now) }
    {
        let entry = self.device_row(device)?.list.get(T::capability());
        Ok(entry.map(|entry| T::from_number(entry.object)))
    }
}
