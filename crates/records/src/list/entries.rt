ghost use Rattle.std.specs.Prelude.{◌≡◌};
ghost use Rattle.records.specs.Listing.{entry_at, no_entries, with_entry, all_owned, given_up, lists, owns, owned_entry, disowned_entry};

use super::{Entry, InterfaceList};
use ei::capability::DeviceCapability;
use ei::object::Object;

impl InterfaceList {
    #[tactic(auto, using(crate::proofs::Listing::same_list), unfolding(crate::specs::Listing::no_entries))]
    pub fn new() -> InterfaceList
        ensures { result ≡ no_entries }
    {
        InterfaceList { entries: [None; 7] }
    }

    pub fn get(&self, kind: DeviceCapability) -> Option<Entry>
        ensures { result ≡ entry_at self.now kind }
    {
        self.entries[kind.index()]
    }

    // Another entry for a kind, or none.
    #[tactic(auto, using(crate::proofs::Listing::same_list), unfolding(crate::specs::Listing::with_entry))]
    pub fn put(&mut self, kind: DeviceCapability, entry: Option<Entry>)
        ensures { self.new ≡ with_entry kind entry self.old }
    {
        self.entries[kind.index()] = entry;
    }

    pub fn lists(&self, object: Object) -> bool
        ensures { result ≡ lists object self.now }
    {
        self.get(object.kind)
            .is_some_and(|entry| entry.object == object.number)
    }

    pub fn owns(&self, object: Object) -> bool
        ensures { result ≡ owns object self.now }
    {
        self.get(object.kind)
            .is_some_and(|entry| entry.owned && entry.object == object.number)
    }

    // All that is listed is owned.
    pub fn own_all(&mut self)
        ensures { self.new ≡ all_owned self.old }
    {
        self.entries = self.entries.map(owned);
    }

    // Nothing that the other list has is owned any more.
    pub fn give_up(&mut self, other: InterfaceList)
        ensures { self.new ≡ given_up other self.old }
    {
        for (kind, entry) in self.entries.iter_mut().enumerate() {
            *entry = disowned(other.entries[kind], *entry);
        }
    }
}

fn owned(entry: Option<Entry>) -> Option<Entry>
    ensures { result ≡ owned_entry entry }
{
    entry.map(|entry| Entry {
        owned: true,
        ..entry
    })
}

// The entry as it is once another device has taken over, or ended, the other list's object of this kind.
fn disowned(other: Option<Entry>, entry: Option<Entry>) -> Option<Entry>
    ensures { result ≡ disowned_entry other entry }
{
    match (other, entry) {
        (Some(other), Some(entry)) if other.object == entry.object => Some(Entry {
            owned: false,
            ..entry
        }),
        _ => entry,
    }
}
