ghost use Rattle.std.specs.Prelude.{◌≡◌, not, length, nat_le};
ghost use Rattle.ei.specs.Texts.{text_of};
ghost use Rattle.std.specs.List.{find};
ghost use Rattle.std.specs.Option.{option_map};
ghost use Rattle.tables.specs.Refusal.{refusal, checked, of_text, some_too_long};

use ei::error::EventError;
use ei::text::Text;

// What a call is short of. Flags and not one refusal, since a call may be short of several things, and `check` alone picks the one told.
#[derive(Clone, Copy)]
pub struct Shortage {
    pub long_text: bool,
    pub regions_full: bool,
    pub table_full: bool,
    pub host_full: bool,
    pub store_full: bool,
    pub handles_used_up: bool,
}

impl Shortage {
    pub const NONE: Shortage = Shortage {
        long_text: false,
        regions_full: false,
        table_full: false,
        host_full: false,
        store_full: false,
        handles_used_up: false,
    };

    // Refuses a call that is short of something, in the one order that all calls share.
    pub fn check(self) -> Result<(), EventError>
        ensures { result ≡ checked (refusal self) tt }
    {
        let shortages = [
            (self.long_text, EventError::LongText),
            (self.regions_full, EventError::RegionsFull),
            (self.table_full, EventError::TableFull),
            (self.host_full, EventError::HostFull),
            (self.store_full, EventError::StoreFull),
            (self.handles_used_up, EventError::HandlesUsedUp),
        ];
        first_of(&shortages).map_or(Ok(()), Err)
    }

    // The text to be kept, where it is short enough and nothing else is short.
    pub fn check_text(self, bytes: &[u8]) -> Result<Text, EventError>
        ensures { result ≡ checked (refusal (of_text (not (nat_le (length bytes.now) 128)) self)) (text_of bytes.now) }
    {
        let kept = Text::from_bytes(bytes);
        let all = Shortage {
            long_text: kept.is_none(),
            ..self
        };
        all.check()?;
        kept.ok_or(EventError::LongText)
    }

    // The same for a text that may be absent: a function of its own, since its answer may be absent too.
    pub fn check_explanation(self, bytes: Option<&[u8]>) -> Result<Option<Text>, EventError>
        ensures { let text = option_map (λ x. x.now) bytes.entry in result ≡ checked (refusal (of_text (some_too_long text) self)) (option_map text_of text) }
    {
        let kept = bytes.map(Text::from_bytes);
        let all = Shortage {
            long_text: matches!(kept, Some(None)),
            ..self
        };
        all.check()?;
        Ok(kept.flatten())
    }
}

// The refusal for the first thing that a call is short of.
fn first_of(shortages: &[(bool, EventError)]) -> Option<EventError>
    ensures { result ≡ option_map (λ t. t.1) (find (λ t. t.0) shortages.now) }
{
    shortages
        .iter()
        .find(|(short, _)| *short)
        .map(|(_, error)| *error)
}
