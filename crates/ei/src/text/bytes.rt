ghost use Rattle.std.specs.Prelude.{◌≡◌, ◌≤◌, length, if◌then◌else◌, Some, None, nat_le};
ghost use Rattle.ei.specs.Texts.{text_bytes, text_of, padded, ReadAsMade, MadeAsRead};

use super::Text;

impl Text {
    // The text of these bytes; none where there are over 128. Named and answered as Rust's types of bytes have it.
    pub fn from_bytes(bytes: &[u8]) -> Option<Text>
        ensures { result ≡ (if nat_le (length bytes.now) 128 then Some (text_of bytes.now) else None) }
    {
        let len = bytes.len();
        if len > 128 {
            return None;
        }
        Some(Text {
            bytes: with_zeros(bytes),
            len,
        })
    }

    // What the text was made from.
    pub fn as_bytes(&self) -> &[u8]
        ensures value { result.now ≡ text_bytes self.now }
        ensures reads { ReadAsMade }
        ensures one { MadeAsRead }
    {
        &self.bytes[0..self.len]
    }
}

// The bytes, of which there are at most 128, with zeros behind them.
fn with_zeros(bytes: &[u8]) -> [u8; 128]
    requires { length bytes.now ≤ 128 }
    ensures { result ≡ padded 128 bytes.now }
{
    let mut buffer = [0; 128];
    buffer[..bytes.len()].copy_from_slice(bytes);
    buffer
}
