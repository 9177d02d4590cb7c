//! What an asker calls itself.
ghost use Rattle.std.specs.Prelude.{◌≡◌, ◌≤◌, true, is_some, length};
ghost use Rattle.std.specs.List.{list_all};
ghost use Rattle.cue_asker.specs.Naming as said;

/// The most bytes of a name.
pub const MAX_NAME: usize = 16;

/// The name by which an asker says who it is: a to z, digits and `-`, 1 to 16 bytes. Nothing in it means anything to
/// OSC, to a terminal or to a page.
#[derive(Clone, Copy, PartialEq, Eq, Debug)]
pub struct AskerName {
    // The name, with zeros after it.
    bytes: [u8; MAX_NAME],
    len: u8,
}

// Whether a byte may stand in a name.
fn is_sign(byte: u8) -> bool
    ensures { result ≡ said.is_sign byte }
{
    byte.is_ascii_lowercase() || byte.is_ascii_digit() || byte == b'-'
}

// Whether the text is as long as a name.
fn has_length(text: &[u8]) -> bool
    ensures value { result ≡ said.has_length text.now }
    ensures short { result ≡ true → length text.now ≤ 16 }
{
    1 <= text.len() && text.len() <= MAX_NAME
}

// Whether each byte of the text may stand in a name.
fn has_signs(text: &[u8]) -> bool
    ensures { result ≡ list_all said.is_sign text.now }
{
    text.iter().all(|byte| is_sign(*byte))
}

// Whether the text is a name.
fn is_name(text: &[u8]) -> bool
    ensures { result ≡ said.is_name text.now }
{
    has_length(text) && has_signs(text)
}

impl AskerName {
    /// The name that the text is; none if it is empty, longer than 16 bytes, or has another sign.
    pub fn read(text: &[u8]) -> Option<AskerName>
        ensures { is_some result ≡ said.is_name text.now }
    {
        if !is_name(text) {
            return None;
        }
        let mut bytes = [0; MAX_NAME];
        for (place, byte) in bytes.iter_mut().zip(text) {
            *place = *byte;
        }
        Some(AskerName {
            bytes,
            len: u8::try_from(text.len()).unwrap_or(0),
        })
    }

    /// The name as text.
    pub fn text(&self) -> &[u8] {
        self.bytes.get(..usize::from(self.len)).unwrap_or(&[])
    }
}
