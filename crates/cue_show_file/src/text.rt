//! The text of a cue number, and of the bytes of a part.
ghost use Rattle.std.specs.Prelude.{◌≡◌, ◌&&◌, IfSome, IsTrue, None, false, option_copied, option_map};
ghost use Rattle.std.specs.List.{list_all};
ghost use Rattle.cue_show_file.specs.Plain.{is_plain, is_plain_sign, plain_of};

use cue_show::CueNo;
use std::str;

/// The number of a cue as a text, for files and for people.
pub fn cue_text(cue: &CueNo) -> &str
    ensures { result.now ≡ cue.now }
{
    match str::from_utf8(cue.text()) {
        Ok(text) => text,
        Err(_) => unreachable!(),
    }
}

// Whether a byte is a sign of ASCII that is printed and needs no escape: no quote and no backslash.
#[tactic(auto, unfolding(crate::specs::Plain::is_plain_sign))]
fn is_plain_sign(byte: u8) -> bool
    ensures { result ≡ is_plain_sign byte }
{
    (byte >= b' ' && byte <= b'~') && (byte != b'"' && byte != b'\\')
}

// Whether each byte is such a sign.
fn are_plain_signs(bytes: &[u8]) -> bool
    ensures { result ≡ list_all is_plain_sign bytes.now }
{
    bytes.iter().all(|byte| is_plain_sign(*byte))
}

// Whether bytes are plain text: one at least, and each such a sign.
fn is_plain(bytes: &[u8]) -> bool
    ensures { result ≡ is_plain bytes.now }
{
    !bytes.is_empty() && are_plain_signs(bytes)
}

/// The bytes of a part as a text, if they are plain text: one byte at least, and each a sign of ASCII that is
/// printed, no quote and no backslash. A show file that is written of a store has them as `text`, and all others as
/// `hex`.
pub fn plain_text(bytes: &[u8]) -> Option<&str>
    ensures { option_copied result ≡ plain_of bytes.now }
{
    if !is_plain(bytes) {
        return None;
    }
    match str::from_utf8(bytes) {
        Ok(text) => Some(text),
        Err(_) => unreachable!(),
    }
}
