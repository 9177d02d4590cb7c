//! What a device did last, and with which bytes, in words.
ghost use Rattle.std.specs.Prelude.{◌≡◌, IfOk, string_bytes};
ghost use Rattle.cue_elsewhere.specs.Lines as lines;

use cue_show::CueNo;
use cue_show_file::{cue_text, plain_text};
use cue_whereabouts::{End, LastPart, PartBytes};
use std::alloc::{AllocError, Global};

// Bytes that are no plain text, by their digits.
fn digits_words(alloc: Global, bytes: &[u8]) -> Result<String, AllocError>
    ensures { IfOk result (λ text. string_bytes text ≡ lines.digits_words bytes.now) }
{
    if bytes.is_empty() {
        return String::from_str(alloc, "no bytes");
    }
    let digits = hex::encode(alloc, bytes)?;
    let digits = digits.as_str();
    format!(in alloc; "hex {digits}")
}

// Bytes as the show file has them.
fn bytes_words(alloc: Global, bytes: &[u8]) -> Result<String, AllocError>
    ensures { IfOk result (λ text. string_bytes text ≡ lines.bytes_words bytes.now) }
{
    match plain_text(bytes) {
        Some(text) => format!(in alloc; "\"{text}\""),
        None => digits_words(alloc, bytes),
    }
}

/// The bytes of a part as a show file that is written of a store has them: `"house=50"` if they are plain text, else
/// `hex 0a01`, or `no bytes`.
pub fn part_words(alloc: Global, bytes: PartBytes) -> Result<String, AllocError>
    ensures { IfOk result (λ text. string_bytes text ≡ lines.bytes_words bytes) }
{
    bytes_words(alloc, bytes.as_slice())
}

// The cue of a part, or its attempt if nobody knows the cue any more.
fn which_words(alloc: Global, attempt: u32, cue: Option<CueNo>) -> Result<String, AllocError>
    ensures { IfOk result (λ text. string_bytes text ≡ lines.which_words attempt cue) }
{
    match cue {
        Some(cue) => {
            let cue = cue_text(&cue);
            format!(in alloc; "cue {cue}")
        }
        None => format!(in alloc; "attempt {attempt}"),
    }
}

// How a part ended.
fn end_words(end: End) -> &'static str
    ensures { result.now ≡ lines.end_words end }
{
    match end {
        End::CarriedOut => "last ",
        End::Failed => "failed in ",
    }
}

/// The last part of a device: how it ended, and in which cue.
pub(crate) fn last_words(alloc: Global, last: &LastPart) -> Result<String, AllocError>
    ensures { IfOk result (λ text. string_bytes text ≡ lines.last_words last.now) }
{
    let which = which_words(alloc, last.attempt(), last.cue())?;
    let (end, which) = (end_words(last.end()), which.as_str());
    format!(in alloc; "{end}{which}")
}
