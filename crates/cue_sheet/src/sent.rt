//! What a part sends, as the file has it.
ghost use Rattle.std.specs.Prelude.{◌≡◌, IfOk, string_bytes};
ghost use Rattle.std.specs.List.{list_all};
ghost use Rattle.std.specs.Str.{IsUtf8, chars};
ghost use Rattle.cue_words.specs.Signs.{is_shown};
ghost use Rattle.cue_show_file.specs.declared.file.Form.TheVariants as forms;
ghost use Rattle.cue_sheet.specs.Sent.{digits_of, text_of};

use cue_show_file::{Form, Quoted};
use cue_words::is_shown;
use std::alloc::{AllocError, Global};
use std::str;

// Bytes by their digits.
fn digits_text(alloc: Global, bytes: &[u8]) -> Result<String, AllocError>
    ensures { IfOk result (λ text. string_bytes text ≡ digits_of bytes.now) }
{
    if bytes.is_empty() {
        return String::from_str(alloc, "no bytes");
    }
    let digits = hex::encode(alloc, bytes)?;
    let digits = digits.as_str();
    format!(in alloc; "hex {digits}")
}

// Whether a terminal and a printer show each sign of the text.
fn is_all_shown(text: &str) -> bool
    ensures { result ≡ list_all is_shown (chars text.now) }
{
    text.chars().all(|c| is_shown(c))
}

// A text between its quotes, or by its digits if not each of its signs is shown.
fn text_sent(alloc: Global, text: &str) -> Result<String, AllocError>
    ensures { IfOk result (λ sent. string_bytes sent ≡ text_of text.now) }
{
    if text.is_empty() || !is_all_shown(text) {
        return digits_text(alloc, text.as_bytes());
    }
    let quoted = Quoted { text };
    format!(in alloc; "{quoted}")
}

// The bytes of a text.
fn bytes_sent(alloc: Global, bytes: &[u8]) -> Result<String, AllocError>
    ensures { IfOk result (λ sent. IsUtf8 bytes.now → string_bytes sent ≡ text_of bytes.now) }
{
    match str::from_utf8(bytes) {
        Ok(text) => text_sent(alloc, text),
        Err(_) => digits_text(alloc, bytes),
    }
}

/// What a part with these bytes sends, as the file has it: `"house=50"` if it has a text, `hex 0a01` if it has digits,
/// and `no bytes`. A text that a printer would not show whole stands there by its digits.
pub fn sent_text(alloc: Global, form: Form, bytes: &[u8]) -> Result<String, AllocError>
    ensures digits { IfOk result (λ sent. form ≡ forms.Digits → string_bytes sent ≡ digits_of bytes.now) }
    ensures text { IfOk result
        (λ sent. form ≡ forms.Text → IsUtf8 bytes.now → string_bytes sent ≡ text_of bytes.now) }
{
    match form {
        Form::Text => bytes_sent(alloc, bytes),
        Form::Digits => digits_text(alloc, bytes),
    }
}
