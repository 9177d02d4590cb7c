//! How a text is written anew: all but one piece of it stays, byte for byte.
ghost use Rattle.std.specs.Prelude.{◌≡◌, ◌++◌, IfOk, IfSome, OnOk, drop, string_bytes, take};
ghost use Rattle.cue_edit.specs.Rewriting as rewriting;

use std::alloc::{AllocError, Global};

/// What is done to a text; places are counted in bytes.
#[derive(Drop)]
pub enum Rewrite {
    /// Other bytes stand in place of those from one place to another; none are taken away if both are the same.
    Replace {
        from: usize,
        to: usize,
        put: String,
    },
    /// What is from the first place to the second stands after what is from the second to the third.
    Carry {
        from: usize,
        middle: usize,
        to: usize,
    },
}

// The first bytes of a text, up to this place.
fn front(text: &[u8], to: usize) -> &[u8]
    ensures { result.now ≡ take to text.now }
{
    text.get(..to).unwrap_or(text)
}

// The bytes of a text from this place on.
fn rest(text: &[u8], from: usize) -> &[u8]
    ensures { result.now ≡ drop from text.now }
{
    text.get(from..).unwrap_or(&[])
}

// The bytes from one place to another.
fn between(text: &[u8], from: usize, to: usize) -> &[u8]
    ensures { result.now ≡ rewriting.between from to text.now }
{
    rest(front(text, to), from)
}

// Puts the bytes of a text with a piece that is replaced.
fn push_replaced(
    bytes: &mut Vec<u8>,
    text: &[u8],
    from: usize,
    to: usize,
    put: &str,
) -> Result<(), AllocError>
    ensures { OnOk result (bytes.new.items
        ≡ bytes.old.items ++ rewriting.replaced from to put.now text.now) }
{
    bytes.extend_from_slice(front(text, from))?;
    bytes.extend_from_slice(put.as_bytes())?;
    bytes.extend_from_slice(rest(text, to))
}

// Puts the bytes of a text with two pieces in the other order.
fn push_swapped(
    bytes: &mut Vec<u8>,
    text: &[u8],
    from: usize,
    middle: usize,
    to: usize,
) -> Result<(), AllocError>
    ensures { OnOk result (bytes.new.items
        ≡ bytes.old.items ++ rewriting.swapped from middle to text.now) }
{
    bytes.extend_from_slice(front(text, from))?;
    bytes.extend_from_slice(between(text, middle, to))?;
    bytes.extend_from_slice(between(text, from, middle))?;
    bytes.extend_from_slice(rest(text, to))
}

// Puts the bytes of a text that is written anew.
fn push_rewritten(bytes: &mut Vec<u8>, text: &[u8], rewrite: &Rewrite) -> Result<(), AllocError>
    ensures { OnOk result (bytes.new.items ≡ bytes.old.items ++ rewriting.rewritten rewrite.now text.now) }
{
    match rewrite {
        Rewrite::Replace { from, to, put } => push_replaced(bytes, text, *from, *to, put.as_str()),
        Rewrite::Carry { from, middle, to } => push_swapped(bytes, text, *from, *middle, *to),
    }
}

// These bytes as a text, if they are one.
fn text_of(bytes: Vec<u8>) -> Option<String>
    ensures { IfSome result (λ text. string_bytes text ≡ bytes.items) }
{
    match String::from_utf8(bytes) {
        Ok(text) => Some(text),
        Err(_) => None,
    }
}

/// The text that is written anew; none if a place is within a letter.
pub(crate) fn rewritten(
    alloc: Global,
    text: &str,
    rewrite: &Rewrite,
) -> Result<Option<String>, AllocError>
    ensures { IfOk result (λ found. IfSome found (λ t. string_bytes t
        ≡ rewriting.rewritten rewrite.now text.now)) }
{
    let mut bytes = Vec::new(alloc);
    push_rewritten(&mut bytes, text.as_bytes(), rewrite)?;
    Ok(text_of(bytes))
}

// Whether the text ends with a line break, or is empty.
fn is_ended(text: &[u8]) -> bool
    ensures { result ≡ rewriting.is_ended text.now }
{
    match text {
        [] => true,
        [only] => *only == b'\n',
        [_, rest @ ..] => is_ended(rest),
    }
}

/// The text, with a line break after its last line.
pub(crate) fn ended(alloc: Global, text: &str) -> Result<String, AllocError>
    ensures { IfOk result (λ t. string_bytes t ≡ rewriting.ended text.now) }
{
    let mut whole = String::from_str(alloc, text)?;
    if !is_ended(text.as_bytes()) {
        whole.push_str("\n")?;
    }
    Ok(whole)
}
