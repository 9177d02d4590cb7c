//! The text of what is sent: a line `> PORT HEX` for each datagram.
ghost use Rattle.std.specs.Prelude.{◌≡◌, ◌++◌, IfOk, OnOk, string_bytes, map};
ghost use Rattle.cue_script.specs.ScriptViews.{sent_view};
ghost use Rattle.cue_script.specs.Script.{line_of, printed_lines};

use cue_engine::Sent;
use std::alloc::{AllocError, Global};

fn line_of(alloc: Global, sent: &Sent) -> Result<String, AllocError>
    ensures { IfOk result (λ line. string_bytes line ≡ line_of (sent_view sent.now)) }
{
    let port = sent.to;
    let digits = hex::encode(alloc, sent.bytes.as_slice())?;
    format!(in alloc; "> {port} {digits}\n")
}

// Puts the line of a datagram after the text.
fn print(alloc: Global, sent: &Sent, text: &mut Vec<u8>) -> Result<(), AllocError>
    ensures { OnOk result (text.new.items ≡ text.old.items ++ line_of (sent_view sent.now)) }
{
    let line = line_of(alloc, sent)?;
    text.extend_from_slice(line.as_bytes())
}

/// A line for each datagram, in order.
pub fn print_all(alloc: Global, all: &[Sent]) -> Result<Vec<u8>, AllocError>
    ensures { IfOk result (λ text. text.items ≡ printed_lines (map sent_view all.now)) }
{
    let mut text = Vec::new(alloc);
    for sent in all {
        print(alloc, sent, &mut text)?;
    }
    Ok(text)
}
