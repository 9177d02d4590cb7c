//! What is put after a file of marks.
ghost use Rattle.std.specs.Prelude.{◌≡◌, ◌++◌, IfOk, OnOk, string_bytes};
ghost use Rattle.cue_curtain.specs.Lines as lines;

use std::alloc::{AllocError, Global};

// The end of the last line, if that has none.
fn push_seam(text: &mut String, last: Option<u8>) -> Result<(), AllocError>
    ensures { OnOk result (string_bytes text.new ≡ string_bytes text.old ++ lines.seam last) }
{
    match last {
        Some(last) => {
            if last != b'\n' {
                text.push_str("\n")?;
            }
            Ok(())
        }
        None => Ok(()),
    }
}

/// What is put after a file with this last byte, so that it has the line, which ends with a line feed, as a line of its
/// own. An empty file has no last byte.
pub fn text_after(alloc: Global, last: Option<u8>, line: &str) -> Result<String, AllocError>
    ensures { IfOk result (λ text. string_bytes text ≡ lines.put_after last line.now) }
{
    let mut text = String::new(alloc);
    push_seam(&mut text, last)?;
    text.push_str(line)?;
    Ok(text)
}
