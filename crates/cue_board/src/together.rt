//! The cues that are stood by together with one, in words.
ghost use Rattle.std.specs.Prelude.{◌≡◌, ◌++◌, IfOk, OnOk, string_bytes};
ghost use Rattle.cue_board.specs.Together as together;

use cue_show::CueNo;
use cue_show_file::cue_text;
use std::alloc::{AllocError, Global};

// Puts the cues after a text, a comma before each.
fn push_cues(text: &mut String, cues: &[CueNo]) -> Result<(), AllocError>
    ensures { OnOk result (string_bytes text.new ≡ string_bytes text.old ++ together.after_commas cues.now) }
{
    match cues {
        [] => Ok(()),
        [first, rest @ ..] => {
            text.push_str(", ")?;
            text.push_str(cue_text(first))?;
            push_cues(text, rest)
        }
    }
}

/// What follows the number of a cue: ` with 13, 14`; nothing if it is stood by alone.
pub fn with_words(alloc: Global, others: &[CueNo]) -> Result<String, AllocError>
    ensures { IfOk result (λ text. string_bytes text ≡ together.with_said others.now) }
{
    let mut text = String::new(alloc);
    match others {
        [] => Ok(text),
        [first, rest @ ..] => {
            text.push_str(" with ")?;
            text.push_str(cue_text(first))?;
            push_cues(&mut text, rest)?;
            Ok(text)
        }
    }
}
