//! What a copy of a store says.
ghost use Rattle.std.specs.Prelude.{◌≡◌, IfOk, string_bytes};
ghost use Rattle.cue_load_words.specs.Copied.{IsCopied, IsCopyText, copy_text};

use cue_load_machine::{Copied, changes_stored};
use cue_loading::{Manner, differences};
use cue_show::Show;
use cue_show_file::{ShowFile, of_show, written};
use std::alloc::{AllocError, Global};

// The text of a copy, of this file for the controller at this port: after a line that says what it is.
fn text_of(alloc: Global, file: ShowFile, port: u16) -> Result<String, AllocError>
    ensures { IfOk result (λ text. string_bytes text ≡ copy_text file port) }
{
    let mut file = file;
    file.port = Some(port);
    let text = written(alloc, &file)?;
    drop(file);
    let text = text.as_str();
    format!(in alloc; "# What the store had before a load. `load --exact` takes it back.\n{text}")
}

// What a store has, as a show file for the controller at this port: all of its devices and cues, in order.
fn copy_of(alloc: Global, stored: &Show, port: u16) -> Result<Vec<u8>, AllocError>
    ensures { IfOk result (λ copy. IsCopyText stored.now port copy.items) }
{
    let file = of_show(alloc, stored)?;
    let text = text_of(alloc, file, port)?;
    let copy = Vec::from_slice(alloc, text.as_bytes())?;
    Ok(copy)
}

/// The copy of a store that a load of this manner may change, for the controller at this port: all of its devices and
/// cues, in order. It is to be kept if the load changes something, and the store is not empty.
pub fn copied_of(
    alloc: Global,
    manner: Manner,
    file: &Show,
    stored: &Show,
    port: u16,
) -> Result<Copied, AllocError>
    ensures { IfOk result (λ copied. IsCopied manner file.now stored.now port copied) }
{
    let found = differences(alloc, file, stored)?;
    let is_wanted = changes_stored(manner, stored, &found);
    let text = copy_of(alloc, stored, port)?;
    Ok(Copied { text, is_wanted })
}
