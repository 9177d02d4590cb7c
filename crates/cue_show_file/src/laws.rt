//! Laws of what is read and written, each the contract of a function. Only the last one does anything.
ghost use Rattle.std.specs.Prelude.{◌≡◌, [], IfOk};
ghost use Rattle.cue_show_file.specs.Marks.{MarksHaveTheirWords};
ghost use Rattle.cue_show_file.specs.Reading.{CheckedIsSaid, ExportNamesNoPlace, said_of};
ghost use Rattle.cue_show_file.specs.Said.{ExportSaysTheShow};
ghost use Rattle.cue_show_file.specs.Written.{ExportIsRead, WrittenIsRead};

use crate::{Draft, of_show, read, written};
use cue_show::Show;
use std::alloc::{AllocError, Global};

/// The show that the check finds has exactly the devices and the cues of the file, in order. So what the text says,
/// what is loaded and what the controller has are one.
pub fn checked_is_said()
    ensures { CheckedIsSaid }
{}

/// The word that is written for a colour or a flag is read as that colour or flag, and no other word is.
pub fn marks_have_their_words()
    ensures { MarksHaveTheirWords }
{}

/// The text that is written of a show file is, by the grammar of TOML, the table of that file: each device and each cue
/// with its number, its port, its names and its parts, in order, and nothing else.
pub fn written_is_read()
    ensures { WrittenIsRead }
{}

/// So the text that is exported of a show is read as exactly the devices and cues of this show.
pub fn export_is_read()
    ensures { ExportIsRead }
{}

/// And that table says the show, by the definition of a show file: the same devices with their ports and the same cues
/// with their parts, in the same order. So nothing is lost in an export.
pub fn export_says_the_show()
    ensures { ExportSaysTheShow }
{}

/// Nor does that text name a place on the stage's network, which no controller keeps.
pub fn export_names_no_place()
    ensures { ExportNamesNoPlace }
{}

/// So the text that is exported of a show reads back, with no mistake, as a file of this very show. This is no law of
/// definitions alone: it makes the calls.
pub fn export_reads_back(alloc: Global, show: &Show) -> Result<Draft, AllocError>
    ensures clean { IfOk result (λ draft. draft.findings.items ≡ []) }
    ensures same { IfOk result (λ draft. said_of draft.file ≡ (show.now.devices, show.now.cues)) }
{
    // Called for its clause that the show keeps its rules.
    let _ = show.place();
    let file = of_show(alloc, show)?;
    let text = written(alloc, &file)?;
    read(alloc, text.as_str())
}
