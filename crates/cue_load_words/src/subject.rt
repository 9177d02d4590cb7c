//! What a device or a cue of a show file is called in a line.
use cue_show_file::{Subject, cue_text};
use std::fmt;

/// A device or a cue, by its number.
#[derive(Clone, Copy, Drop)]
pub(crate) struct Named<'a> {
    pub(crate) subject: &'a Subject,
}

impl fmt::Display for Named<'_> {
    ghost use Rattle.std.specs.Prelude.{Some};
    ghost use Rattle.cue_load_words.specs.Words.{subject_words};

    ghost output = { λ named. Some (subject_words named.subject.now) };

    fn fmt<W: fmt::Write>(&self, f: &mut fmt::Formatter<W>) -> fmt::Result {
        match self.subject {
            Subject::File => f.write_str("the file"),
            Subject::Device(device) => {
                let number = device.number();
                write!(f, "device {number}")
            }
            Subject::Cue(cue) => {
                let number = cue_text(cue);
                write!(f, "cue {number}")
            }
            Subject::DeviceAt(place) => write!(f, "device entry {place}"),
            Subject::CueAt(place) => write!(f, "cue entry {place}"),
        }
    }
}
