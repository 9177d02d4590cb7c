//! Where the devices stand, as a desk knows it by the copies of the store that it heard.
ghost use Rattle.std.specs.Prelude.{◌≡◌, IfOk, OnErr, OnOk};
ghost use Rattle.cue_desk_run.specs.Devices as devices;
ghost use Rattle.cue_whereabouts.specs.Beginning.{unheard};

use crate::failing::Tries;
use crate::shelf::{FileShelf, Shelf};
use cue_station::heard::{Copied, Heard};
use cue_whereabouts::{Difference, Whereabouts};
use std::alloc::{AllocError, Global};
use std::fs::{File, Files};
use std::io;

/// What a desk knows of where devices stand, and which of them do not stand as the stack supposes at the place.
#[derive(Drop)]
pub(crate) struct DeviceWatch {
    pub(crate) known: Whereabouts,
    pub(crate) differences: Vec<Difference>,
}

impl DeviceWatch {
    /// No copy was heard.
    pub(crate) fn new(alloc: Global) -> Result<DeviceWatch, AllocError>
        ensures { IfOk result (λ watch. watch.known ≡ unheard) }
    {
        Ok(DeviceWatch {
            known: Whereabouts::new(alloc)?,
            differences: Vec::new(alloc),
        })
    }

    // Hears a copy. What is of another store is forgotten first. If memory runs out, the differences are those of
    // before.
    fn hear_copy(&mut self, alloc: Global, copy: &Copied) -> Result<(), AllocError>
        ensures known { self.new.known ≡ devices.known_by copy.now self.old.known }
        ensures ok { OnOk result (self.new.differences.items ≡ devices.differences_by copy.now self.new.known) }
        ensures err { OnErr result (self.new.differences ≡ self.old.differences) }
    {
        self.known.forget_after(copy.state.last_seq());
        self.known.hear(copy.state.show(), &copy.events);
        self.differences = self.known.differences(alloc, &copy.state)?;
        Ok(())
    }

    /// Hears what the files of the store say. Anything but a copy says nothing of devices.
    pub(crate) fn hear(&mut self, alloc: Global, heard: &Heard) -> Result<(), AllocError>
        ensures known { self.new.known ≡ devices.known_after heard.now self.old.known }
        ensures ok { OnOk result (devices.AreOf heard.now self.new self.old) }
        ensures err { OnErr result (self.new.differences ≡ self.old.differences) }
    {
        match heard {
            Heard::Copied(copy) => self.hear_copy(alloc, copy),
            _ => Ok(()),
        }
    }
}

/// The file in which a desk keeps where devices stand, and what it has.
#[derive(Drop)]
pub(crate) struct KeptDevices<'a, R> {
    shelf: FileShelf<'a, R>,
    // What was written last; none if that failed, or nothing was.
    written: Option<String>,
    tries: Tries,
}

impl<'a, R: Files<File = File> + AllocGlobal> KeptDevices<'a, R> {
    /// The file at this path, which is not written yet.
    pub(crate) fn of(rt: &'a R, path: &'a str) -> Result<KeptDevices<'a, R>, AllocError>
        ensures { IfOk result (λ kept. kept.shelf.path.now ≡ path.now) }
    {
        Ok(KeptDevices {
            shelf: FileShelf::of(rt, path)?,
            written: None,
            tries: Tries::new(),
        })
    }

    // Writes it there, if it is not what was written last.
    fn write(&mut self, alloc: Global, known: &Whereabouts) -> io::Result<()> {
        let text = known.text(alloc)?;
        if self.written.as_deref() == Some(text.as_str()) {
            return Ok(());
        }
        self.written = None;
        self.shelf.replace(text.as_str())?;
        self.written = Some(text);
        Ok(())
    }

    /// Keeps it there. If that fails, it is tried again with the next copy.
    pub(crate) fn keep(&mut self, alloc: Global, known: &Whereabouts) {
        let written = self.write(alloc, known);
        self.tries.note(written);
    }

    /// Why it could not be kept, once, if it could not be since.
    pub(crate) fn take_loss(&mut self) -> Option<io::Error> {
        self.tries.take()
    }
}

/// Hears each line of a text. Answers how many of them are no line of a device, and were passed over.
pub(crate) fn hear_text(
    known: &mut Whereabouts,
    alloc: Global,
    text: &str,
) -> Result<usize, AllocError> {
    let mut passed: usize = 0;
    for line in text.lines() {
        if !known.hear_line(alloc, line)? {
            passed = passed.saturating_add(1);
        }
    }
    Ok(passed)
}

/// What stands at the path; an empty text if nothing does.
pub(crate) fn text_at<R: Files<File = File> + AllocGlobal>(
    rt: &R,
    path: &str,
) -> io::Result<String> {
    FileShelf::of(rt, path)?.text()
}
