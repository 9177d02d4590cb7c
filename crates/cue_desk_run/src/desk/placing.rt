//! Where devices stand, in a file that outlives the desk.
ghost use Rattle.std.specs.Prelude.{◌≡◌};

use super::Desk;
use crate::devices::{KeptDevices, hear_text, text_at};
use std::alloc::AllocError;
use std::fs::{File, Files};
use std::io;
use std::net::Net;
use std::time::Clock;

impl<'a, R: Files<File = File> + Net + Clock + AllocGlobal> Desk<'a, R> {
    /// Hears what a desk kept in this file of where devices stand; nothing if there is none. Answers how many of its
    /// lines are no such line, and were passed over.
    pub fn hear_devices(&mut self, path: &str) -> io::Result<usize>
        ensures station { self.new.station ≡ self.old.station }
        ensures view { self.new.view ≡ self.old.view }
        ensures nothing { self.new.asks.outlet ≡ self.old.asks.outlet }
    {
        let text = text_at(self.rt, path)?;
        let passed = hear_text(&mut self.devices.known, self.rt.alloc(), text.as_str())?;
        Ok(passed)
    }

    /// From now on keeps there where devices stand, as soon as that is another place.
    pub fn keep_devices(&mut self, path: &'a str) -> Result<(), AllocError>
        ensures station { self.new.station ≡ self.old.station }
        ensures view { self.new.view ≡ self.old.view }
        ensures nothing { self.new.asks.outlet ≡ self.old.asks.outlet }
    {
        self.places = Some(KeptDevices::of(self.rt, path)?);
        Ok(())
    }

    // Keeps where devices stand, if this desk does, and a copy was heard.
    pub(super) fn write_devices(&mut self, is_copy: bool)
        ensures station { self.new.station ≡ self.old.station }
        ensures view { self.new.view ≡ self.old.view }
        ensures nothing { self.new.asks.outlet ≡ self.old.asks.outlet }
        ensures devices { self.new.devices ≡ self.old.devices }
    {
        if !is_copy {
            return;
        }
        if let Some(places) = &mut self.places {
            places.keep(self.rt.alloc(), &self.devices.known);
        }
    }

    /// Why that could not be kept, once, if it could not be since.
    pub fn take_place_loss(&mut self) -> Option<io::Error>
        ensures station { self.new.station ≡ self.old.station }
        ensures view { self.new.view ≡ self.old.view }
        ensures nothing { self.new.asks.outlet ≡ self.old.asks.outlet }
    {
        match &mut self.places {
            Some(places) => places.take_loss(),
            None => None,
        }
    }
}
