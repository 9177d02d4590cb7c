//! A device as C has it: plain numbers and bytes.
ghost use Rattle.std.specs.Prelude.{◌≡◌, IsTrue};
ghost use Rattle.cue_show.specs.DeviceNumber.{device_of_byte};
ghost use Rattle.cue_device_c.specs.State.{bytes_length, bytes_places, cue_length, cue_places, device_of, fits};
ghost use Rattle.cue_device_c.specs.State.{fits_cue, is_none_place, no_place, numbers_of, task_in};

use crate::codes::{order_code, order_number, order_of, phase_code, phase_of};
use cue_device::{Attempt, Device, PartBytes, Task};
use cue_show::limits::{MAX_CUE_BYTES, MAX_DEVICE_NUMBER, MAX_PART_BYTES};
use cue_show::{CueNo, DeviceNo};

/// What `magic` has if the numbers were made by `cue_device_new` or `cue_device_restarted`: "cue2".
pub const MAGIC: u32 = 1668638002;

/// How many bytes `struct cue_device` has: what `size` has there, and what the header hands to a call that makes one.
pub const SIZE: u32 = 104;

/// Where datagrams come from and go to, `struct cue_place`: eight bytes that this crate only compares and hands on.
/// Eight zeros are no place.
#[repr(C)]
#[derive(Clone, Copy, PartialEq, Eq)]
pub struct CuePlace {
    pub bytes: [u8; 8],
}

impl CuePlace {
    pub(crate) fn none() -> CuePlace
        ensures { result ≡ no_place }
    {
        CuePlace { bytes: [0; 8] }
    }

    pub(crate) fn is_none(&self) -> bool
        ensures { result ≡ is_none_place self.now }
    {
        self.bytes == [0; 8]
    }
}

/// `struct cue_device`, whose fields `include/cue_device.h` describes. It is not copied: what goes on from an older value
/// may move again. In C that is left to the maker, whom the header tells.
#[repr(C)]
#[derive(Drop)]
pub struct CueDevice {
    pub magic: u32,
    pub size: u32,
    pub number: u32,
    pub last: u32,
    pub phase: u32,
    pub doing: u32,
    pub doing_number: u32,
    pub unheard: u32,
    pub cue_length: u32,
    pub bytes_length: u32,
    pub cue: [u8; MAX_CUE_BYTES],
    pub bytes: [u8; MAX_PART_BYTES],
    pub controller: CuePlace,
    pub only: CuePlace,
}

impl CueDevice {
    // The device that these numbers stand for; none if they stand for no device.
    pub(crate) fn read(&self) -> Option<Device>
        ensures { result ≡ device_of self.now }
    {
        if !self.fits() {
            return None;
        }
        let number = device_number(self.number)?;
        let task = self.task();
        let attempt = match phase_of(self.phase) {
            Some(phase) => Some(Attempt { phase, task }),
            None => None,
        };
        let doing = order_of(self.doing, self.doing_number);
        Some(Device::from_kept_parts(number, self.last, attempt, doing, self.unheard == 1))
    }

    // The numbers that stand for the device. Its last order came from the one place, and it hears the other alone,
    // if that is one.
    pub(crate) fn of(device: &Device, controller: CuePlace, only: CuePlace) -> CueDevice
        ensures { result ≡ numbers_of device.now controller only }
    {
        let task = device.task();
        let (cue_length, cue) = cue_of(&task);
        let (bytes_length, bytes) = bytes_of(&task);
        CueDevice {
            magic: MAGIC,
            size: SIZE,
            number: u32::from(device.number().number()),
            last: device.last(),
            phase: phase_code(device.phase()),
            doing: order_code(device.doing()),
            doing_number: order_number(device.doing()),
            unheard: u32::from(device.tick().is_some()),
            cue_length,
            bytes_length,
            cue,
            bytes,
            controller,
            only,
        }
    }

    // Whether they stand for a device.
    fn fits(&self) -> bool
        ensures { result ≡ fits self.now }
    {
        self.magic == MAGIC
            && self.size == SIZE
            && self.number <= u32::from(MAX_DEVICE_NUMBER)
            && self.phase <= 7
            && self.doing <= 3
            && self.unheard <= 1
            && self.bytes_length <= MAX_PART_BYTES as u32
            && self.fits_cue()
    }

    // Whether there is no cue, or the number of one.
    fn fits_cue(&self) -> bool
        ensures { result ≡ fits_cue self.now.cue_length self.now.cue }
    {
        self.cue_length == 0
            || self.cue_length <= MAX_CUE_BYTES as u32
                && CueNo::read(&self.cue[..self.cue_length as usize]).is_some()
    }

    // What the device was asked to prepare for.
    fn task(&self) -> Option<Task>
        requires { IsTrue (fits self.now) }
        ensures { result ≡ task_in self.now }
    {
        if self.cue_length == 0 {
            return None;
        }
        let cue = CueNo::read(&self.cue[..self.cue_length as usize])?;
        let bytes = PartBytes::read(&self.bytes[..self.bytes_length as usize])?;
        Some(Task { cue, bytes })
    }
}

// The cue's number with zeros after it, and its length; zeros if there is no task.
fn cue_of(task: &Option<Task>) -> (u32, [u8; MAX_CUE_BYTES])
    ensures len { result.0 ≡ cue_length task.now }
    ensures places { result.1 ≡ cue_places task.now }
{
    let mut places = [0; MAX_CUE_BYTES];
    match task {
        Some(task) => {
            let text = task.cue.text();
            places[..text.len()].copy_from_slice(text);
            (text.len() as u32, places)
        }
        None => (0, places),
    }
}

// The bytes that the show keeps with zeros after them, and how many; zeros if there is no task.
fn bytes_of(task: &Option<Task>) -> (u32, [u8; MAX_PART_BYTES])
    ensures len { result.0 ≡ bytes_length task.now }
    ensures places { result.1 ≡ bytes_places task.now }
{
    let mut places = [0; MAX_PART_BYTES];
    match task {
        Some(task) => {
            let bytes = task.bytes.as_slice();
            places[..bytes.len()].copy_from_slice(bytes);
            (bytes.len() as u32, places)
        }
        None => (0, places),
    }
}

// The device of a number, if it is 0 to 111.
pub(crate) fn device_number(number: u32) -> Option<DeviceNo>
    ensures { result ≡ device_of_byte number }
{
    if number <= u32::from(MAX_DEVICE_NUMBER) {
        DeviceNo::of_byte(number as u8)
    } else {
        None
    }
}
