//! A method found by an address without wildcards: its cue or device is looked up, no list is gone over.
ghost use Rattle.std.specs.Prelude.{◌≡◌, ◌-◌, IsTrue, MatchOption, None, Some, codes};
ghost use Rattle.std.specs.List.{find};
ghost use Rattle.std.specs.Option.{option_copied, option_to_list};
ghost use Rattle.cue_show.specs.Number.{same_text};
ghost use Rattle.cue_show.specs.Show.{is_show};
ghost use Rattle.cue_operator.specs.Methods.{address_of, fixed_methods};
ghost use Rattle.cue_operator.specs.LookUp.{rest_after, name_and_verb, number_at, device_named, cue_methods_at};
ghost use Rattle.cue_operator.specs.LookUp.{device_methods_at, looked_up};

use crate::method::{CueVerb, DeviceVerb, Method};
use cue_pattern::cut_first;
use cue_show::{CueNo, DeviceNo, Show};
use itoa::Buffer;

fn rest_after<'a>(front: &[u8], address: &'a [u8]) -> Option<&'a [u8]>
    ensures { option_copied result ≡ rest_after front.now address.now }
{
    if address.starts_with(front) {
        Some(&address[front.len()..])
    } else {
        None
    }
}

/// The name and the verb of an address with this front.
fn name_and_verb<'a>(front: &[u8], address: &'a [u8]) -> Option<(&'a [u8], &'a [u8])>
    ensures { MatchOption result (name_and_verb front.now address.now ≡ None)
        (λ found. name_and_verb front.now address.now ≡ Some (found.0.now, found.1.now)) }
{
    let rest = rest_after(front, address)?;
    let (name, verb) = cut_first(b'/', rest);
    Some((name, verb?))
}

fn digit(b: u8) -> u16
    ensures { result ≡ b - 48 }
{
    u16::from(b.saturating_sub(b'0'))
}

fn number_at(name: &[u8]) -> Option<u16>
    ensures { result ≡ number_at name.now }
{
    match name {
        [ones] => Some(digit(*ones)),
        [tens, ones] => Some(digit(*tens) * 10 + digit(*ones)),
        [hundreds, tens, ones] => {
            Some(digit(*hundreds) * 100 + digit(*tens) * 10 + digit(*ones))
        }
        _ => None,
    }
}

/// The device whose number stands there in decimal, with no zero in front.
fn device_named(name: &[u8]) -> Option<DeviceNo>
    ensures { result ≡ device_named name.now }
{
    let device = DeviceNo::of(i32::from(number_at(name)?))?;
    let mut text = Buffer::new();
    if text.format(device.number()).as_bytes() == name {
        Some(device)
    } else {
        None
    }
}

fn fixed_method(address: &[u8]) -> Option<Method>
    ensures { result ≡ find (λ m. same_text address.now (address_of m)) fixed_methods }
{
    if address == b"/status".as_slice() {
        Some(Method::Status)
    } else if address == b"/show/device".as_slice() {
        Some(Method::AddDevice)
    } else if address == b"/show/cue".as_slice() {
        Some(Method::AddCue)
    } else if address == b"/show/mixed".as_slice() {
        Some(Method::AddMixedCue)
    } else {
        None
    }
}

fn cue_method(show: &Show, name: &[u8], verb: &[u8]) -> Option<Method>
    requires { IsTrue (is_show show.now) }
    ensures { option_to_list result ≡ cue_methods_at show.now (Some (name.now, verb.now)) }
{
    let cue = CueNo::read(name)?;
    if !show.has_cue(cue) {
        return None;
    }
    let verb = CueVerb::of(verb)?;
    Some(Method::OfCue(cue, verb))
}

fn device_method(show: &Show, name: &[u8], verb: &[u8]) -> Option<Method>
    requires { IsTrue (is_show show.now) }
    ensures { option_to_list result ≡ device_methods_at show.now (Some (name.now, verb.now)) }
{
    let device = device_named(name)?;
    if !show.has_device(device) {
        return None;
    }
    let verb = DeviceVerb::of(verb)?;
    Some(Method::OfDevice(device, verb))
}

/// The method with exactly this address. It costs the same over every show.
pub(crate) fn look_up(show: &Show, address: &[u8]) -> Option<Method>
    requires { IsTrue (is_show show.now) }
    ensures { option_to_list result ≡ looked_up show.now address.now }
{
    if let Some(method) = fixed_method(address) {
        return Some(method);
    }
    if let Some((name, verb)) = name_and_verb(b"/cue/", address) {
        return cue_method(show, name, verb);
    }
    let (name, verb) = name_and_verb(b"/device/", address)?;
    device_method(show, name, verb)
}
