//! Which packets can be written.

ghost use Rattle.std.specs.Prelude.{◌≡◌, ◌↔◌, map, IsTrue};
ghost use Rattle.std.specs.List.{list_all};
ghost use Rattle.cue_osc.specs.Argument.{arg_view};
ghost use Rattle.cue_osc.specs.Content.{view, contents_of};
ghost use Rattle.cue_osc.specs.Plain.{IsPlain, is_text, is_address, is_plain_arg, is_plain, are_plain};

use crate::limits::MAX_DEPTH;
use crate::packet::{Arg, Packet};

impl Packet<'_> {
    /// Whether the packet can be written: nothing in it is discarded, each address begins with `/`,
    /// addresses and texts hold no null, and bundles are at most 8 deep.
    pub fn plain(&self) -> bool
        ensures { IsTrue result ↔ IsPlain 8 (view self.now) }
    {
        plain_within(self, MAX_DEPTH)
    }
}

#[cycle(plain)]
fn plain_within(packet: &Packet<'_>, depth: u8) -> bool
    ensures { result ≡ is_plain depth (view packet.now) }
{
    match packet {
        Packet::Message(m) => { plain_address(m.address) && plain_args(m.args.as_slice()) }
        Packet::Discarded { .. } => false,
        Packet::Bundle { items, .. } => depth > 0 && all_plain(items, depth - 1),
    }
}

#[cycle(plain)]
fn all_plain(items: &[Packet<'_>], depth: u8) -> bool
    ensures { result ≡ are_plain depth (contents_of (map view items.now)) }
{
    for item in items {
        if !plain_within(item, depth) {
            return false;
        }
    }
    true
}

fn plain_args(args: &[Arg<'_>]) -> bool
    ensures { result ≡ list_all is_plain_arg (map arg_view args.now) }
{
    for arg in args {
        if !plain_arg(arg) {
            return false;
        }
    }
    true
}

fn plain_text(bytes: &[u8]) -> bool
    ensures { result ≡ is_text bytes.now }
{
    bytes.iter().all(|b| *b != 0)
}

fn plain_address(bytes: &[u8]) -> bool
    ensures { result ≡ is_address bytes.now }
{
    match bytes {
        [] => false,
        [first, rest @ ..] => *first == b'/' && plain_text(rest),
    }
}

fn plain_arg(arg: &Arg<'_>) -> bool
    ensures { result ≡ is_plain_arg (arg_view arg.now) }
{
    match arg {
        Arg::Text(text) => plain_text(text),
        _ => true,
    }
}
