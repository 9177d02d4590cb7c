//! A message: an address, a type tag string, and one argument for each tag.

ghost use Rattle.std.specs.Prelude.{◌≡◌, ℕ, List, map};
ghost use Rattle.std.specs.List.{list_all};
ghost use Rattle.cue_osc.specs.Argument.{arg_view};
ghost use Rattle.cue_osc.specs.Content.{view};
ghost use Rattle.cue_osc.specs.Spelling.{is_known_tag};
ghost use Rattle.cue_osc.specs.Reading.{Gives, all_args_at, after_address, tagged_at, message_at};
ghost use Rattle.cue_osc.specs.Understood.{message_with};

use super::fields::{arg, string};
use crate::fault::Fault;
use crate::packet::{Arg, Args, Message, Packet};
use std::alloc::Global;

fn are_known(kinds: &[u8]) -> bool
    ensures { result ≡ list_all is_known_tag kinds.now }
{
    kinds.iter().all(|kind| matches!(*kind, b'i' | b's' | b'b'))
}

/// The arguments with these type tags, all of the bytes.
fn all_args<'a>(alloc: Global, kinds: &[u8], bytes: &'a [u8]) -> Result<Vec<Arg<'a>>, Fault>
    ensures { Gives (λ v. map arg_view v.items) result (all_args_at kinds.now bytes.now) }
{
    let mut args = Vec::with_capacity(alloc, kinds.len())?;
    let mut rest = bytes;
    for kind in kinds {
        let (next, after) = arg(*kind, rest)?;
        args.push(next)?;
        rest = after;
    }
    if !rest.is_empty() {
        return Err(Fault::Trailing);
    }
    Ok(args)
}

/// The arguments of a message, beginning with its type tag string; None if a tag is not known.
#[tactic(auto, unfolding(crate::specs::Reading::tagged_at))]
#[inline(never)]
fn tagged<'a>(alloc: Global, bytes: &'a [u8]) -> Result<Option<Args<'a>>, Fault>
    ensures { (address : List ℕ) → Gives (message_with address) result (tagged_at address bytes.now) }
{
    let (tags, values) = string(bytes)?;
    let kinds = match tags {
        [_, kinds @ ..] => kinds,
        [] => tags,
    };
    if !are_known(kinds) {
        return Ok(None);
    }
    let args = all_args(alloc, kinds, values)?;
    Ok(Some(Args::from_vec(args)))
}

/// A message, all of the bytes. It is inlined where elements are read, so that it is made in its place.
#[tactic(auto, unfolding(crate::specs::Reading::message_at, crate::specs::Reading::after_address))]
#[inline(always)]
pub(crate) fn message<'a>(alloc: Global, bytes: &'a [u8]) -> Result<Packet<'a>, Fault>
    ensures { Gives view result (message_at bytes.now) }
{
    let (address, rest) = string(bytes)?;
    match rest {
        [] => Ok(Packet::Message(Message {
            address,
            args: Args::from_vec(Vec::new(alloc)),
        })),
        [b',', ..] => match tagged(alloc, rest)? {
            Some(args) => Ok(Packet::Message(Message { address, args })),
            None => Ok(Packet::Discarded { address }),
        },
        _ => Ok(Packet::Discarded { address }),
    }
}
