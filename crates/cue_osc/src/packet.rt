//! What a packet is: a message, a message that is not understood, or a bundle of packets.

ghost use Rattle.std.specs.Prelude.{◌≡◌, map};
ghost use Rattle.cue_osc.specs.Argument.{arg_view};

use std::marker::Model;

/// One argument of a message. Texts and blobs lie in the datagram.
#[derive(Clone, Copy, Debug, PartialEq, Eq)]
pub enum Arg<'a> {
    /// Type tag `i`.
    Int(i32),
    /// Type tag `s`: the bytes before the null. They may be any but zero, and need not be UTF-8.
    Text(&'a [u8]),
    /// Type tag `b`.
    Blob(&'a [u8]),
}

/// The arguments of a message, in order. Contracts see them as a list of what they say.
#[derive(Debug, Drop)]
pub struct Args<'a> {
    list: Vec<Arg<'a>>,
}

impl<'a> Model for Args<'a> {
    ghost use Rattle.std.specs.Prelude.{List, map};
    ghost use Rattle.cue_osc.specs.Argument.{Argument, arg_view};

    ghost Value = { List Argument };

    ghost use Rattle.cue_osc.specs.Argument.{arg_view};

    ghost view = { λ a. map arg_view a.list.items };
}

impl<'a> Args<'a> {
    /// The arguments of a message that is to be written. The vector is taken over; nothing is
    /// allocated.
    pub fn from_vec(list: Vec<Arg<'a>>) -> Args<'a>
        ensures { result ≡ map arg_view list.entry.items }
    {
        Args { list }
    }

    /// Gives the vector back.
    pub fn into_vec(self) -> Vec<Arg<'a>>
        ensures { map arg_view result.items ≡ self.entry }
    {
        let Args { list } = self;
        list
    }

    /// The arguments, in order.
    pub fn as_slice(&self) -> &[Arg<'a>]
        ensures { map arg_view result.now ≡ self.now }
    {
        self.list.as_slice()
    }
}

/// A message: an address (in a request: an address pattern) and arguments.
#[derive(Debug, Drop)]
pub struct Message<'a> {
    /// It begins with `/` and holds no null if it was read.
    pub address: &'a [u8],
    /// One for each type tag; none also if the type tag string was missing.
    pub args: Args<'a>,
}

/// What a datagram holds. All slices lie in the datagram.
#[derive(Debug, Drop)]
pub enum Packet<'a> {
    Message(Message<'a>),
    /// A message whose arguments are not understood: it has no type tag string, or one with
    /// another tag than `i`, `s` and `b`.
    Discarded { address: &'a [u8] },
    /// Packets with one time tag, in order: 32 bits of seconds since 1900, and 32 bits of
    /// fractions. The tag 1 means immediately.
    Bundle { tag: u64, items: Vec<Packet<'a>> },
}
