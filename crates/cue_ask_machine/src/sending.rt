//! How the letter of a desk leaves.
ghost use Rattle.std.specs.Prelude.{◌∷◌, [], is_err, option_map};
ghost use Rattle.cue_machine.specs.Growing.{Grew};
ghost use Rattle.cue_ask_machine.specs.Lives.{post};
ghost use Rattle.cue_ask_machine.specs.Sending.{Asks, Leaves, Names};
ghost use Rattle.cue_ask_machine.specs.Steps.{sends};

use crate::machine::home;
use cue_machine::{Output, Post, PostFault};

// One datagram to the controller's port.
fn post_one<P: Post>(out: &mut P, port: u16, bytes: &[u8]) -> Result<(), PostFault>
    ensures { Grew (P.left out.old) (post (sends port bytes.now) (is_err result) ∷ []) (P.left out.new) }
{
    let to = home(port);
    out.post(Output::Send { by: 0, to }, bytes)
}

// Says who asks, if that is to be said. Nobody waits for what becomes of that.
#[tactic(auto, using(crate::proofs::SendLemmas::named, crate::proofs::SendLemmas::unnamed))]
fn post_name<P: Post>(out: &mut P, port: u16, name: Option<&[u8]>)
    ensures { Names port (option_map (λ v. v.now) name.entry) (P.left out.old) (P.left out.new) }
{
    if let Some(name) = name {
        let _ = post_one(out, port, name);
    }
}

// The message, and once more if it was lost: a system may say of it that it did not leave, since nobody heard the name.
#[tactic(auto, using(crate::proofs::SendLemmas::left_first, crate::proofs::SendLemmas::left_second))]
fn post_message<P: Post>(out: &mut P, port: u16, message: &[u8]) -> Result<(), PostFault>
    ensures { Asks (is_err result) (sends port message.now) (P.left out.old) (P.left out.new) }
{
    if post_one(out, port, message).is_ok() {
        return Ok(());
    }
    post_one(out, port, message)
}

/// Sends a letter of a desk to the controller's port of this machine, and before it the datagram that says who asks, if
/// there is one. If it fails the message has not left.
#[tactic(auto, using(crate::proofs::SendLemmas::leaves))]
pub fn send_letter<P: Post>(
    out: &mut P,
    port: u16,
    name: Option<&[u8]>,
    message: &[u8],
) -> Result<(), PostFault>
    ensures { Leaves port (option_map (λ v. v.now) name.entry) message.now (is_err result) (P.left out.old)
        (P.left out.new) }
{
    post_name(out, port, name);
    post_message(out, port, message)
}
