//! What became of a press, and why one was not sent, in words.
ghost use Rattle.std.specs.Prelude.{◌≡◌, IfOk, string_bytes};
ghost use Rattle.cue_board.specs.Presses as presses;

use cue_view::view::{Became, Unsent};
use cue_words::code_words;
use std::alloc::{AllocError, Global};

// Why the controller refused it.
fn refused_words(alloc: Global, code: i32) -> Result<String, AllocError>
    ensures { IfOk result (λ text. string_bytes text ≡ presses.refused_words code) }
{
    let words = code_words(code);
    format!(in alloc; "refused: {words} (code {code})")
}

// That only some of several cues stand by.
fn partly_words(alloc: Global, code: i32) -> Result<String, AllocError>
    ensures { IfOk result (λ text. string_bytes text ≡ presses.partly_words code) }
{
    let words = code_words(code);
    format!(in alloc; "NOT ALL of them stand by: {words} (code {code})")
}

// That nobody listens at the port.
fn nobody_words(alloc: Global, port: u16) -> Result<String, AllocError>
    ensures { IfOk result (λ text. string_bytes text ≡ presses.nobody_words port) }
{
    format!(in alloc; "not carried out: nobody listens at 127.0.0.1:{port}")
}

// What became of a press that the controller did not reply to by a number.
fn plain_words(became: Became) -> &'static str
    ensures { result.now ≡ presses.plain_words became }
{
    match became {
        Became::Made => "made",
        Became::Known => "it was so already",
        Became::Unshown => { "serve says that it was carried out; the store does not show it yet" }
        Became::Over => "it was made, and the cue stands by no more",
        Became::Carried => "no reply came; the store shows that it was carried out",
        Became::Lost => "no reply came; the store shows that it was not carried out",
        Became::Unknown => "no reply came, and the store does not show it: look at the devices",
        Became::Open | Became::Nobody | Became::Refused(_) | Became::Partly(_) => {
            "open: nobody has replied yet; the store will show whether it is carried out"
        }
    }
}

/// What became of a press. `port` is that of the controller.
pub fn became_words(alloc: Global, became: Became, port: u16) -> Result<String, AllocError>
    ensures { IfOk result (λ text. string_bytes text ≡ presses.became_words port became) }
{
    match became {
        Became::Refused(code) => refused_words(alloc, code),
        Became::Partly(code) => partly_words(alloc, code),
        Became::Nobody => nobody_words(alloc, port),
        _ => String::from_str(alloc, plain_words(became)),
    }
}

/// Why a press was not sent.
pub fn unsent_words(unsent: Unsent) -> &'static str
    ensures { result.now ≡ presses.unsent_words unsent }
{
    match unsent {
        Unsent::Old => "not sent: what was shown is more than a second old; look, and press again",
        Unsent::Dark => "not sent: the button was not lit",
        Unsent::Changed => "not sent: it has changed meanwhile; look, and press again",
        Unsent::Again => "GO was pressed less than a second ago: the second tap did nothing",
    }
}
