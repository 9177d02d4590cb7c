//! The codes of replies in words, as the table of codes has them.
ghost use Rattle.std.specs.Prelude.{◌≡◌, find, nat_eq, pos};
ghost use Rattle.cue_core.specs.Codes.{code_number, refusal_number};
ghost use Rattle.cue_words.specs.CodeWords as words;

use cue_core::{Code, Refusal};

/// The codes of single commands.
const CODES: [Code; 20] = [
    Code::Unread,
    Code::BadPattern,
    Code::NoMethod,
    Code::Arguments,
    Code::BadNumber,
    Code::Duplicate,
    Code::Full,
    Code::BadParts,
    Code::UnknownDevice,
    Code::InUse,
    Code::Busy,
    Code::NotLive,
    Code::NotReady,
    Code::Decided,
    Code::Stale,
    Code::Early,
    Code::WrongPort,
    Code::Clock,
    Code::Exhausted,
    Code::NotPart,
];

/// The codes of a datagram that is refused whole.
const REFUSALS: [Refusal; 4] = [
    Refusal::BadPacket,
    Refusal::TooLong,
    Refusal::Later,
    Refusal::TooMany,
];

fn words_of_code(code: Code) -> &'static str
    ensures { result.now ≡ words.code_words code }
{
    match code {
        Code::Unread => "the message could not be read whole",
        Code::BadPattern => "the address is no pattern",
        Code::NoMethod => "no such method, cue or device",
        Code::Arguments => "the arguments are not those of the method",
        Code::BadNumber => "a number is out of range",
        Code::Duplicate => "it is there already, and differs",
        Code::Full => "no room",
        Code::BadParts => "not parts that a cue can have",
        Code::UnknownDevice => "a part is for a device that is not there",
        Code::InUse => "a cue uses the device",
        Code::Busy => "the cue or a device of it is busy",
        Code::NotLive => "nothing is stood by",
        Code::NotReady => "not every device is ready",
        Code::Decided => "the cue was given",
        Code::Stale => "the answer came late",
        Code::Early => "the answer came early",
        Code::WrongPort => "the answer came from another port",
        Code::Clock => "the moment is too late for a deadline",
        Code::Exhausted => "no number is left for an attempt",
        Code::NotPart => "the device is not part of the attempt",
    }
}

fn words_of_refusal(refusal: Refusal) -> &'static str
    ensures { result.now ≡ words.refusal_words refusal }
{
    match refusal {
        Refusal::BadPacket => "the datagram is no OSC packet",
        Refusal::TooLong => "the datagram is too long",
        Refusal::Later => "the datagram is for later",
        Refusal::TooMany => "the datagram asks for too much at once",
    }
}

// The code among these that has the number.
fn code_in(codes: &[Code], number: u32) -> Option<Code>
    ensures { result ≡ find (λ c. nat_eq (code_number c) number) codes.now }
{
    codes
        .iter()
        .copied()
        .find(|code| u32::from(code.number()) == number)
}

// The refusal among these that has the number.
fn refusal_in(refusals: &[Refusal], number: u32) -> Option<Refusal>
    ensures { result ≡ find (λ r. nat_eq (refusal_number r) number) refusals.now }
{
    refusals
        .iter()
        .copied()
        .find(|refusal| u32::from(refusal.number()) == number)
}

fn words_of_refusal_number(number: u32) -> &'static str
    ensures { result.now ≡ words.refusal_number_words number }
{
    match refusal_in(&REFUSALS, number) {
        Some(refusal) => words_of_refusal(refusal),
        None => "refused",
    }
}

fn words_of_number(number: u32) -> &'static str
    ensures { result.now ≡ words.number_words (pos number) }
{
    match code_in(&CODES, number) {
        Some(code) => words_of_code(code),
        None => words_of_refusal_number(number),
    }
}

/// What the code with this number says; `refused` if there is no such code.
pub fn code_words(number: i32) -> &'static str
    ensures { result.now ≡ words.number_words number }
{
    match u32::try_from(number) {
        Ok(number) => words_of_number(number),
        Err(_) => "refused",
    }
}
