//! The names of the copies that loads keep beside a show file, and which of them is taken.
ghost use Rattle.std.specs.Prelude.{◌≡◌, IfOk, IsTrue, OnOk, string_bytes};
ghost use Rattle.std.specs.Option.{option_map};
ghost use Rattle.cue_load_words.specs.Copies as copies;

use cue_machine::PostFault;
use std::alloc::{AllocError, Global};
use std::io;

/// What stands between the name of the show file and the number of a copy.
const KEPT: &str = ".before";

/// The ending of a show file.
const TOML: &str = ".toml";

/// How many copies may stand beside a show file.
pub const MAX_KEPT: u32 = 999;

/// What came of an attempt to keep a copy under a name.
#[derive(Clone, Copy, Debug, PartialEq, Eq)]
pub enum Attempt {
    /// Nothing stood there: the copy is new.
    Written,
    /// A file stood there with the very same text.
    HasSame,
    /// Something else stands there, and stays.
    HasOther,
}

/// What becomes of a copy after an attempt.
#[derive(Clone, Copy, Debug, PartialEq, Eq)]
pub enum Keeping {
    /// It stands under the name that was tried.
    Kept,
    /// The name with this number is tried.
    Next(u32),
    /// Each name is taken.
    Full,
}

/// What became of a copy.
#[derive(Drop)]
pub enum Kept {
    /// It stands in this file.
    In(String),
    /// All names are taken.
    Full,
}

/// Whether a copy of which this became has gone out.
pub fn went_out(kept: &io::Result<Kept>) -> Result<(), PostFault>
    ensures { OnOk result (IsTrue (copies.is_kept kept.now)) }
{
    match kept {
        Ok(Kept::In(_)) => Ok(()),
        Ok(Kept::Full) | Err(_) => Err(PostFault),
    }
}

/// What becomes of a copy after the attempt with this number, from 1.
pub fn next_of(number: u32, attempt: Attempt) -> Keeping
    ensures { result ≡ copies.next_of number attempt }
{
    match attempt {
        Attempt::Written | Attempt::HasSame => Keeping::Kept,
        Attempt::HasOther => {
            if number < MAX_KEPT {
                Keeping::Next(number + 1)
            } else {
                Keeping::Full
            }
        }
    }
}

// Whether each byte is a digit.
fn are_digits(text: &[u8]) -> bool
    ensures { result ≡ copies.are_digits text.now }
{
    text.iter().all(|byte| byte.is_ascii_digit())
}

// Whether this stands after `.before` in the name of a copy: nothing, or a dash and digits.
fn is_turn(text: &[u8]) -> bool
    ensures { result ≡ copies.is_turn text.now }
{
    match text {
        [] => true,
        [first, rest @ ..] => *first == b'-' && are_digits(rest),
    }
}

// The path without the ending of a show file.
fn bare_of(path: &str) -> &str
    ensures { copies.IsWithout copies.toml path.now result.now }
{
    match path.strip_suffix(TOML) {
        Some(bare) => bare,
        None => path,
    }
}

// What stands before the `.before` of a copy; of any other file, all of it.
fn first_of(bare: &str) -> &str
    ensures { copies.IsFirst bare.now result.now }
{
    match bare.rsplit_once(KEPT) {
        Some((first, turn)) => {
            if is_turn(turn.as_bytes()) {
                first
            } else {
                bare
            }
        }
        None => bare,
    }
}

/// What the names of copies begin with, of a show file with this path: the path without its ending; of what is a copy
/// itself, that of the show file beside which it stands.
pub fn stem_of(path: &str) -> &str
    ensures { copies.IsStem path.now result.now }
{
    first_of(bare_of(path))
}

/// The name of the copy with this number, from 1.
pub fn kept_name(alloc: Global, stem: &str, number: u32) -> Result<String, AllocError>
    ensures { IfOk result (λ name. string_bytes name ≡ copies.kept_name stem.now number) }
{
    if number == 1 {
        format!(in alloc; "{stem}{KEPT}{TOML}")
    } else {
        format!(in alloc; "{stem}{KEPT}-{number}{TOML}")
    }
}
