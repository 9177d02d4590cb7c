//! The lock of a show: which presses need its word, and what becomes of words that are wrong.
ghost use Rattle.std.specs.Prelude.{◌≡◌, option_map, IsTrue};
ghost use Rattle.std.specs.Char.{is_ascii_graphic};
ghost use Rattle.std.specs.List.{list_all};
ghost use Rattle.cue_request.specs.Locks as locks;

use crate::identity::Purpose;
use crate::request::Refusal;
use cue_view::button::Button;

/// The longest word, in bytes.
const MAX_WORD: usize = 64;

/// How long a wrong word counts, in milliseconds.
const COUNTED: u64 = 60_000;

/// How long no word is taken after five wrong ones, in milliseconds.
const CLOSED: u64 = 10_000;

/// What a press says of the word of the lock.
#[derive(Clone, Copy, Debug, PartialEq, Eq)]
pub enum Said {
    /// The page has no lock.
    NoLock,
    Nothing,
    Wrong,
    Right,
}

/// What has become of the words so far: when wrong ones came, in milliseconds of a clock that never goes back.
#[derive(Clone, Copy, Debug, PartialEq, Eq)]
pub struct Guard {
    // The last four wrong words, the oldest first. If they were fewer, the first of these are none.
    first: Option<u64>,
    second: Option<u64>,
    third: Option<u64>,
    fourth: Option<u64>,
    // When the fifth within a minute came, the last time that it did.
    closed: Option<u64>,
}

/// Whether the press of a button needs the word: a move of the place does, and a release.
pub fn needs_word(button: Button) -> bool
    ensures { result ≡ locks.needs_word button }
{
    match button {
        Button::MoveTo(_) | Button::Release(_, _) => true,
        Button::Standby(_)
        | Button::Go(_, _)
        | Button::Cancel(_, _)
        | Button::Choose(_)
        | Button::Seen(_) => false,
    }
}

// Whether a text is letters, digits and signs of ASCII.
fn is_graphic(text: &[u8]) -> bool
    ensures { result ≡ list_all is_ascii_graphic text.now }
{
    text.iter().all(|byte| byte.is_ascii_graphic())
}

/// Whether a text can be the word of a lock: letters, digits and signs of ASCII, which a field of a head carries as
/// they are, at least one and 64 at most.
pub fn is_word(text: &[u8]) -> bool
    ensures { IsTrue result → locks.IsWord text.now }
{
    !text.is_empty() && text.len() <= MAX_WORD && is_graphic(text)
}

// What a press says of this word, which is that of the lock.
fn said_of(lock: &[u8], word: Option<&[u8]>) -> Said
    ensures { result ≡ locks.said_of lock.now (option_map (λ v. v.now) word.entry) }
{
    match word {
        None => Said::Nothing,
        Some(word) if word == lock => Said::Right,
        Some(_) => Said::Wrong,
    }
}

/// What a press says of the word of the lock at a page for this purpose; `word` is what its head has of it.
pub fn said_at(purpose: Purpose<'_>, word: Option<&[u8]>) -> Said
    ensures { result ≡ locks.said_at purpose.entry (option_map (λ v. v.now) word.entry) }
{
    match purpose {
        Purpose::Plays(Some(lock)) => said_of(lock, word),
        Purpose::Plays(None) | Purpose::Shows(_) => Said::NoLock,
    }
}

// Whether it was so many milliseconds ago at most.
fn is_within(long: u64, moment: Option<u64>, now: u64) -> bool
    ensures { result ≡ locks.is_within long moment now }
{
    match moment {
        Some(moment) => now.saturating_sub(moment) < long,
        None => false,
    }
}

impl Guard {
    /// No wrong word has come.
    pub fn new() -> Guard
        ensures { result ≡ locks.untouched }
    {
        Guard {
            first: None,
            second: None,
            third: None,
            fourth: None,
            closed: None,
        }
    }

    // Whether a wrong word that comes now is the fifth within a minute.
    fn is_fifth(self, now: u64) -> bool
        ensures { result ≡ locks.is_fifth self now }
    {
        is_within(COUNTED, self.first, now)
    }

    // After a wrong word that comes now.
    fn after_wrong(self, now: u64) -> Guard
        ensures { result ≡ locks.after_wrong self now }
    {
        if self.is_fifth(now) {
            let mut guard = Guard::new();
            guard.closed = Some(now);
            return guard;
        }
        Guard {
            first: self.second,
            second: self.third,
            third: self.fourth,
            fourth: Some(now),
            closed: self.closed,
        }
    }

    // Why a press that needs the word is refused; none if it is taken.
    fn verdict(self, now: u64, said: Said) -> Option<Refusal>
        ensures { result ≡ locks.verdict self now said }
    {
        match said {
            Said::NoLock => None,
            _ if is_within(CLOSED, self.closed, now) => Some(Refusal::Closed),
            Said::Nothing => Some(Refusal::NoWord),
            Said::Wrong if self.is_fifth(now) => Some(Refusal::Closed),
            Said::Wrong => Some(Refusal::WrongWord),
            Said::Right => None,
        }
    }

    // After a press that needs the word. While no word is taken none is counted.
    fn after(self, now: u64, said: Said) -> Guard
        ensures { result ≡ locks.after self now said }
    {
        match said {
            Said::Wrong if !is_within(CLOSED, self.closed, now) => self.after_wrong(now),
            _ => self,
        }
    }

    /// Why the press of this button is refused that comes now and says this of the word; none if it is taken. Five
    /// wrong words within a minute have every word refused for ten seconds, also the right one.
    pub fn judge(&mut self, button: Button, now: u64, said: Said) -> Option<Refusal>
        ensures verdict { result ≡ locks.verdict_on button self.old now said }
        ensures guard { self.new ≡ locks.after_press button self.old now said }
    {
        if !needs_word(button) {
            return None;
        }
        let verdict = self.verdict(now, said);
        *self = self.after(now, said);
        verdict
    }
}
