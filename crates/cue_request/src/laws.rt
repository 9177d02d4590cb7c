//! Laws of the lock of a show. Each contract is a theorem; there is nothing to run.
ghost use Rattle.cue_request.specs.Laws.{FiveClose, NoSixthWord, TakenSaysTheWord};

/// At a page with a lock no press that does not say its word moves the place or releases a device.
pub fn taken_says_the_word()
    ensures { TakenSaysTheWord }
{}

/// After five wrong words within a minute the lock is closed for ten seconds.
pub fn five_close()
    ensures { FiveClose }
{}

/// Within ten seconds five wrong words at most are looked at, whatever came before.
pub fn no_sixth_word()
    ensures { NoSixthWord }
{}
