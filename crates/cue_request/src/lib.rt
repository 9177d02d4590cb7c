//! What a request to the page may ask, and what it is answered. Nothing here opens a socket.
//!
//! `read_request` reads the request at the front of what has come from a connection: the head by the grammar of RFC
//! 9112, over the kit's `httparse`, and a body of at most 256 bytes. Its host, origin and token, and whether a page of
//! another site asks, are looked at before anything else (`specs/Identity.antt`). A field that is there twice counts as
//! not there; a head that says twice whose page asked is refused, and so is one whose body is coded. A press is the
//! number of the view that was shown, a space, and the text of one of its buttons, as `712 go 12.5 31` for attempt 31:
//! `specs/Requests.antt` (`IsCommand`), `specs/Presses.antt`; the lit buttons are given with these texts
//! (`specs/Lit.antt`), and an answer is its bytes (`specs/Answers.antt`). A show may have a lock: a move of the place
//! and a release want its word then (`specs/Locks.antt`).
//!
//! Why it is so:
//! - Any page that the same person has open can send requests to this machine. So a command is taken only with our own
//!   host, our own origin and the token; the host keeps a foreign name that leads here (DNS rebinding) from reading the
//!   board or the token. Host without a port is this machine if the page is at port 80.
//! - A page that only shows may be read through a proxy. It has one name more, that of the proxy, letter by letter as a
//!   browser says it, and no command is taken there at all. A page with buttons has no other name than this machine's.
//! - The token is drawn at each start, 128 bits of the system's random source, and stands in the page alone. It is
//!   compared by `==`, and the word of a lock, too: a round of the loop hides how long that takes.
//! - What a browser asks for a page of another site is refused, also if that is only to read: each such request would
//!   cost the desk an answer. A browser says so in `Sec-Fetch-Site`.
//! - The lock keeps a hand from the wrong button, not an attacker: who is at the desk can wait ten seconds after each
//!   five words. A press that does not say the word is refused and counts as no try.
//!
//! Only tested: which refusal a request gets, that a request of our own page is read, and that each text that is
//! written is read. Neither: that nobody else on the machine reads the token out of the page.
#![tactic(auto)]

pub mod answering;
mod fields;
pub mod identity;
pub mod laws;
pub mod lit;
pub mod lock;
mod numbers;
pub mod pressing;
pub mod replying;
pub mod request;
mod texts;
